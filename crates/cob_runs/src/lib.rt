//! What a program of the profile does, step by step, from the standard alone (ISO 1989:1985, "Procedure division"), and
//! what each edge of its graph does of that. Here stand the definitions, in `specs/`, and three types.
#![tactic(auto)]

mod action;
mod outcome;

pub use action::{Action, Cell};
pub use outcome::Outcome;
