//! A plain slow program that does a program of the profile step by step (ISO 1989:1985, "Procedure division"). Its
//! contract is the meaning's definition, so that running it shows what the definition says.
#![tactic(auto)]

mod control;
mod files;
mod loops;
mod run;
mod selecting;
mod statements;

pub use run::{Run, begin, step};
