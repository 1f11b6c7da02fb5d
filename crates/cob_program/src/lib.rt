//! A program of the profile with its names resolved: what the meaning, the control graph and the analysis speak of.
//! What a sum is worth stands here too, and how great each of its intermediates can be.
#![tactic(auto)]

mod act;
mod laws;
mod logic;
mod program;
mod root;
mod statements;
mod sum;

pub use act::{Act, Body, How, Opening, Stmt, Target, Turns, When};
pub use laws::{
    intermediates_are_small, intermediates_of_what_is_stored_are_small,
    sums_lie_within_their_bounds,
};
pub use logic::{Logic, Test};
pub use program::{Para, Program};
pub use root::Root;
pub use sum::{Atom, Factor, Part, Sum};
