//! Runs a program on the outside's files.
#![tactic(auto)]

mod ends;
mod handles;
mod laws;
mod nodes;
mod opens;
mod outside;
mod parts;
mod reads;
mod runs;
mod setting;
mod steps;
mod walk;

pub use ends::{Ended, Ending, RunEnd};
pub use laws::{one_end, some_end};
pub use runs::{run, run_to_ending};
