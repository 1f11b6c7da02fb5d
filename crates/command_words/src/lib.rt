//! The words of the command line: `analyse`, `check`, `run` and `trial`.
#![tactic(auto)]

mod by_clap;
mod command;
mod number;
mod parts;
mod reading;

pub use by_clap::plain_by_clap;
pub use command::{Command, RunWords};
pub use reading::{command_of, one_reading};
