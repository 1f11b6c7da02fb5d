//! The laws of a program's graph: it is one, its ways are the program's runs, and what follows for files that are never
//! made.
#![tactic(auto)]

mod laws;

pub use laws::{
    graphs_are_as_laid, graphs_are_one, runs_are_ways, unmade_files_are_kept, ways_tell_of_runs,
};
