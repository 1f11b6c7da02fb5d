//! The laws of programs of sources: their layouts are well-formed, their statements can be done and are found by their
//! numbers, and their runs are ways through their graphs (ISO 1989:1985, "Data division" and "Procedure division").
#![tactic(auto)]

mod laws;

pub use laws::{
    layouts_are_well_formed, numerals_are_short, runs_of_sources_are_ways, sources_can_be_run,
    typed_programs_are_well_formed, typed_statements_can_be_done,
};
