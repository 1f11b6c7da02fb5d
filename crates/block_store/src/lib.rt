//! Equal blocks of words in one region, which is reserved once and reached by raw pointers.
#![tactic(auto)]

mod blocks;
mod cells;
mod halves;
mod region;

pub use blocks::{BlockId, Blocks};
