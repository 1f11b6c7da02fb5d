//! The own ranges of cells, by their pictures, their ends as thresholds, and that what is claimed of cells lies in them.
#![tactic(auto)]

mod ranges;

pub use ranges::{all_ends, own_ranges};
