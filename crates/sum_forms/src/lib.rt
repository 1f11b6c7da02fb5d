//! Sums of a program as linear forms over the cells of a pack: an item that has a cell in the pack counts with a
//! coefficient, a whole literal scales, and all else is a constant that lies in its range.
//!
//! No call takes memory.
#![tactic(auto)]

mod cells;
mod constants;
mod front;
mod laws;
mod literals;
mod products;
mod sums;

pub use cells::PackCells;
pub use constants::{cell_form, range_form};
pub use front::Front;
pub use laws::{
    forms_are_of_their_pack, narrower_items_give_narrower_forms, sums_are_shown_by_their_forms,
};
pub use literals::whole_factor;
pub use sums::{atom_form, sum_form};
