//! The domain of intervals (Cousot and Cousot 1977): intervals of whole numbers with exact least bounds, and rows of them.
//!
//! The sums, differences, products and quotients of the numbers of intervals have least bounds, and a cell's interval is
//! widened by thresholds. The numbers are units of a decimal scale that the caller knows.
//!
//! A row tells whether a node is reached, and what is known of each cell there. It begins with 1 where the node is
//! reached, and has two words for each cell: the ends of the interval that its number lies in, or 1 and 0 where nothing
//! is known of it. Where no run comes all words are 0. Rows are a lattice, with a widening by thresholds. Beside them
//! stand classes of cells, numeric or not. No call takes memory.
#![tactic(auto)]

mod arithmetic;
mod bounds;
mod class;
mod interval_widening;
mod joining;
mod laws;
mod order;
mod quotient;
mod widening;
mod words;

pub use arithmetic::{add_i, hull, mul_i, sub_i};
pub use bounds::Interval;
pub use class::{Class, class_join};
pub use interval_widening::widen_i;
pub use joining::join;
pub use laws::rows_are_a_lattice;
pub use order::leq;
pub use quotient::quot_i;
pub use widening::widen;
pub use words::{is_reached, known_at, set_known, set_unreached};
