//! The first layer of the analysis: what is known of cells along the graph of a program (Cousot and Cousot 1977). Rows of
//! words flow along the graph's edges, stand for the storages that runs bring to its nodes, and show which faults are
//! not met there.
//!
//! Beneath it stands the walk along an edge, part by part, on the row of what is known: what each part makes of the row, in
//! place, and the faults that what is known shows not to be met there. The row is read, set and forgotten by what its
//! cells are of, and tells the ranges of items, of sums and of senders, and what a read, a test or a counter leaves of it.
#![tactic(auto)]

mod edge;
mod layer;
mod row;

pub use edge::faults::cleared_by_part;
pub use edge::kept::{Kept, with_operands};
pub use edge::walking::{parts, walk, walk_part};
pub use layer::cell_layer::CellLayer;
pub use layer::edges::cleared_by_edge;
pub use layer::entry::entry_row;
pub use layer::firsts::first;
pub use layer::flowing::{edge_with, is_marked};
pub use layer::heads::heads_of;
pub use layer::nodes::{edge_at, edges_before, leaves};
pub use layer::works::EdgeWorks;
pub use row::beside::marks_of_cells;
pub use row::counters::count_units;
pub use row::forgetting::bytes_from;
pub use row::items::{KnownItems, item_is_numeric, item_range};
pub use row::knowing::{known_of_count, known_of_item};
pub use row::pictures::{is_small_item, is_table};
pub use row::scales::Taken;
pub use row::taking::taken;
