//! The second layer of the analysis: what is known of differences of cells along the graph of a program, beside what the
//! first layer knows of the cells at each node (Miné 2001). Rows of matrices flow along the graph's edges, stand for the
//! storages that runs bring to its nodes, and show with the first layer's rows which faults are not met there.
//!
//! Along an edge the matrices of several packs are changed in one row of words and in place; no call there takes memory.
//!
//! Beneath, for one pack, stand linear forms over its cells, in units of the pack: of what a receiver gets from a
//! sender or a sum, of a counter less one, of a divisor, and of the difference of two sums. By these and by what is
//! known of the cells the pack's matrix is changed in place: closings, stores, demands, and cells that are forgotten. A
//! matrix for a pack of `size` cells, at most 8, has `(size + 1)^2` words, row by row, as in `diff_bounds`.
#![tactic(auto)]

mod forms;
mod layer;
mod pack;

pub use layer::diff_layer::DiffLayer;
