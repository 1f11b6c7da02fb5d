//! The solver of an analysis, over any system: edge by edge it finds rows for the nodes that the edges
//! keep, widening at the heads (Cousot and Cousot 1977).
#![tactic(auto)]

mod iteration;
mod node_rows;
mod store;

pub use store::{Store, solve};
