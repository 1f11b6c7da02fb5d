//! What holds of each source's program and of its graph: all that an analysis needs of them.
#![tactic(auto)]

mod laws;

pub use laws::{sources_have_graphs_or_causes, sources_have_source_graphs, statements_are_counted};
