//! The layer: its domain, its flow along the graph, what its nodes clear, and where runs begin.

pub(crate) mod cell_layer;
pub(crate) mod domain;
pub(crate) mod edges;
pub(crate) mod entry;
pub(crate) mod firsts;
pub(crate) mod flowing;
pub(crate) mod guesses;
pub(crate) mod heads;
pub(crate) mod nodes;
pub(crate) mod sharing;
pub(crate) mod statements;
pub(crate) mod works;
