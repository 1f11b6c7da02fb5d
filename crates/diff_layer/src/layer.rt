//! The layer: its domain, its flow along the graph, and what its nodes clear.

pub(crate) mod diff_layer;
pub(crate) mod domain;
pub(crate) mod edges;
pub(crate) mod entry;
pub(crate) mod flowing;
pub(crate) mod graph;
pub(crate) mod nodes;
pub(crate) mod planning;
