//! Nodes, edges and graphs.
use cob_runs::{Action, Cell};
use cob_tree::Many;

/// A place of a program's control, numbered from 1. `sites` are the numbers of the PERFORMs in whose copies it lies,
/// outermost first; `starts` says that a step begins here. The final node has statement 0.
#[derive(Drop)]
pub struct Node {
    pub statement: u32,
    pub sites: Many<u32>,
    pub starts: bool,
}

/// A way from a node to another.
#[derive(Clone, Copy, PartialEq, Eq)]
pub struct Edge {
    pub from: u32,
    pub to: u32,
    pub action: Action,
}

/// The nodes, the edges in the order of their nodes, and the cells that the analysis speaks of.
#[derive(Drop)]
pub struct Graph {
    pub nodes: Many<Node>,
    pub edges: Many<Edge>,
    pub cells: Many<Cell>,
}
