//! The code that builds a program's control graph.
#![tactic(auto)]

mod cells;
mod copies;
mod counting;
mod flow;
mod laws;
mod laying;
mod numbers;
mod places;
mod statements;
mod ways;
mod within;

pub use cob_graph::{Edge, FlowEnd, Graph, Node, nested};
pub use flow::graph_of;
pub use laws::nested_programs_have_main_copies;
