//! The control graph of a program: what a step may be, from where to where; how PERFORMs nest; and the cells that an
//! analysis speaks of.
#![tactic(auto)]

mod calls;
mod counter_cells;
mod distinct;
mod end;
mod graph;
mod homes;
mod item_cells;
mod limits;
mod nesting;
mod reach;

pub use counter_cells::cell_of_count;
pub use end::FlowEnd;
pub use graph::{Edge, Graph, Node};
pub use homes::{Home, cell_of_home, homes_of};
pub use item_cells::cell_of;
pub use limits::{MOST_CELLS, MOST_NODES, MOST_TOLD};
pub use nesting::nested;
