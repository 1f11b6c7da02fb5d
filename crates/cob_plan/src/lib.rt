//! A program's control graph as the interpreter keeps it, and what each node does to what a run works on.
#![tactic(auto)]

mod assigning;
mod called;
mod calling;
mod computing;
mod conditions;
mod deciding;
mod does;
mod end;
mod listing;
mod next_node;
mod node;
mod nodes;
mod plan;
mod statement;

pub use does::do_op;
pub use end::DoEnd;
pub use node::{Op, PlanNode};
pub use plan::Plan;
pub use statement::Statement;
