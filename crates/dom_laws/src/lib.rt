//! What the domains, systems and layers of an analysis promise (Cousot and Cousot 1977): traits with
//! laws, and the counter of transfers; and the pass over rows that are given for the nodes of a system: whether the entry
//! and every edge keep them.
#![tactic(auto)]

mod counter;
mod edge_pass;
mod laws;
mod traits;

pub use counter::Steps;
pub use edge_pass::pass;
pub use laws::{clears_no_fault, growth_is_bounded, nothing_is_missed, stands_where_reached};
pub use traits::{Domain, Layer, Rows, System};
