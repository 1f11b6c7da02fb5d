//! The parts of what each edge of the control graph does, and that they do what the edge does: what the layers of the
//! analysis walk.
#![tactic(auto)]

mod laws;

pub use laws::{parts_change_their_bytes_alone, parts_do_what_edges_do};
