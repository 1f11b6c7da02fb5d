//! From a source's bytes to its program: the text, the tokens, the tree, the layout of the data and the statements with
//! their names resolved, and to its control graph; or the first reason for which the source is no program of the
//! profile.
#![tactic(auto)]

mod graphs;
mod laws;
mod phases;
mod refusal;

pub use graphs::graph_in;
pub use laws::one_answer;
pub use phases::program_in;
pub use refusal::Refusal;
