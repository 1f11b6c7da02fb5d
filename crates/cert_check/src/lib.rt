//! The checker: whether a certificate is inductive on a program's graph, and which statements it leaves open.
//!
//! It trusts nothing of whoever made the certificate.
#![tactic(auto)]

mod bounds;
mod certificate;
mod cleared;
mod edges;
mod ends;
mod laws;
mod nodes;
mod packs;
mod rows;

pub use cell_ranges::{all_ends, own_ranges};
pub use cert_text::Gap;
pub use certificate::check;
pub use dom_laws::pass;
pub use ends::{CheckEnd, Shape};
pub use laws::accepted_claims_cover_runs;
pub use nodes::open_pairs;
