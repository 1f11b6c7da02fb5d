//! The parts of what an edge of the control graph does, in their order, borrowed from the program: as a list, or one of
//! them; and what an edge is. No call takes memory but those that list parts or tests.
#![tactic(auto)]

mod arithmetic;
mod conditions;
mod edges;
mod files;
mod moves;
mod part;
mod part_edges;
mod part_items;
mod part_senders;
mod parts;
mod statement_tests;
mod sums;
mod taker;
mod tests_of;
mod work;

pub use edges::{has_phrase, is_handled, keeps_receiver};
pub use part::{Divisor, EdgePart};
pub use parts::{part_at, part_count};
pub use statement_tests::StatementTests;
pub use work::EdgeWork;
