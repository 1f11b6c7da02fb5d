//! What statements make of ranges (Cousot and Cousot 1977). No call takes memory.
//!
//! Of an edge that stores: its operands, and the amount that a receiver is to get of them. Of a store: the interval of a
//! receiver's new units, and whether some result may not fit (ISO 1989:1985, "The SIZE ERROR phrase"). Of a test: where a
//! relation, a condition-name or a class test has an outcome, each item that is compared keeps the least interval of its
//! numbers for which it can.
#![tactic(auto)]

mod amount_ranges;
mod amounts;
mod arithmetic;
mod beside;
mod counts;
mod cuts;
mod edge_operands;
mod guard_laws;
mod guards;
mod intervals;
mod laws;
mod members;
mod results;
mod senders;
mod sides;
mod stores;
mod units;

pub use amount_ranges::{amount_of, is_remainder, may_divide_by_zero};
pub use amounts::{Amount, AmountRange, Receiver, Taken};
pub use beside::met;
pub use counts::count_kept;
pub use cuts::{Cut, Cuts};
pub use edge_operands::{edge_amount, operands, operands_vanish};
pub use guard_laws::{
    counts_are_cut, cuts_are_least, cuts_fit, guards_are_sound, guards_rise, searches_are_least,
};
pub use guards::{Items, guarded};
pub use laws::{
    amounts_lie_in_their_ranges, bounded_operands_give_small_amounts, counts_are_least,
    narrower_operands_give_narrower_results, receivers_keep_the_least, results_lie_in_their_ranges,
    stores_lie_in_their_ranges, units_are_least,
};
pub use results::{Stored, computed_range, counted, exceeds, fitted, lowered, result_range};
pub use sides::{left_kept, right_kept};
pub use stores::{amount_from, may_keep, may_vanish, receiver_at, store_range};
