//! The range of a sum: the decimals that it can be worth, where each item's lie in a range of its own (Cousot and Cousot
//! 1977). Each operation's range is the least that holds every result. No call takes memory.
#![tactic(auto)]

mod arithmetic;
mod divisors;
mod laws;
mod literals;
mod ranged;
mod sums;
mod taking;

pub use arithmetic::{factor_range, plus_range, point, raised, turned};
pub use divisors::{may_be_zero, may_vanish, may_vanish_in_product};
pub use laws::{
    more_may_vanish_in_wider_ranges, narrower_items_give_narrower_sums, ranges_lie_within_bounds,
    ranges_of_intermediates_are_small, ranges_of_operations_are_least, sums_lie_in_their_ranges,
    sums_without_ranges_may_vanish, zero_divisors_are_told,
};
pub use literals::literal_range;
pub use ranged::{Ranged, Ranges};
pub use sums::{atom_range, product_range, sum_range};
pub use taking::{Taken, may_vanish_stored, taken_sum};
