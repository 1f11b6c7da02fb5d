//! What is known of a sum where it is taken for a statement: a quotient that is its last operation stays exact.
ghost use Rattle.std.specs.Prelude.{◌≡◌, true, option_map};
ghost use Rattle.cob_program.specs.SumView.{plain_sum};
ghost use Rattle.cob_program.specs.RootView.{plain_root};
ghost use Rattle.cob_program.specs.Bounds.{is_small_quotient, is_small_stored};
ghost use Rattle.sum_ranges.specs.Working.{AreBounded};
ghost use Rattle.sum_ranges.specs.Taking.{alone, root_range, taken_sum, is_small_taken};
ghost use Rattle.sum_ranges.specs.Vanishing.{may_vanish, may_vanish_in_root};

use crate::arithmetic::turned;
use crate::divisors::{may_be_zero, may_vanish, may_vanish_in_product};
use crate::ranged::{Ranged, Ranges};
use crate::sums::{atom_range, product_range, sum_range};
use cob_program::{Root, Sum};

/// The range of a sum, or with `under` those of what is divided and of what divides.
#[derive(Clone, Copy, PartialEq, Eq)]
pub struct Taken {
    pub top: Ranged,
    pub under: Option<Ranged>,
}

fn taken_quotient<R: Ranges>(ranges: &R, root: Root) -> Option<Taken>
    requires bounded { AreBounded (R.range_at ranges.now) (R.bound_at ranges.now) }
    requires small { is_small_quotient (R.bound_at ranges.now) (plain_root root) ≡ true }
    ensures { result ≡ root_range (R.range_at ranges.now) (plain_root root.entry) }
{
    match product_range(ranges, root.dividend) {
        None => None,
        Some(top) => match atom_range(ranges, &root.divisor.atom) {
            None => None,
            Some(under) => Some(Taken {
                top,
                under: Some(turned(root.divisor.minus, under)),
            }),
        },
    }
}

fn taken_alone(range: Option<Ranged>) -> Option<Taken>
    ensures { result ≡ option_map alone range }
{
    match range {
        None => None,
        Some(top) => Some(Taken { top, under: None }),
    }
}

// A sum whose whole is stored.
fn taken_whole<R: Ranges>(ranges: &R, sum: &Sum) -> Option<Taken>
    requires bounded { AreBounded (R.range_at ranges.now) (R.bound_at ranges.now) }
    requires small { is_small_stored (R.bound_at ranges.now) (plain_sum sum.now) ≡ true }
    ensures { result ≡ taken_sum (R.range_at ranges.now) true (plain_sum sum.now) }
{
    match sum.root() {
        Some(root) => taken_quotient(ranges, root),
        None => taken_alone(sum_range(ranges, sum)),
    }
}

/// What is known of a sum, whose whole is stored or not; nothing where a divisor in it is 0 alone.
pub fn taken_sum<R: Ranges>(ranges: &R, sum: &Sum, whole: bool) -> Option<Taken>
    requires bounded { AreBounded (R.range_at ranges.now) (R.bound_at ranges.now) }
    requires small { is_small_taken (R.bound_at ranges.now) whole (plain_sum sum.now) ≡ true }
    ensures { result ≡ taken_sum (R.range_at ranges.now) whole (plain_sum sum.now) }
{
    if whole {
        taken_whole(ranges, sum)
    } else {
        taken_alone(sum_range(ranges, sum))
    }
}

// Whether a divisor of a quotient may be 0, the last one among them.
fn quotient_may_vanish<R: Ranges>(ranges: &R, root: Root) -> bool
    requires bounded { AreBounded (R.range_at ranges.now) (R.bound_at ranges.now) }
    requires small { is_small_quotient (R.bound_at ranges.now) (plain_root root) ≡ true }
    ensures { result ≡ may_vanish_in_root (R.range_at ranges.now) (plain_root root.entry) }
{
    may_vanish_in_product(ranges, root.dividend) || may_be_zero(ranges, &root.divisor.atom)
}

/// Whether some divisor in a sum whose whole is stored may be 0. A quotient that is its last operation may be too great
/// for the arithmetic of intervals.
#[tactic(auto, using(crate::proofs::Roots::root_vanishes))]
pub fn may_vanish_stored<R: Ranges>(ranges: &R, sum: &Sum) -> bool
    requires bounded { AreBounded (R.range_at ranges.now) (R.bound_at ranges.now) }
    requires small { is_small_stored (R.bound_at ranges.now) (plain_sum sum.now) ≡ true }
    ensures { result ≡ may_vanish (R.range_at ranges.now) (plain_sum sum.now) }
{
    match sum.root() {
        Some(root) => quotient_may_vanish(ranges, root),
        None => may_vanish(ranges, sum),
    }
}
