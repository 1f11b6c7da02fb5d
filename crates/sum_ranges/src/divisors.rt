//! Whether a divisor in a sum may be 0.
ghost use Rattle.std.specs.Prelude.{◌≡◌, true, map};
ghost use Rattle.cob_program.specs.Sum.{parts_of, factors_of};
ghost use Rattle.cob_program.specs.SumView.{plain_sum, plain_part, plain_factor, plain_atom};
ghost use Rattle.cob_program.specs.Bounds.{exactly, is_small_sum, is_small_sum_from, is_small_part, is_small_product, is_small_atom};
ghost use Rattle.sum_ranges.specs.SumRanges.{atom_range};
ghost use Rattle.sum_ranges.specs.Vanishing.{holds_zero, may_vanish, may_vanish_in_parts, may_vanish_in_part, may_vanish_in_product, may_vanish_in_atom, may_be_zero};
ghost use Rattle.sum_ranges.specs.Working.{AreBounded, operand, may_vanish_in_factor};

use crate::ranged::{Ranged, Ranges};
use crate::sums::atom_range;
use cob_program::{Atom, Factor, Part, Sum};

// Whether a divisor's range holds 0. Where there is none, a divisor in it is asked on its own.
fn holds_zero(range: Option<Ranged>) -> bool
    ensures { result ≡ holds_zero range }
{
    match range {
        None => false,
        Some(range) => range.units.low <= 0 && 0 <= range.units.high,
    }
}

#[cycle(divisors)]
fn may_vanish_in_atom<R: Ranges>(ranges: &R, atom: &Atom) -> bool
    requires bounded { AreBounded (R.range_at ranges.now) (R.bound_at ranges.now) }
    requires small { is_small_atom (R.bound_at ranges.now) (plain_atom atom.now) ≡ true }
    ensures { result ≡ may_vanish_in_atom (R.range_at ranges.now) (plain_atom atom.now) }
{
    match atom {
        Atom::Item(_) | Atom::Number(_) => false,
        Atom::Group(sum) => may_vanish(ranges, sum),
    }
}

#[cycle(divisors)]
fn may_vanish_in_factor<R: Ranges>(ranges: &R, factor: &Factor) -> bool
    requires bounded { AreBounded (R.range_at ranges.now) (R.bound_at ranges.now) }
    requires small { is_small_atom (R.bound_at ranges.now) (operand (plain_factor factor.now)) ≡ true }
    ensures { result ≡ may_vanish_in_factor (R.range_at ranges.now) (plain_factor factor.now) }
{
    may_vanish_in_atom(ranges, &factor.atom)
        || factor.over && holds_zero(atom_range(ranges, &factor.atom))
}

/// Whether some divisor in a product may be 0.
#[cycle(divisors)]
pub fn may_vanish_in_product<R: Ranges>(ranges: &R, factors: &[Factor]) -> bool
    requires bounded { AreBounded (R.range_at ranges.now) (R.bound_at ranges.now) }
    requires small { is_small_product (R.bound_at ranges.now) (exactly 1) (factors_of
        (map plain_factor factors.now)) ≡ true }
    ensures { result ≡ may_vanish_in_product (R.range_at ranges.now) (factors_of (map plain_factor factors.now)) }
{
    for factor in factors {
        if may_vanish_in_factor(ranges, factor) {
            return true;
        }
    }
    false
}

#[cycle(divisors)]
fn may_vanish_in_part<R: Ranges>(ranges: &R, part: &Part) -> bool
    requires bounded { AreBounded (R.range_at ranges.now) (R.bound_at ranges.now) }
    requires small { is_small_part (R.bound_at ranges.now) (plain_part part.now) ≡ true }
    ensures { result ≡ may_vanish_in_part (R.range_at ranges.now) (plain_part part.now) }
{
    may_vanish_in_product(ranges, &part.factors)
}

/// Whether some divisor in the products of a sum may be 0.
#[cycle(divisors)]
pub fn may_vanish_in_parts<R: Ranges>(ranges: &R, parts: &[Part]) -> bool
    requires bounded { AreBounded (R.range_at ranges.now) (R.bound_at ranges.now) }
    requires small { is_small_sum_from (R.bound_at ranges.now) (exactly 0) (parts_of
        (map plain_part parts.now)) ≡ true }
    ensures { result ≡ may_vanish_in_parts (R.range_at ranges.now) (parts_of (map plain_part parts.now)) }
{
    for part in parts {
        if may_vanish_in_part(ranges, part) {
            return true;
        }
    }
    false
}

/// Whether some divisor in a sum may be 0, those in groups among them.
#[cycle(divisors)]
pub fn may_vanish<R: Ranges>(ranges: &R, sum: &Sum) -> bool
    requires bounded { AreBounded (R.range_at ranges.now) (R.bound_at ranges.now) }
    requires small { is_small_sum (R.bound_at ranges.now) (plain_sum sum.now) ≡ true }
    ensures { result ≡ may_vanish (R.range_at ranges.now) (plain_sum sum.now) }
{
    may_vanish_in_parts(ranges, &sum.parts)
}

/// Whether a divisor may be 0, or one that stands in it.
pub fn may_be_zero<R: Ranges>(ranges: &R, divisor: &Atom) -> bool
    requires bounded { AreBounded (R.range_at ranges.now) (R.bound_at ranges.now) }
    requires small { is_small_atom (R.bound_at ranges.now) (plain_atom divisor.now) ≡ true }
    ensures { result ≡ may_be_zero (R.range_at ranges.now) (plain_atom divisor.now) }
{
    may_vanish_in_atom(ranges, divisor) || holds_zero(atom_range(ranges, divisor))
}
