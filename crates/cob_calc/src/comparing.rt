//! Comparisons of numbers (ISO 1989:1985, "Comparison of numeric operands").
ghost use Rattle.std.specs.Prelude.{◌≡◌, ◌-ℤ◌, true};
ghost use Rattle.cob_program.specs.SumView.{plain_sum};
ghost use Rattle.cob_program.specs.Bounds.{is_small_sides};
ghost use Rattle.cob_runs.specs.Computing.{items_in};
ghost use Rattle.cob_runs.specs.Deciding.{holds, order_of, number_order, decided, compared_numbers};
ghost use Rattle.cob_calc.specs.Contents.{IsWellFormed, bound_at};
ghost use Rattle.cob_calc.specs.Arithmetic.{are_numbers};
ghost use Rattle.cob_calc.specs.Comparing.{plain_order, CanCompare, AreComparable};

use crate::contents::Contents;
use cob_program::Sum;
use cob_tree::{Kind, Rel};
use dec_num::{Scaled, align};
use std::cmp::Ordering;

/// Whether a relation holds of two sides in this order.
pub fn holds(rel: Rel, order: Ordering) -> bool
    ensures { result ≡ holds rel (plain_order order) }
{
    match (rel, order) {
        (Rel::Equal, Ordering::Equal) => true,
        (Rel::Less, Ordering::Less) => true,
        (Rel::Greater, Ordering::Greater) => true,
        (Rel::AtLeast, Ordering::Equal | Ordering::Greater) => true,
        (Rel::AtMost, Ordering::Equal | Ordering::Less) => true,
        _ => false,
    }
}

fn units_order(a: i128, b: i128) -> Ordering
    ensures { plain_order result ≡ order_of (a -ℤ b) }
{
    if a < b {
        Ordering::Less
    } else if a == b {
        Ordering::Equal
    } else {
        Ordering::Greater
    }
}

/// The order of two numbers.
pub fn number_order(a: Scaled, b: Scaled) -> Ordering
    requires { CanCompare a b }
    ensures { plain_order result ≡ number_order a b }
{
    let joint = a.scale.max(b.scale);
    let left = align(a, joint);
    let right = align(b, joint);
    units_order(left.units, right.units)
}

impl<'a> Contents<'a> {
    // two sides whose items are numeric
    fn decide(&self, left: Option<Scaled>, rel: Rel, right: Option<Scaled>) -> Result<bool, Kind>
        requires { AreComparable left right }
        ensures { result ≡ decided self.now.layout self.now.storage rel left right }
    {
        match left {
            None => Err(Kind::Zero),
            Some(a) => match right {
                None => Err(Kind::Zero),
                Some(b) => Ok(holds(rel, number_order(a, b))),
            },
        }
    }

    /// Compares two sums. Both sides are read before a divisor counts.
    pub fn compare_sums(&self, left: &Sum, rel: Rel, right: &Sum) -> Result<bool, Kind>
        requires sound { IsWellFormed self.now }
        requires left { are_numbers self.now.layout (items_in (plain_sum left.now)) ≡ true }
        requires right { are_numbers self.now.layout (items_in (plain_sum right.now)) ≡ true }
        requires small { is_small_sides (bound_at self.now.layout) (plain_sum left.now) (plain_sum right.now) ≡ true }
        ensures { result ≡ compared_numbers self.now.layout self.now.storage (plain_sum left.now) rel
            (plain_sum right.now) }
    {
        match self.total(left) {
            None => Err(Kind::Class),
            Some(a) => match self.total(right) {
                None => Err(Kind::Class),
                Some(b) => self.decide(a, rel, b),
            },
        }
    }
}
