//! What orders leave of a range beside another one.
ghost use Rattle.std.specs.Prelude.{◌≡◌, ◌≤◌, ◌-◌, ◌^◌, ◌↔◌, ℤ, ℕ, true, pos, ◌+ℤ◌, ◌*ℤ◌, ◌≤ℤ◌, unsigned_abs, if◌then◌else◌, None};
ghost use Rattle.interval_domain.specs.Bounds.{Holds, IsInterval};
ghost use Rattle.interval_domain.specs.Corners.{either_of, joined};
ghost use Rattle.sum_ranges.specs.SumRanges.{raised};
ghost use Rattle.transfer_ranges.specs.Kept.{met, IsLeastIfAny};
ghost use Rattle.transfer_ranges.specs.Beside.{IsBeside, CanRelate, is_below, is_equal, is_above, allows, if_any, common, under, over};

use dec_num::{LIMIT, pow10};
use interval_domain::Interval;
use sum_ranges::{Ranged, raised};

// No number that is compared reaches 10^37.
const MOST: i128 = LIMIT;

/// The orders of two numbers that are asked for.
#[derive(Clone, Copy)]
pub struct Orders {
    pub below: bool,
    pub equal: bool,
    pub above: bool,
}

fn if_any(a: Interval) -> Option<Interval>
    ensures { result ≡ if_any a }
{
    if a.low <= a.high { Some(a) } else { None }
}

fn common(a: Interval, b: Interval) -> Interval
    ensures { result ≡ common a b }
{
    Interval {
        low: a.low.max(b.low),
        high: a.high.min(b.high),
    }
}

/// The numbers of both.
pub fn met(a: Interval, b: Interval) -> Option<Interval>
    ensures { result ≡ met a b }
{
    if_any(common(a, b))
}

fn joined(a: Interval, b: Interval) -> Interval
    ensures { result ≡ joined a b }
{
    Interval {
        low: a.low.min(b.low),
        high: a.high.max(b.high),
    }
}

/// The interval that holds both, where there are two.
pub fn either(a: Option<Interval>, b: Option<Interval>) -> Option<Interval>
    ensures { result ≡ either_of a b }
{
    match (a, b) {
        (Some(a), Some(b)) => Some(joined(a, b)),
        (Some(a), None) => Some(a),
        (None, b) => b,
    }
}

fn chosen(wanted: bool, part: Option<Interval>) -> Option<Interval>
    ensures { result ≡ (if wanted then part else None) }
{
    if wanted { part } else { None }
}

fn under(a: Interval) -> Interval
    requires { IsInterval a }
    ensures { result ≡ under a }
{
    Interval {
        low: -MOST,
        high: a.high - 1,
    }
}

fn over(a: Interval) -> Interval
    requires { IsInterval a }
    ensures { result ≡ over a }
{
    Interval {
        low: a.low + 1,
        high: MOST,
    }
}

// x / by, cut downwards
#[tactic(auto, using(crate::proofs::Division::division))]
fn floor(x: i128, by: i128) -> i128
    requires x { unsigned_abs x ≤ 10 ^ 38 }
    requires by { pos 1 ≤ℤ by }
    ensures low { (result *ℤ by) ≤ℤ x }
    ensures next { (x +ℤ pos 1) ≤ℤ ((result +ℤ pos 1) *ℤ by) }
    ensures size { unsigned_abs result ≤ unsigned_abs x }
{
    x.div_euclid(by)
}

// The numbers whose multiples lie in an interval.
fn divided(a: Interval, by: i128) -> Interval
    requires low { unsigned_abs a.low ≤ 10 ^ 37 }
    requires high { unsigned_abs a.high ≤ 10 ^ 37 }
    requires by { pos 1 ≤ℤ by }
    ensures { (k : ℤ) → Holds result k ↔ Holds a (k *ℤ by) }
{
    Interval {
        low: floor(a.low - 1, by) + 1,
        high: floor(a.high, by),
    }
}

// The numbers of a scale that lie in an interval of units of a greater one.
fn at_scale(a: Interval, scale: u32, own: u32) -> Interval
    requires low { unsigned_abs a.low ≤ 10 ^ 37 }
    requires high { unsigned_abs a.high ≤ 10 ^ 37 }
    requires own { own ≤ scale }
    requires scale { scale ≤ 37 }
    ensures { (k : ℤ) → Holds result k ↔ Holds a (k *ℤ pos (10 ^ (scale - own))) }
{
    divided(a, pow10(scale - own))
}

// The numbers of a below some number of b.
fn below_part(a: Ranged, b: Ranged) -> Option<Interval>
    requires { CanRelate a b }
    ensures { IsLeastIfAny (IsBeside is_below a b) result }
{
    let scale = a.scale.max(b.scale);
    let below = at_scale(under(raised(b, scale)), scale, a.scale);
    if_any(common(a.units, below))
}

// The numbers of a above some number of b.
fn above_part(a: Ranged, b: Ranged) -> Option<Interval>
    requires { CanRelate a b }
    ensures { IsLeastIfAny (IsBeside is_above a b) result }
{
    let scale = a.scale.max(b.scale);
    let above = at_scale(over(raised(b, scale)), scale, a.scale);
    if_any(common(a.units, above))
}

// The multiples of a power of ten.
fn multiples(a: Ranged, scale: u32, whole: Interval) -> Option<Interval>
    requires whole { IsInterval whole }
    requires within { (k : ℤ) → Holds a.units k → Holds whole (k *ℤ pos (10 ^ (scale - a.scale))) }
    requires own { a.scale ≤ scale }
    requires scale { scale ≤ 37 }
    ensures { IsLeastIfAny (λ z. (k : ℤ) × Holds a.units k × (z ≡ k *ℤ pos (10 ^ (scale - a.scale)))) result }
{
    if a.units.low <= a.units.high {
        Some(raised(a, scale))
    } else {
        None
    }
}

// The numbers of a that equal some number of b: one of the two scales is the greater one, so that such a number is a
// multiple of both.
fn equal_part(a: Ranged, b: Ranged) -> Option<Interval>
    requires { CanRelate a b }
    ensures { IsLeastIfAny (IsBeside is_equal a b) result }
{
    let scale = a.scale.max(b.scale);
    let units = common(
        at_scale(a.units, scale, b.scale),
        at_scale(b.units, scale, a.scale),
    );
    multiples(
        Ranged {
            units,
            scale: b.scale,
        },
        scale,
        a.units,
    )
}

/// The least interval of the numbers of `a` to which some number of `b` stands in one of the orders.
pub fn beside(orders: Orders, a: Ranged, b: Ranged) -> Option<Interval>
    requires { CanRelate a b }
    ensures { IsLeastIfAny (IsBeside (allows orders) a b) result }
{
    either(
        chosen(orders.below, below_part(a, b)),
        either(
            chosen(orders.equal, equal_part(a, b)),
            chosen(orders.above, above_part(a, b)),
        ),
    )
}
