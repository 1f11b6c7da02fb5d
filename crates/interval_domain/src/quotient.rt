//! Quotients of intervals.
ghost use Rattle.std.specs.Prelude.{◌≡◌, ◌↔◌, ◌≤ℤ◌, ◌≤◌, ◌^◌, pos, neg_ℤ, unsigned_abs, IfSome};
ghost use Rattle.interval_domain.specs.Bounds.{IsSmall, IsInterval};
ghost use Rattle.interval_domain.specs.Results.{IsQuotient, IsLeastCapped, capped};
ghost use Rattle.interval_domain.specs.Corners.{span, negated, above_zero, quotient, either_of};

use super::arithmetic::{between, hull};
use super::bounds::Interval;
use dec_num::{LIMIT, Mode, Quot, quot};

// No end of a quotient goes beyond 10^37.
const MOST: i128 = LIMIT;

#[derive(Clone, Copy)]
struct Scaling {
    up: i32,
    mode: Mode,
    ghost low: { neg_ℤ (pos 37) ≤ℤ up },
    ghost high: { up ≤ℤ pos 55 },
}

// n / d * 10^up, cut or rounded, and capped
fn end_of(n: i128, d: i128, scaling: Scaling) -> i128
    requires n { IsSmall n }
    requires d { IsSmall d }
    requires positive { pos 1 ≤ℤ d }
    ensures value { result ≡ capped (quotient scaling.up scaling.mode n d) }
    ensures bound { unsigned_abs result ≤ 10 ^ 37 }
{
    match quot(n, d, scaling.up, scaling.mode) {
        Quot::Is(q) => q,
        Quot::Over if n < 0 => -MOST,
        Quot::Over => MOST,
        Quot::ZeroDivisor => unreachable!(),
    }
}

// the quotients of the low end, where all divisors are above 0
fn low_quotients(n: Interval, d: Interval, scaling: Scaling) -> Interval
    requires n { IsInterval n }
    requires d { IsInterval d }
    requires positive { pos 1 ≤ℤ d.low }
    ensures value { result ≡ span (capped (quotient scaling.up scaling.mode n.low d.low)) (capped (quotient scaling.up scaling.mode n.low d.high)) }
    ensures ordered { result.low ≤ℤ result.high }
{
    between(
        end_of(n.low, d.low, scaling),
        end_of(n.low, d.high, scaling),
    )
}

// the quotients of the high end, where all divisors are above 0
fn high_quotients(n: Interval, d: Interval, scaling: Scaling) -> Interval
    requires n { IsInterval n }
    requires d { IsInterval d }
    requires positive { pos 1 ≤ℤ d.low }
    ensures value { result ≡ span (capped (quotient scaling.up scaling.mode n.high d.low)) (capped (quotient scaling.up scaling.mode n.high d.high)) }
    ensures ordered { result.low ≤ℤ result.high }
{
    between(
        end_of(n.high, d.low, scaling),
        end_of(n.high, d.high, scaling),
    )
}

// the quotients, where all divisors are above 0
fn over(n: Interval, d: Interval, scaling: Scaling) -> Interval
    requires n { IsInterval n }
    requires d { IsInterval d }
    requires positive { pos 1 ≤ℤ d.low }
    ensures ordered { result.low ≤ℤ result.high }
    ensures least { IsLeastCapped (IsQuotient n d scaling.up scaling.mode) result }
{
    hull(low_quotients(n, d, scaling), high_quotients(n, d, scaling))
}

fn without_zero(d: Interval) -> Interval
    requires d { IsInterval d }
    requires high { pos 1 ≤ℤ d.high }
    ensures value { result ≡ above_zero d }
    ensures small { IsInterval result }
    ensures positive { pos 1 ≤ℤ result.low }
{
    Interval {
        low: d.low.max(1),
        high: d.high,
    }
}

// the quotients by the divisors above 0, where there are any
fn over_positive(n: Interval, d: Interval, scaling: Scaling) -> Option<Interval>
    requires n { IsInterval n }
    requires d { IsInterval d }
    ensures none { (result ≡ None) ↔ (d.high ≤ℤ pos 0) }
    ensures ordered { IfSome result (λ i. i.low ≤ℤ i.high) }
    ensures least { IfSome result (λ i. IsLeastCapped (IsQuotient n (above_zero d) scaling.up scaling.mode) i) }
{
    if d.high < 1 {
        return None;
    }
    Some(over(n, without_zero(d), scaling))
}

// the interval that holds both, where there are two
fn either(a: Option<Interval>, b: Option<Interval>) -> Option<Interval>
    requires a { IfSome a (λ i. i.low ≤ℤ i.high) }
    requires b { IfSome b (λ i. i.low ≤ℤ i.high) }
    ensures value { result ≡ either_of a b }
    ensures ordered { IfSome result (λ i. i.low ≤ℤ i.high) }
{
    match (a, b) {
        (Some(a), Some(b)) => Some(hull(a, b)),
        (Some(a), None) => Some(a),
        (None, b) => b,
    }
}

fn negative(a: Interval) -> Interval
    requires { IsInterval a }
    ensures value { result ≡ negated a }
    ensures small { IsInterval result }
{
    Interval {
        low: -a.high,
        high: -a.low,
    }
}

/// The least interval that holds each `n * 10^up / d`, cut or rounded, of a number of `n` and a number
/// of `d` that isn't 0. An end that would reach `10^37` in absolute value is given as `10^37` with its
/// sign. None where `d` holds 0 alone.
pub fn quot_i(n: Interval, d: Interval, up: i32, mode: Mode) -> Option<Interval>
    requires n { IsInterval n }
    requires d { IsInterval d }
    requires up { (neg_ℤ (pos 37) ≤ℤ up) × (up ≤ℤ pos 55) }
    ensures none { (result ≡ None) ↔ ((d.low ≡ pos 0) × (d.high ≡ pos 0)) }
    ensures ordered { IfSome result (λ i. i.low ≤ℤ i.high) }
    ensures least { IfSome result (λ i. IsLeastCapped (IsQuotient n d up mode) i) }
{
    let scaling = Scaling { up, mode };
    let above = over_positive(n, d, scaling);
    let below = over_positive(negative(n), negative(d), scaling);
    either(above, below)
}
