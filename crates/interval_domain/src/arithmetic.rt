//! Unions, sums, differences and products of intervals.
ghost use Rattle.std.specs.Prelude.{◌≡◌, ◌≤ℤ◌, ◌*ℤ◌};
ghost use Rattle.interval_domain.specs.Bounds.{IsSmall, IsInterval, IsLeast};
ghost use Rattle.interval_domain.specs.Results.{IsOfEither, IsSum, IsDifference, IsProduct, AreSmall};
ghost use Rattle.interval_domain.specs.Corners.{span, joined};

use super::bounds::Interval;

// The interval from the lesser to the greater of two numbers.
pub(crate) fn between(x: i128, y: i128) -> Interval
    ensures value { result ≡ span x y }
    ensures ordered { result.low ≤ℤ result.high }
{
    Interval {
        low: x.min(y),
        high: x.max(y),
    }
}

fn times(x: i128, y: i128) -> i128
    requires { IsSmall (x *ℤ y) }
    ensures { result ≡ x *ℤ y }
{
    x * y
}

/// The least interval that holds the numbers of both.
pub fn hull(a: Interval, b: Interval) -> Interval
    requires a { a.low ≤ℤ a.high }
    requires b { b.low ≤ℤ b.high }
    ensures least { IsLeast (IsOfEither a b) result }
    ensures ends { result ≡ joined a b }
    ensures ordered { result.low ≤ℤ result.high }
{
    Interval {
        low: a.low.min(b.low),
        high: a.high.max(b.high),
    }
}

/// The least interval that holds each sum of a number of `a` and one of `b`.
pub fn add_i(a: Interval, b: Interval) -> Interval
    requires a { IsInterval a }
    requires b { IsInterval b }
    requires results { AreSmall (IsSum a b) }
    ensures { IsLeast (IsSum a b) result }
{
    Interval {
        low: a.low + b.low,
        high: a.high + b.high,
    }
}

/// The least interval that holds each difference of a number of `a` and one of `b`.
pub fn sub_i(a: Interval, b: Interval) -> Interval
    requires a { IsInterval a }
    requires b { IsInterval b }
    requires results { AreSmall (IsDifference a b) }
    ensures { IsLeast (IsDifference a b) result }
{
    Interval {
        low: a.low - b.high,
        high: a.high - b.low,
    }
}

// the products of the low end
fn low_products(a: Interval, b: Interval) -> Interval
    requires low { IsSmall (a.low *ℤ b.low) }
    requires high { IsSmall (a.low *ℤ b.high) }
    ensures value { result ≡ span (a.low *ℤ b.low) (a.low *ℤ b.high) }
    ensures ordered { result.low ≤ℤ result.high }
{
    between(times(a.low, b.low), times(a.low, b.high))
}

// the products of the high end
fn high_products(a: Interval, b: Interval) -> Interval
    requires low { IsSmall (a.high *ℤ b.low) }
    requires high { IsSmall (a.high *ℤ b.high) }
    ensures value { result ≡ span (a.high *ℤ b.low) (a.high *ℤ b.high) }
    ensures ordered { result.low ≤ℤ result.high }
{
    between(times(a.high, b.low), times(a.high, b.high))
}

/// The least interval that holds each product of a number of `a` and one of `b`.
pub fn mul_i(a: Interval, b: Interval) -> Interval
    requires a { IsInterval a }
    requires b { IsInterval b }
    requires results { AreSmall (IsProduct a b) }
    ensures { IsLeast (IsProduct a b) result }
{
    hull(low_products(a, b), high_products(a, b))
}
