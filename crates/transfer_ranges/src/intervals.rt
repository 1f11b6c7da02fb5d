//! Meetings and absolute values of intervals.
ghost use Rattle.std.specs.Prelude.{◌≡◌, ◌<◌, ◌≤◌, ◌^◌, ◌≤ℤ◌, pos, unsigned_abs, IfSome};
ghost use Rattle.interval_domain.specs.Bounds.{IsSmall};
ghost use Rattle.transfer_ranges.specs.Results.{IsInside};
ghost use Rattle.transfer_ranges.specs.ResultRanges.{if_any, meeting, plus_minus, greatest_size, absolutes, most};

use dec_num::pow10;
use interval_domain::Interval;

/// The numbers of `a` that lie between `limit` and its opposite.
pub(crate) fn within(a: Interval, limit: i128) -> Option<Interval>
    requires { unsigned_abs limit ≤ 10 ^ 37 }
    ensures value { result ≡ if_any (meeting a (plus_minus limit)) }
    ensures ordered { IfSome result (λ i. i.low ≤ℤ i.high) }
    ensures inside { IfSome result (λ i. IsInside i a) }
    ensures low { IfSome result (λ i. unsigned_abs i.low ≤ unsigned_abs limit) }
    ensures high { IfSome result (λ i. unsigned_abs i.high ≤ unsigned_abs limit) }
{
    let low = a.low.max(-limit);
    let high = a.high.min(limit);
    if low <= high {
        Some(Interval { low, high })
    } else {
        None
    }
}

/// The greatest absolute value.
pub(crate) fn greatest_size(a: Interval) -> i128
    requires { IsSmall a.low }
    ensures value { result ≡ greatest_size a }
    ensures positive { a.low ≤ℤ a.high → pos 0 ≤ℤ result }
{
    (-a.low).max(a.high)
}

/// The least interval of the absolute values.
pub(crate) fn absolutes(a: Interval) -> Interval
    requires low { IsSmall a.low }
    requires high { IsSmall a.high }
    ensures { result ≡ absolutes a }
{
    Interval {
        low: a.low.max(-a.high).max(0),
        high: greatest_size(a),
    }
}

/// The greatest number of so many digits.
pub(crate) fn most(digits: u32) -> i128
    requires { digits ≤ 18 }
    ensures value { result ≡ most digits }
    ensures small { unsigned_abs result < 10 ^ 18 }
{
    pow10(digits) - 1
}
