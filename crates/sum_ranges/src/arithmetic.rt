//! Ranges of what operations give.
ghost use Rattle.std.specs.Prelude.{◌≡◌, ◌⊎◌, ◌<◌, ◌≤◌, ◌+◌, ◌-◌, ◌^◌, ◌≢◌, true, false, pos, ◌*ℤ◌, Some, None, ◌↔◌};
ghost use Rattle.interval_domain.specs.Bounds.{IsSmall, IsInterval};
ghost use Rattle.cob_program.specs.Values.{quotient_scale};
ghost use Rattle.interval_domain.specs.Corners.{negated};
ghost use Rattle.sum_ranges.specs.Ranged.{decimal, ranged, point};
ghost use Rattle.sum_ranges.specs.SumRanges.{turned, raised, joint, shift, quotients, plus_range, product_range, quotient_range, factor_range};
ghost use Rattle.sum_ranges.specs.Sizes.{IsSmallRange};
ghost use Rattle.sum_ranges.specs.Working.{CanAddRanges, CanMultiplyRanges, CanDivideRanges, CanScaleRange};

use crate::ranged::Ranged;
use dec_num::{Mode, pow10};
use interval_domain::{Interval, add_i, mul_i, quot_i};

/// So many units of a scale alone.
pub fn point(units: i128, scale: u32) -> Ranged
    ensures { result ≡ point (decimal units scale) }
{
    Ranged {
        units: Interval {
            low: units,
            high: units,
        },
        scale,
    }
}

fn negative(a: Interval) -> Interval
    requires { IsInterval a }
    ensures { result ≡ negated a }
{
    Interval {
        low: -a.high,
        high: -a.low,
    }
}

/// The numbers of a range, with the other sign where `minus` says so.
pub fn turned(minus: bool, a: Ranged) -> Ranged
    requires { IsSmallRange a }
    ensures { result ≡ turned minus a }
{
    if minus {
        Ranged {
            units: negative(a.units),
            scale: a.scale,
        }
    } else {
        a
    }
}

/// The units of a range at a scale that isn't below its own.
pub fn raised(a: Ranged, scale: u32) -> Interval
    requires above { a.scale ≤ scale }
    requires scale { scale ≤ 37 }
    requires low { IsSmall (raised a scale).low }
    requires high { IsSmall (raised a scale).high }
    ensures { result ≡ raised a scale }
{
    let by = pow10(scale - a.scale);
    Interval {
        low: a.units.low * by,
        high: a.units.high * by,
    }
}

/// The range of the sums.
pub fn plus_range(a: Ranged, b: Ranged) -> Ranged
    requires { CanAddRanges a b }
    ensures { result ≡ plus_range a b }
{
    let scale = a.scale.max(b.scale);
    Ranged {
        units: add_i(raised(a, scale), raised(b, scale)),
        scale,
    }
}

/// The range of the products.
pub fn product_range(a: Ranged, b: Ranged) -> Ranged
    requires { CanMultiplyRanges a b }
    ensures { result ≡ product_range a b }
{
    Ranged {
        units: mul_i(a.units, b.units),
        scale: a.scale + b.scale,
    }
}

// Whether 0 is the only number.
fn is_zero(a: Interval) -> bool
    ensures zero { result ≡ true → (a.low ≡ pos 0) × (a.high ≡ pos 0) }
    ensures other { result ≡ false → (a.low ≢ pos 0) ⊎ (a.high ≢ pos 0) }
{
    a.low == 0 && a.high == 0
}

// The units of the quotients, cut at a scale.
fn quotients(a: Ranged, b: Ranged, scale: u32) -> Option<Interval>
    requires can { CanDivideRanges a b }
    requires scale { scale ≡ quotient_scale a.scale b.scale }
    ensures { result ≡ quotients (pos (shift a b)) a.units b.units }
{
    if is_zero(b.units) {
        return None;
    }
    if is_zero(a.units) {
        return Some(a.units);
    }
    quot_i(
        a.units,
        b.units,
        (scale + b.scale - a.scale) as i32,
        Mode::Trunc,
    )
}

/// The range of the quotients, cut at their scale; nothing where the divisor is 0 alone.
pub fn quotient_range(a: Ranged, b: Ranged) -> Option<Ranged>
    requires { CanDivideRanges a b }
    ensures { result ≡ quotient_range a b }
{
    let scale = 6.max(a.scale.max(b.scale));
    match quotients(a, b, scale) {
        None => None,
        Some(units) => Some(Ranged { units, scale }),
    }
}

/// The range of what a product is with one factor more.
pub fn factor_range(over: bool, a: Ranged, b: Ranged) -> Option<Ranged>
    requires { CanScaleRange over a b }
    ensures { result ≡ factor_range over a b }
{
    if over {
        quotient_range(a, b)
    } else {
        Some(product_range(a, b))
    }
}
