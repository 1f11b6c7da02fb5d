//! Amounts in units of a receiver.
ghost use Rattle.std.specs.Prelude.{◌≡◌, ◌≤ℤ◌, true, ◌+◌, ◌-◌, ◌<◌, ◌≤◌, ◌^◌, pos, ◌-ℤ◌, ◌*ℤ◌, unsigned_abs, IfSome};
ghost use Rattle.std.specs.Int.{int_min};
ghost use Rattle.dec_num.specs.declared.types.Mode.TheVariants.{Trunc};
ghost use Rattle.dec_num.specs.Exact.{near};
ghost use Rattle.dec_num.specs.Scaled.{value_of};
ghost use Rattle.sum_ranges.specs.SumRanges.{turned, plus_range, product_range};
ghost use Rattle.sum_ranges.specs.Sizes.{IsSmallRange};
ghost use Rattle.transfer_ranges.specs.ResultRanges.{greatest_size, near_range, quotient_units, limited, rest_range, amount_units};
ghost use Rattle.transfer_ranges.specs.Sizes.{IsReceiver, IsSmallRest, IsSmallRemainder, IsSmallAmount, capped_at, IsCapped, IsCappedIfAny, IsSameFor};

use crate::amounts::{AmountRange, Receiver};
use crate::arithmetic::product_range;
use crate::intervals::{greatest_size, within};
use dec_num::{Fit, Mode, Scaled, fit, pow10};
use interval_domain::{Interval, quot_i};
use sum_ranges::{Ranged, plus_range, turned};

// An end in units of a receiver. One that it has no room for becomes the first such number on that side.
#[tactic(auto, using(crate::proofs::Capping::ends))]
fn end_of(end: Scaled, receiver: Receiver, mode: Mode) -> i128
    requires receiver { IsReceiver receiver }
    requires scale { end.scale ≤ 37 }
    requires units { unsigned_abs end.units < 10 ^ 37 }
    ensures { result ≡ capped_at (10 ^ receiver.digits) (near mode (value_of end) (pos receiver.scale)) }
{
    match fit(end, receiver.digits, receiver.scale, mode) {
        Fit::Stored(units) => units as i128,
        Fit::TooBig if end.units < 0 => -pow10(receiver.digits),
        Fit::TooBig => pow10(receiver.digits),
    }
}

// decimals, cut or rounded at both ends
fn near_range(r: Ranged, receiver: Receiver, mode: Mode) -> Interval
    requires receiver { IsReceiver receiver }
    requires small { IsSmallRange r }
    ensures { IsCapped (10 ^ receiver.digits) (near_range mode receiver.scale r) result }
{
    let low = Scaled {
        units: r.units.low,
        scale: r.scale,
    };
    let high = Scaled {
        units: r.units.high,
        scale: r.scale,
    };
    Interval {
        low: end_of(low, receiver, mode),
        high: end_of(high, receiver, mode),
    }
}

// how many decimals quotients have beyond those of their units
fn shift(top: Ranged, under: Ranged, scale: u32) -> i32
    requires top { top.scale ≤ 37 }
    requires under { under.scale ≤ 37 }
    requires scale { scale ≤ 18 }
    ensures { result ≡ pos (scale + under.scale) -ℤ pos top.scale }
{
    (scale + under.scale) as i32 - top.scale as i32
}

// quotients at a scale, cut or rounded once
fn quotient_units(top: Ranged, under: Ranged, scale: u32, mode: Mode) -> Option<Interval>
    requires top { IsSmallRange top }
    requires under { IsSmallRange under }
    requires scale { scale ≤ 18 }
    ensures { IsCappedIfAny (10 ^ 37) (quotient_units mode scale top under) result }
{
    let up = shift(top, under, scale);
    quot_i(top.units, under.units, up, mode)
}

// So many units of a scale, in units of one with more decimals; at most 10^37.
fn limit_of(size: i128, shift: u32) -> i128
    requires size { pos 0 ≤ℤ size }
    requires shift { shift ≤ 37 }
    ensures { result ≡ int_min (size *ℤ pos (10 ^ shift)) (pos (10 ^ 37)) }
{
    let most = pow10(37);
    match size.checked_mul(pow10(shift)) {
        Some(limit) => limit.min(most),
        None => most,
    }
}

// the numbers of a range below so many units of a scale, and above as many negated
fn limited(size: i128, scale: u32, r: Ranged) -> Option<Ranged>
    requires size { pos 0 ≤ℤ size }
    requires scale { scale ≤ r.scale }
    requires small { IsSmallRange r }
    ensures value { result ≡ limited size scale r }
    ensures small { IfSome result IsSmallRange }
{
    let limit = limit_of(size, r.scale - scale);
    match within(r.units, limit - 1) {
        None => None,
        Some(units) => Some(Ranged {
            units,
            scale: r.scale,
        }),
    }
}

// what quotients of a range leave
fn rest(top: Ranged, under: Ranged, quotient: Ranged) -> Option<Ranged>
    requires { IsSmallRest top under quotient }
    ensures value { result ≡ limited (greatest_size under.units) (under.scale + quotient.scale) (plus_range top (turned true (product_range under quotient))) }
    ensures small { IfSome result IsSmallRange }
{
    let difference = plus_range(top, turned(true, product_range(under, quotient)));
    limited(
        greatest_size(under.units),
        under.scale + quotient.scale,
        difference,
    )
}

// remainders of quotients that are cut at a scale
fn rest_range(top: Ranged, under: Ranged, scale: u32) -> Option<Ranged>
    requires { IsSmallRemainder top under scale }
    ensures value { result ≡ rest_range scale top under }
    ensures small { IfSome result IsSmallRange }
{
    match quotient_units(top, under, scale, Mode::Trunc) {
        None => None,
        Some(units) => rest(top, under, Ranged { units, scale }),
    }
}

/// The units of an amount, with ends beyond the receiver's digits capped; nothing where each divisor is 0.
pub(crate) fn amount_units(amount: AmountRange, receiver: Receiver, mode: Mode) -> Option<Interval>
    requires receiver { IsReceiver receiver }
    requires small { IsSmallAmount amount }
    ensures { IsSameFor receiver.digits (amount_units mode receiver.scale amount) result }
{
    match amount {
        AmountRange::Decimal(r) => Some(near_range(r, receiver, mode)),
        AmountRange::Quotient { top, under } => { quotient_units(top, under, receiver.scale, mode) }
        AmountRange::Remainder { top, under, scale } => {
            match rest_range(top, under, scale) {
                None => None,
                Some(r) => Some(near_range(r, receiver, mode)),
            }
        }
    }
}
