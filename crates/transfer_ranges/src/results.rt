//! Results of stores.
ghost use Rattle.std.specs.Prelude.{◌≡◌, ◌≤◌, ◌≤ℤ◌};
ghost use Rattle.interval_domain.specs.Bounds.{IsSmall};
ghost use Rattle.transfer_ranges.specs.Operands.{computed_range};
ghost use Rattle.transfer_ranges.specs.ResultRanges.{fitted, exceeds, result_range, may_fail, lowered, count_range, count_may_fail};
ghost use Rattle.transfer_ranges.specs.Sizes.{IsReceiver, IsSmallAmount, CanCompute};

use crate::amounts::{AmountRange, Receiver, Taken};
use crate::arithmetic::product_range;
use crate::intervals::{absolutes, most, within};
use crate::units::amount_units;
use cob_program::How;
use dec_num::Mode;
use interval_domain::Interval;
use sum_ranges::{Ranged, plus_range, turned};

/// What a store may do: the units that the receiver holds behind it where a result fits, if some may, and whether one
/// may not fit.
#[derive(Clone, Copy, PartialEq, Eq)]
pub struct Stored {
    pub units: Option<Interval>,
    pub may_fail: bool,
}

/// What a receiver is to get, which is itself worth a number of `own`.
pub fn computed_range(how: How, own: Ranged, taken: Taken) -> AmountRange
    requires { CanCompute how own taken }
    ensures { result ≡ computed_range how own taken }
{
    match how {
        How::Whole => match taken.under {
            None => AmountRange::Decimal(taken.top),
            Some(under) => AmountRange::Quotient {
                top: taken.top,
                under,
            },
        },
        How::Plus => AmountRange::Decimal(plus_range(own, taken.top)),
        How::Minus => AmountRange::Decimal(plus_range(own, turned(true, taken.top))),
        How::Times => AmountRange::Decimal(product_range(own, taken.top)),
        How::Under => AmountRange::Quotient {
            top: own,
            under: taken.top,
        },
    }
}

/// What a receiver holds behind a store of some number of the interval; nothing where none fits.
pub fn fitted(receiver: Receiver, units: Interval) -> Option<Interval>
    requires { receiver.digits ≤ 18 }
    ensures { result ≡ fitted receiver units }
{
    match within(units, most(receiver.digits)) {
        None => None,
        Some(held) if receiver.signed => Some(held),
        Some(held) => Some(absolutes(held)),
    }
}

/// Whether some number of the interval has more digits.
pub fn exceeds(digits: u32, units: Interval) -> bool
    requires { digits ≤ 18 }
    ensures { result ≡ exceeds digits units }
{
    let most = most(digits);
    units.low < -most || most < units.high
}

/// What a store of such an amount may do. A decimal is cut or rounded at the receiver's scale, and so is a quotient, once.
#[tactic(auto, using(crate::proofs::Capping::stores))]
pub fn result_range(amount: AmountRange, receiver: Receiver, mode: Mode) -> Stored
    requires receiver { IsReceiver receiver }
    requires small { IsSmallAmount amount }
    ensures units { result.units ≡ result_range mode receiver amount }
    ensures may_fail { result.may_fail ≡ may_fail mode receiver amount }
{
    match amount_units(amount, receiver, mode) {
        None => Stored {
            units: None,
            may_fail: false,
        },
        Some(units) => Stored {
            units: fitted(receiver, units),
            may_fail: exceeds(receiver.digits, units),
        },
    }
}

/// What the counter of a TIMES may become by such a number.
pub fn counted(units: Interval) -> Stored
    ensures units { result.units ≡ count_range units }
    ensures may_fail { result.may_fail ≡ count_may_fail units }
{
    let counter = Receiver {
        digits: 18,
        scale: 0,
        signed: true,
    };
    Stored {
        units: fitted(counter, units),
        may_fail: exceeds(counter.digits, units),
    }
}

/// The numbers of a counter less one.
pub fn lowered(count: Interval) -> Interval
    requires low { IsSmall count.low }
    requires high { IsSmall count.high }
    ensures { result ≡ lowered count }
{
    Interval {
        low: count.low - 1,
        high: count.high - 1,
    }
}
