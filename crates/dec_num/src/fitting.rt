//! A number brought to a receiver's scale and digits.
ghost use Rattle.std.specs.Prelude.{◌≡◌, ◌+◌, ◌*◌, ◌^◌, ◌<◌, ◌≤◌, pos, unsigned_abs, ◌↔◌};
ghost use Rattle.std.specs.Option.{SomeIff};
ghost use Rattle.dec_num.specs.Exact.{near, rounded, IsNearSize};
ghost use Rattle.dec_num.specs.Scaled.{value_of};
ghost use Rattle.dec_num.specs.Fit.{IfStored, MatchFit};

use super::rounding::{finished, signed};
use super::tens::ten;
use super::types::{Fit, Mode, Scaled};

// size / 10^from in units of the scale `to`, cut or rounded
#[tactic(auto, using(crate::proofs::Near::rescaling))]
fn rescaled(size: u128, from: u32, to: u32, mode: Mode) -> u128
    requires size { size < 10 ^ 37 }
    requires raised { from ≤ to → size < 10 ^ 18 }
    requires from { from ≤ 37 }
    requires to { to ≤ 18 }
    ensures { result ≡ rounded mode (size * 10 ^ to) (10 ^ from) }
{
    if from <= to {
        return size * ten(to - from);
    }
    let bottom = ten(from - to);
    finished(size / bottom, size % bottom, bottom, mode)
}

// The number, if it has at most that many digits.
#[tactic(auto, using(crate::proofs::Near::raising))]
fn fitted_size(size: u128, from: u32, to: u32, digits: u32, mode: Mode) -> Option<u128>
    requires size { size < 10 ^ 37 }
    requires from { from ≤ 37 }
    requires to { to ≤ digits }
    requires digits { digits ≤ 18 }
    ensures { let moved = rounded mode (size * 10 ^ to) (10 ^ from) in
        SomeIff result (moved < 10 ^ digits) moved }
{
    let limit = ten(digits);
    if from <= to && limit <= size {
        return None;
    }
    let moved = rescaled(size, from, to, mode);
    if moved < limit { Some(moved) } else { None }
}

/// The value in units of the scale, cut or rounded, for a receiver of that many digits. The sign
/// stays; that an unsigned receiver takes the absolute value is the caller's matter.
#[tactic(auto, using(crate::proofs::Near::fits))]
pub fn fit(v: Scaled, digits: u32, scale: u32, mode: Mode) -> Fit
    requires digits { (1 ≤ digits) × (digits ≤ 18) }
    requires scale { scale ≤ digits }
    requires value_scale { v.scale ≤ 37 }
    requires units { unsigned_abs v.units < 10 ^ 37 }
    ensures stored { IfStored result (λ z.
        (z ≡ near mode (value_of v) (pos scale)) × (unsigned_abs z < 10 ^ digits)) }
    ensures too_big { (result ≡ Fit.TooBig)
        ↔ (10 ^ digits ≤ unsigned_abs (near mode (value_of v) (pos scale))) }

    // what `near` is, as inequalities
    ensures nearest { IfStored result (λ z.
        IsNearSize mode (value_of v) (pos scale) (unsigned_abs z)) }

    // units at the receiver's own scale are stored as they are
    ensures own_scale { v.scale ≡ scale →
        MatchFit result (λ z. (z ≡ v.units) × (unsigned_abs z < 10 ^ digits))
        (10 ^ digits ≤ unsigned_abs v.units) }
{
    match fitted_size(v.units.unsigned_abs(), v.scale, scale, digits, mode) {
        Some(size) => Fit::Stored(signed(size, v.units) as i64),
        None => Fit::TooBig,
    }
}
