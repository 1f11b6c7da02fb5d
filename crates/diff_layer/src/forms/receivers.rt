//! Whether a receiver can hold what bounds say of an amount.
ghost use Rattle.std.specs.Prelude.{◌≡◌, ◌≤◌, ◌^◌, ◌*◌, pos, ◌*ℤ◌, ◌-ℤ◌, ◌≤ℤ◌, nat_lt, unsigned_abs, Some, IfSome};
ghost use Rattle.diff_bounds.specs.Matrix.{IsMatrix};
ghost use Rattle.diff_steps.specs.Clearing.{high_fits, low_fits};
ghost use Rattle.diff_layer.specs.PackEnds.{IsNumber};
ghost use Rattle.diff_layer.specs.Forms.{IsFormOf};
ghost use Rattle.diff_layer.specs.Receiving.{upper_if, upper_negated_if};

use crate::pack::matrix_bounds::{bound_if, bound_of_negated_if};
use dec_num::{Mode, pow10};
use diff_bounds::Lin;
use transfer_ranges::Receiver;

// whether so many units, times a power of ten, are less than a number
fn is_less(units: i128, power: u32, limit: i128) -> bool
    requires units { pos 0 ≤ℤ units }
    requires power { power ≤ 38 }
    requires limit { pos 0 ≤ℤ limit }
    ensures { result ≡ nat_lt (unsigned_abs units * 10 ^ power) (unsigned_abs limit) }
{
    match units.checked_mul(pow10(power)) {
        Some(product) => product < limit,
        None => false,
    }
}

// twice a limit less a unit
fn twice_less(limit: i128, unit: i128) -> i128
    requires unit { pos 0 ≤ℤ unit }
    requires above { unit ≤ℤ limit }
    requires limit { limit ≤ℤ pos (10 ^ 36) }
    ensures value { result ≡ pos 2 *ℤ limit -ℤ unit }
    ensures positive { pos 0 ≤ℤ result }
{
    2 * limit - unit
}

// whether a number of so many units of a scale, cut or rounded, has no more digits than the receiver
fn size_fits(mode: Mode, receiver: Receiver, decimals: u32, units: i128) -> bool
    requires digits { receiver.digits ≤ 18 }
    requires scale { receiver.scale ≤ 18 }
    requires decimals { decimals ≤ 18 }
    requires units { pos 0 ≤ℤ units }
    requires number { IsNumber units }
    ensures { result ≡ high_fits mode receiver decimals (Some units) }
{
    let limit = pow10(receiver.digits + decimals);
    match mode {
        Mode::Trunc => is_less(units, receiver.scale, limit),
        Mode::Round => is_less(
            2 * units,
            receiver.scale,
            twice_less(limit, pow10(decimals)),
        ),
    }
}

/// Whether an amount that is at most so many units of a number of decimals, once it is cut or rounded, is at most the
/// greatest number of a receiver. Likewise an amount that is at least the negative of so many units is at least the
/// least one. Nothing is sure where there is no bound.
pub fn fits(mode: Mode, receiver: Receiver, decimals: u32, bound: Option<i128>) -> bool
    requires digits { receiver.digits ≤ 18 }
    requires scale { receiver.scale ≤ 18 }
    requires decimals { decimals ≤ 18 }
    requires bound { IfSome bound IsNumber }
    ensures high { result ≡ high_fits mode receiver decimals bound }
    ensures low { result ≡ low_fits mode receiver decimals bound }
{
    match bound {
        Some(units) => units <= 0 || size_fits(mode, receiver, decimals, units),
        None => false,
    }
}

/// Whether the matrix shows that an amount of a form isn't above the greatest number of a receiver, once it is cut or
/// rounded. The pack's unit has so many decimals.
pub fn shows_high(
    size: usize,
    m: &[i128],
    form: Option<Lin>,
    mode: Mode,
    receiver: Receiver,
    decimals: u32,
) -> bool
    requires size { size ≤ 8 }
    requires m { IsMatrix size m.now }
    requires form { IfSome form (IsFormOf size) }
    requires digits { receiver.digits ≤ 18 }
    requires scale { receiver.scale ≤ 18 }
    requires decimals { decimals ≤ 18 }
    ensures { result ≡ high_fits mode receiver decimals (upper_if size m.now form) }
{
    fits(mode, receiver, decimals, bound_if(size, m, form))
}

/// Whether the matrix shows that an amount of a form isn't below the least number of a receiver, once it is cut or
/// rounded. The pack's unit has so many decimals.
pub fn shows_low(
    size: usize,
    m: &[i128],
    form: Option<Lin>,
    mode: Mode,
    receiver: Receiver,
    decimals: u32,
) -> bool
    requires size { size ≤ 8 }
    requires m { IsMatrix size m.now }
    requires form { IfSome form (IsFormOf size) }
    requires digits { receiver.digits ≤ 18 }
    requires scale { receiver.scale ≤ 18 }
    requires decimals { decimals ≤ 18 }
    ensures { result ≡ low_fits mode receiver decimals (upper_negated_if size m.now form) }
{
    fits(mode, receiver, decimals, bound_of_negated_if(size, m, form))
}
