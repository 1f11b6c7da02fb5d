//! Quotients, cut or rounded.
ghost use Rattle.std.specs.Prelude.{◌≡◌, ◌≢◌, ◌+◌, ◌*◌, ◌^◌, ◌<◌, ◌≤◌, ◌≤ℤ◌, pos, neg_ℤ, unsigned_abs, ◌↔◌};
ghost use Rattle.std.specs.Option.{SomeIff};
ghost use Rattle.dec_num.specs.Exact.{near, near_size, ratio_of, rounded, IsNearSize};
ghost use Rattle.dec_num.specs.Quot.{IfIs};

use super::rounding::{finished, signed};
use super::tens::ten;
use super::types::{Mode, Quot};

// A quotient has at most so many digits.
const DIGITS: u32 = 37;

// n * 10^up / d by long division, several digits at a time where d is short, if it is below 10^37
#[tactic(auto, using(crate::proofs::LongDivision::widening))]
fn widened(n: u128, d: u128, up: u32, mode: Mode) -> Option<u128>
    requires n { n < 10 ^ 37 }
    requires d { (0 < d) × (d < 10 ^ 37) }
    requires up { up ≤ 55 }
    ensures { let quotient = rounded mode (n * 10 ^ up) d in
        SomeIff result (quotient < 10 ^ 37) quotient }
{
    let most: u32 = if d < ten(18) { 19 } else { 1 };
    let mut quotient = n / d;
    let mut rest = n % d;
    let mut place = 0;
    while place < up {
        let digits = most.min(up - place);
        if ten(DIGITS - digits) <= quotient {
            return None;
        }
        let factor = ten(digits);
        let raised = rest * factor;
        quotient = quotient * factor + raised / d;
        rest = raised % d;
        place += digits;
    }
    let quotient = finished(quotient, rest, d, mode);
    if quotient < ten(DIGITS) {
        Some(quotient)
    } else {
        None
    }
}

// n / (d * 10^down)
#[tactic(auto, using(crate::proofs::LongDivision::narrowing))]
fn narrowed(n: u128, d: u128, down: u32, mode: Mode) -> u128
    requires n { n < 10 ^ 37 }
    requires d { (0 < d) × (d < 10 ^ 37) }
    requires down { (1 ≤ down) × (down ≤ 37) }
    ensures value { result ≡ rounded mode n (d * 10 ^ down) }
    ensures bound { result < 10 ^ 37 }
{
    match mode {
        Mode::Trunc => n / ten(down) / d,
        Mode::Round => {
            let half = 5 * ten(down - 1);
            (n / half + d) / (2 * d)
        }
    }
}

// the top of n / d over a positive bottom
fn ratio_top(n: i128, d: i128) -> i128
    requires { unsigned_abs n < 10 ^ 37 }
    ensures value { result ≡ (ratio_of n d).top }
    ensures size { unsigned_abs result ≡ unsigned_abs n }
{
    if d < 0 { -n } else { n }
}

// the size of n * 10^up / d, if it is below 10^37
fn quotient_size(n: u128, d: u128, up: i32, mode: Mode) -> Option<u128>
    requires n { n < 10 ^ 37 }
    requires d { (0 < d) × (d < 10 ^ 37) }
    requires up { (neg_ℤ (pos 37) ≤ℤ up) × (up ≤ℤ pos 55) }
    ensures { let size = near_size mode (ratio_of (pos n) (pos d)) up in
        SomeIff result (size < 10 ^ 37) size }
{
    if up < 0 {
        Some(narrowed(n, d, up.unsigned_abs(), mode))
    } else {
        widened(n, d, up as u32, mode)
    }
}

/// `n * 10^up / d` as a whole number, cut or rounded.
pub fn quot(n: i128, d: i128, up: i32, mode: Mode) -> Quot
    requires n { unsigned_abs n < 10 ^ 37 }
    requires d { unsigned_abs d < 10 ^ 37 }
    requires up { (neg_ℤ (pos 37) ≤ℤ up) × (up ≤ℤ pos 55) }
    ensures zero_divisor { (result ≡ Quot.ZeroDivisor) ↔ (d ≡ pos 0) }
    ensures over { (result ≡ Quot.Over)
        ↔ ((d ≢ pos 0) × (10 ^ 37 ≤ unsigned_abs (near mode (ratio_of n d) up))) }
    ensures is { IfIs result (λ q.
        (d ≢ pos 0) × (q ≡ near mode (ratio_of n d) up) × (unsigned_abs q < 10 ^ 37)) }

    // what `near` is, as inequalities
    ensures nearest { IfIs result (λ q. IsNearSize mode (ratio_of n d) up (unsigned_abs q)) }
{
    if d == 0 {
        return Quot::ZeroDivisor;
    }
    let top = n.unsigned_abs();
    let bottom = d.unsigned_abs();
    match quotient_size(top, bottom, up, mode) {
        Some(size) => Quot::Is(signed(size, ratio_top(n, d))),
        None => Quot::Over,
    }
}
