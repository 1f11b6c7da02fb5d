//! Whole quotients by each mode.
ghost use Rattle.std.specs.Prelude.{◌≡◌, ◌+◌, ◌*◌, ◌^◌, ◌<◌, unsigned_abs};
ghost use Rattle.dec_num.specs.Exact.{rounded, with_sign_of};

use super::types::Mode;

// A long division's quotient, with the last step by what it left.
pub(crate) fn finished(quotient: u128, rest: u128, bottom: u128, mode: Mode) -> u128
    requires rest { rest < bottom }
    requires quotient { quotient < 10 ^ 38 }
    ensures { result ≡ rounded mode (quotient * bottom + rest) bottom }
{
    match mode {
        Mode::Trunc => quotient,
        Mode::Round if bottom - rest <= rest => quotient + 1,
        Mode::Round => quotient,
    }
}

// The number of that size, negative where `like` is.
#[tactic(auto, using(crate::proofs::Near::abs_with_sign))]
pub(crate) fn signed(size: u128, like: i128) -> i128
    requires { size < 10 ^ 38 }
    ensures value { result ≡ with_sign_of like size }
    ensures size { unsigned_abs result ≡ size }
{
    let z = size as i128;
    if like < 0 { -z } else { z }
}
