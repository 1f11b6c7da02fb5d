//! Numbers written by decimal digits.
ghost use Rattle.std.specs.Prelude.{◌≡◌, ℕ, ◌+◌, ◌^◌, ◌<◌, ◌≤◌, length, Option, IfSome, pos, unsigned_abs};
ghost use Rattle.std.specs.Option.{option_map};
ghost use Rattle.num_bytes.specs.Digits.{digits_in, digit_text, last_digits, number_of, signed_number};

use dec_num::pow10;

/// `10^k`.
#[tactic(auto, using(dec_num::proofs::Powers::ten_positive))]
pub(crate) fn ten(k: u32) -> u64
    requires { k ≤ 18 }
    ensures value { result ≡ 10 ^ k }
    ensures positive { 1 ≤ result }
{
    pow10(k) as u64
}

/// The number of this size.
pub(crate) fn signed(minus: bool, size: u64) -> i64
    requires { size < 10 ^ 18 }
    ensures { result ≡ signed_number minus size }
{
    if minus { -(size as i64) } else { size as i64 }
}

/// The number that the characters write, if all are digits.
pub(crate) fn read_digits(text: &[u8]) -> Option<u64>
    requires { length text.now ≤ 18 }
    ensures value { result ≡ option_map number_of (digits_in text.now) }
    ensures bound { IfSome result (λ n. n < 10 ^ 18) }
    ensures bound_17 { length text.now ≤ 17 → IfSome result (λ n. n < 10 ^ 17) }
{
    let mut number = 0;
    for byte in text {
        if !byte.is_ascii_digit() {
            return None;
        }
        number = number * 10 + u64::from(*byte - b'0');
    }
    Some(number)
}

/// Fills the text with the lowest digits of the size.
pub(crate) fn write_digits(size: u64, text: &mut [u8])
    ensures { text.new ≡ digit_text (last_digits (length text.old) size) }
{
    let mut rest = size;
    for at in (0..text.len()).rev() {
        text[at] = b'0' + (rest % 10) as u8;
        rest /= 10;
    }
}
