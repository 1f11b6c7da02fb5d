//! Numbers in DISPLAY items, a digit in a byte, and where their signs stand.
ghost use Rattle.std.specs.Prelude.{◌≡◌, ◌+◌, ◌/◌, ◌%◌, ◌-◌, ◌^◌, ◌<◌, ◌≤◌, ◌∷◌, [], ◌++◌, length, IfSome};
ghost use Rattle.num_bytes.specs.Digits.{digit_text, last_digits};
ghost use Rattle.num_bytes.specs.Reading.{unsigned_value, overpunched_value, leading_value, trailing_value, signed_digit, separate_sign};
ghost use Rattle.num_bytes.specs.Writing.{overpunched_digit, sign_byte};

use crate::digits::{read_digits, signed, write_digits};

// whether the number of this last digit is negative, and the digit
fn signed_digit_of(byte: u8) -> Option<(bool, u64)>
    ensures value { result ≡ signed_digit byte }
    ensures bound { IfSome result (λ d. d.1 < 10) }
{
    match byte {
        b'0'..=b'9' => Some((false, u64::from(byte - b'0'))),
        b'{' => Some((false, 0)),
        b'A'..=b'I' => Some((false, u64::from(byte - b'A' + 1))),
        b'}' => Some((true, 0)),
        b'J'..=b'R' => Some((true, u64::from(byte - b'J' + 1))),
        _ => None,
    }
}

// whether this separate sign says that the number is negative
fn sign_of(byte: u8) -> Option<bool>
    ensures { result ≡ separate_sign byte }
{
    match byte {
        b'+' => Some(false),
        b'-' => Some(true),
        _ => None,
    }
}

/// The number of an unsigned DISPLAY item.
pub(crate) fn read_unsigned(bytes: &[u8]) -> Option<i64>
    requires { length bytes.now ≤ 18 }
    ensures { result ≡ unsigned_value bytes.now }
{
    let number = read_digits(bytes)?;
    Some(signed(false, number))
}

/// The number of a DISPLAY item with its sign in the last digit.
pub(crate) fn read_overpunched(bytes: &[u8]) -> Option<i64>
    requires { (1 ≤ length bytes.now) × (length bytes.now ≤ 18) }
    ensures { result ≡ overpunched_value bytes.now }
{
    let end = bytes.len() - 1;
    let number = read_digits(&bytes[..end])?;
    let (minus, digit) = signed_digit_of(bytes[end])?;
    Some(signed(minus, number * 10 + digit))
}

/// The number of a DISPLAY item whose sign stands before the digits.
pub(crate) fn read_leading(bytes: &[u8]) -> Option<i64>
    requires { (1 ≤ length bytes.now) × (length bytes.now ≤ 19) }
    ensures { result ≡ leading_value bytes.now }
{
    let minus = sign_of(bytes[0])?;
    let number = read_digits(&bytes[1..])?;
    Some(signed(minus, number))
}

/// The number of a DISPLAY item whose sign stands behind the digits.
pub(crate) fn read_trailing(bytes: &[u8]) -> Option<i64>
    requires { (1 ≤ length bytes.now) × (length bytes.now ≤ 19) }
    ensures { result ≡ trailing_value bytes.now }
{
    let end = bytes.len() - 1;
    let minus = sign_of(bytes[end])?;
    let number = read_digits(&bytes[..end])?;
    Some(signed(minus, number))
}

/// Writes a DISPLAY item with the sign in the last digit.
pub(crate) fn write_overpunched(minus: bool, size: u64, bytes: &mut [u8])
    requires { 1 ≤ length bytes.old }
    ensures { bytes.new
        ≡ digit_text (last_digits (length bytes.old - 1) (size / 10)) ++ overpunched_digit minus (size % 10) ∷ [] }
{
    let end = bytes.len() - 1;
    write_digits(size / 10, &mut bytes[..end]);
    let digit = (size % 10) as u8;
    bytes[end] = match (minus, digit) {
        (false, 0) => b'{',
        (false, _) => b'A' - 1 + digit,
        (true, 0) => b'}',
        (true, _) => b'J' - 1 + digit,
    };
}

fn sign_of_number(minus: bool) -> u8
    ensures { result ≡ sign_byte minus }
{
    if minus { b'-' } else { b'+' }
}

/// Writes a DISPLAY item whose sign stands before the digits.
pub(crate) fn write_leading(minus: bool, size: u64, bytes: &mut [u8])
    requires { 1 ≤ length bytes.old }
    ensures { bytes.new ≡ sign_byte minus ∷ digit_text (last_digits (length bytes.old - 1) size) }
{
    bytes[0] = sign_of_number(minus);
    write_digits(size, &mut bytes[1..]);
}

/// Writes a DISPLAY item whose sign stands behind the digits.
pub(crate) fn write_trailing(minus: bool, size: u64, bytes: &mut [u8])
    requires { 1 ≤ length bytes.old }
    ensures { bytes.new ≡ digit_text (last_digits (length bytes.old - 1) size) ++ sign_byte minus ∷ [] }
{
    let end = bytes.len() - 1;
    write_digits(size, &mut bytes[..end]);
    bytes[end] = sign_of_number(minus);
}
