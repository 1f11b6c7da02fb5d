//! The numbers of a line.
ghost use Rattle.std.specs.Prelude.{◌≡◌, ◌-◌, ◌<◌, ◌≤◌, ◌^◌, negsuc, IfOk, IfSome, if◌then◌else◌};
ghost use Rattle.std.specs.Option.{option_map};
ghost use Rattle.cert_text.specs.Reading.{Reads, ◌▷◌, digits_from, number_at, negative, positive, signed_at, PushesNumber, numbers_at};

use dec_num::SIZE_LIMIT;
use std::alloc::AllocError;

// No number of a certificate is larger in absolute value.
const LARGEST: u128 = SIZE_LIMIT;

// A line has at most this many numbers.
pub const MOST_NUMBERS: usize = 8;

// Reads on with the digits of a number, of which some gave `value`.
fn digits_from(mut value: u128, bytes: &[u8]) -> Option<(u128, &[u8])>
    requires { value ≤ 10 ^ 37 }
    ensures reads { Reads (λ x. (x.0, x.1.now)) result (digits_from value bytes.now) }
    ensures small { IfSome result (λ x. x.0 ≤ 10 ^ 37) }
{
    for (i, byte) in bytes.iter().enumerate() {
        if !byte.is_ascii_digit() {
            return Some((value, &bytes[i..]));
        }
        value = value * 10 + (*byte - b'0') as u128;
        if value > LARGEST {
            return None;
        }
    }
    Some((value, &bytes[bytes.len()..]))
}

// A number without a sign at the front, and the bytes after it.
fn number_at(bytes: &[u8]) -> Option<(u128, &[u8])>
    ensures reads { Reads (λ x. (x.0, x.1.now)) result (number_at bytes.now) }
    ensures small { IfSome result (λ x. x.0 ≤ 10 ^ 37) }
{
    let (first, rest) = bytes.split_first()?;
    match *first {
        b'0' => Some((0, rest)),
        b'1'..=b'9' => digits_from((*first - b'0') as u128, rest),
        _ => None,
    }
}

// The number after its minus.
fn negated(value: u128) -> i128
    requires positive { 0 < value }
    requires small { value ≤ 10 ^ 37 }
    ensures { result ≡ negsuc (value - 1) }
{
    -(value as i128)
}

fn negative_at(bytes: &[u8]) -> Option<(i128, &[u8])>
    ensures { Reads (λ x. (x.0, x.1.now)) result (number_at bytes.now ▷ negative) }
{
    match number_at(bytes) {
        Some((0, _)) => None,
        Some((value, rest)) => Some((negated(value), rest)),
        None => None,
    }
}

fn positive_at(bytes: &[u8]) -> Option<(i128, &[u8])>
    ensures { Reads (λ x. (x.0, x.1.now)) result (number_at bytes.now ▷ positive) }
{
    match number_at(bytes) {
        Some((value, rest)) => Some((value as i128, rest)),
        None => None,
    }
}

// A number at the front, and the bytes after it.
fn signed_at(bytes: &[u8]) -> Option<(i128, &[u8])>
    ensures { Reads (λ x. (x.0, x.1.now)) result (signed_at bytes.now) }
{
    match bytes {
        [] => None,
        [b'-', rest @ ..] => negative_at(rest),
        _ => positive_at(bytes),
    }
}

// Adds the number after a space to the numbers, and answers the bytes after it.
fn push_number<'a>(bytes: &'a [u8], numbers: &mut Vec<i128>) -> Result<Option<&'a [u8]>, AllocError>
    ensures { IfOk result (λ rest. PushesNumber bytes.now numbers.old.items numbers.new.items (option_map (λ r. r.now) rest)) }
{
    match bytes {
        [b' ', rest @ ..] => match signed_at(rest) {
            Some((number, rest)) => {
                numbers.push(number)?;
                Ok(Some(rest))
            }
            None => Ok(None),
        },
        _ => Ok(None),
    }
}

/// Reads the numbers up to the end, and answers whether there are only numbers, at most eight.
pub fn numbers_at(bytes: &[u8], numbers: &mut Vec<i128>) -> Result<bool, AllocError>
    ensures { IfOk result (λ whole. numbers_at 8 bytes.now ≡ (if whole then Some numbers.new.items else None)) }
{
    numbers.clear();
    let mut rest = bytes;
    for _ in 0..MOST_NUMBERS {
        if rest.is_empty() {
            return Ok(true);
        }
        match push_number(rest, numbers)? {
            Some(after) => rest = after,
            None => return Ok(false),
        }
    }
    Ok(rest.is_empty())
}
