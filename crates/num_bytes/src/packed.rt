//! Numbers in packed items, two digits in a byte.
ghost use Rattle.std.specs.Prelude.{◌≡◌, ◌+◌, ◌*◌, ◌/◌, ◌%◌, ◌-◌, ◌^◌, ◌<◌, ◌≤◌, ◌∷◌, [], ◌++◌, ◌&&◌, length, nat_lt, IfSome, Option, Some, None, if◌then◌else◌};
ghost use Rattle.std.specs.List.{list_all};
ghost use Rattle.num_bytes.specs.Digits.{last_digits, number_of};
ghost use Rattle.num_bytes.specs.Reading.{half_bytes, packed_sign, packed_value};
ghost use Rattle.num_bytes.specs.Writing.{packed, sign_half};

use crate::digits::signed;

// The number that the half bytes write, if all are digits.
fn read_halves(bytes: &[u8]) -> Option<u64>
    requires { length bytes.now ≤ 9 }
    ensures value { let hs = half_bytes bytes.now in
        result ≡ (if list_all (λ h. nat_lt h 10) hs then Some (number_of hs) else None) }
    ensures bound { IfSome result (λ n. n < 10 ^ 18) }
{
    let mut number = 0;
    for byte in bytes {
        let high = u64::from(*byte / 16);
        let low = u64::from(*byte % 16);
        if high > 9 || low > 9 {
            return None;
        }
        number = (number * 10 + high) * 10 + low;
    }
    Some(number)
}

// whether this last half byte says that the number is negative
fn sign_of(half: u8, is_signed: bool) -> Option<bool>
    ensures { result ≡ packed_sign is_signed half }
{
    match half {
        10 | 12 | 14 | 15 => Some(false),
        11 | 13 if is_signed => Some(true),
        _ => None,
    }
}

/// The number of a packed item of so many digits.
pub(crate) fn read_packed(digits: u32, is_signed: bool, bytes: &[u8]) -> Option<i64>
    requires digits { (1 ≤ digits) × (digits ≤ 18) }
    requires length { length bytes.now ≡ digits / 2 + 1 }
    ensures { result ≡ packed_value digits is_signed bytes.now }
{
    let end = bytes.len() - 1;
    if digits % 2 == 0 && bytes[0] / 16 != 0 {
        return None;
    }
    let number = read_halves(&bytes[..end])?;
    let high = bytes[end] / 16;
    if high > 9 {
        return None;
    }
    let minus = sign_of(bytes[end] % 16, is_signed)?;
    Some(signed(minus, number * 10 + u64::from(high)))
}

/// Writes a packed item, with this last half byte.
fn write_halves(size: u64, last: u8, bytes: &mut [u8])
    requires some_bytes { 1 ≤ length bytes.old }
    requires last { last < 16 }
    ensures { bytes.new ≡ packed (last_digits (2 * length bytes.old - 1) size ++ last ∷ []) }
{
    let end = bytes.len() - 1;
    bytes[end] = (size % 10) as u8 * 16 + last;
    let mut rest = size / 10;
    for at in (0..end).rev() {
        bytes[at] = (rest / 10 % 10) as u8 * 16 + (rest % 10) as u8;
        rest /= 100;
    }
}

/// Writes a packed item.
pub(crate) fn write_packed(is_signed: bool, minus: bool, size: u64, bytes: &mut [u8])
    requires { 1 ≤ length bytes.old }
    ensures { bytes.new ≡ packed (last_digits (2 * length bytes.old - 1) size ++ sign_half is_signed minus ∷ []) }
{
    let last = match (is_signed, minus) {
        (false, _) => 0xF,
        (true, false) => 0xC,
        (true, true) => 0xD,
    };
    write_halves(size, last, bytes);
}
