//! The contents of an item, whatever its form.
ghost use Rattle.std.specs.Prelude.{◌≡◌, ◌≤◌, ◌↔◌, length, IsTrue, IsSome, Option, Some};
ghost use Rattle.std.specs.Char.{is_ascii_digit};
ghost use Rattle.std.specs.List.{list_all};
ghost use Rattle.num_bytes.specs.Reading.{CanRead, CanTest, HasNumber, contents_value, is_own, number_value};
ghost use Rattle.num_bytes.specs.Writing.{CanHold, contents_bytes, number_bytes};

use crate::binary::{read_binary, write_binary};
use crate::digits::write_digits;
use crate::packed::{read_packed, write_packed};
use crate::zoned::{
    read_leading, read_overpunched, read_trailing, read_unsigned, write_leading, write_overpunched,
    write_trailing,
};
use cob_tree::{Form, Usage};

// The number of a numeric item.
fn read_number(digits: u32, signed: bool, usage: Usage, bytes: &[u8]) -> Option<i64>
    requires { HasNumber digits usage (length bytes.now) }
    ensures { result ≡ number_value digits signed usage bytes.now }
{
    match usage {
        Usage::Display if signed => read_overpunched(bytes),
        Usage::Display => read_unsigned(bytes),
        Usage::Leading => read_leading(bytes),
        Usage::Trailing => read_trailing(bytes),
        Usage::Binary => read_binary(digits, signed, bytes),
        Usage::Packed => read_packed(digits, signed, bytes),
    }
}

// Writes a numeric item.
fn write_number(digits: u32, signed: bool, usage: Usage, number: i64, bytes: &mut [u8])
    requires bytes { HasNumber digits usage (length bytes.old) }
    requires number { IsTrue (is_own digits signed number) }
    ensures { bytes.new ≡ number_bytes digits signed usage number }
{
    let minus = number < 0;
    let size = number.unsigned_abs();
    match usage {
        Usage::Display if signed => write_overpunched(minus, size, bytes),
        Usage::Display => write_digits(size, bytes),
        Usage::Leading => write_leading(minus, size, bytes),
        Usage::Trailing => write_trailing(minus, size, bytes),
        Usage::Binary => write_binary(digits, signed, number, bytes),
        Usage::Packed => write_packed(signed, minus, size, bytes),
    }
}

/// The number in the item, in units of the form's scale. The form is `Number`, of 1 to 18 digits, or `Text` of at
/// most 18 bytes, and the bytes are the item's.
pub fn value(form: &Form, bytes: &[u8]) -> Option<i64>
    requires { CanRead form.now (length bytes.now) }
    ensures { result ≡ contents_value form.now bytes.now }
{
    match form {
        Form::Text { .. } => read_unsigned(bytes),
        Form::Number {
            digits,
            signed,
            usage,
            ..
        } => read_number(*digits, *signed, *usage, bytes),
        Form::Group | Form::Edited { .. } => None,
    }
}

fn is_all_digits(text: &[u8]) -> bool
    ensures { result ≡ list_all is_ascii_digit text.now }
{
    text.iter().all(|byte| byte.is_ascii_digit())
}

/// Whether the item's contents are numeric. The form is `Number`, of 1 to 18 digits, or `Text` of any length, and
/// the bytes are the item's.
pub fn is_numeric(form: &Form, bytes: &[u8]) -> bool
    requires { CanTest form.now (length bytes.now) }
    ensures { IsTrue result ↔ IsSome (contents_value form.now bytes.now) }
{
    match form {
        Form::Text { .. } => is_all_digits(bytes),
        Form::Number {
            digits,
            signed,
            usage,
            ..
        } => read_number(*digits, *signed, *usage, bytes).is_some(),
        Form::Group | Form::Edited { .. } => false,
    }
}

/// Writes the number, which is in units of the form's scale, into the item. The form is `Number`, of 1 to 18
/// digits, its digits and sign hold the number, and the bytes are the item's.
#[inline(always)]
pub fn put(form: &Form, value: i64, bytes: &mut [u8])
    requires { CanHold form.now value (length bytes.old) }
    ensures written { bytes.new ≡ contents_bytes form.now value }
    ensures read_back { contents_value form.now bytes.new ≡ Some value }
{
    if let Form::Number {
        digits,
        signed,
        usage,
        ..
    } = form
    {
        write_number(*digits, *signed, *usage, value, bytes);
    }
}
