//! Numbers in binary items.
ghost use Rattle.std.specs.Prelude.{◌≡◌, ◌≤◌, length, IsTrue, IfSome};
ghost use Rattle.std.specs.Int.{w16, w32, w64, to_be_bytes, cast_unsigned};
ghost use Rattle.num_bytes.specs.Reading.{HasNumber, binary_value, binary_width, is_own, twos_complement};
ghost use Rattle.num_bytes.specs.Writing.{number_bytes};
ghost use Rattle.cob_tree.specs.declared.form.Usage.TheVariants.{Binary};

use crate::digits::ten;

// The number in big-endian two's complement.
fn from_bytes(digits: u32, bytes: &[u8]) -> i64
    requires { HasNumber digits Binary (length bytes.now) }
    ensures { result ≡ twos_complement (binary_width digits) bytes.now }
{
    if digits <= 4 {
        let mut array = [0; 2];
        array.copy_from_slice(bytes);
        i64::from(i16::from_be_bytes(array))
    } else if digits <= 9 {
        let mut array = [0; 4];
        array.copy_from_slice(bytes);
        i64::from(i32::from_be_bytes(array))
    } else {
        let mut array = [0; 8];
        array.copy_from_slice(bytes);
        i64::from_be_bytes(array)
    }
}

// Whether an item of so many digits has the number.
pub(crate) fn is_in_range(digits: u32, signed: bool, number: i64) -> bool
    requires { digits ≤ 18 }
    ensures { result ≡ is_own digits signed number }
{
    (signed || number >= 0) && number.unsigned_abs() < ten(digits)
}

/// The number of a binary item, within its picture's range.
pub(crate) fn read_binary(digits: u32, signed: bool, bytes: &[u8]) -> Option<i64>
    requires { HasNumber digits Binary (length bytes.now) }
    ensures { result ≡ binary_value digits signed bytes.now }
{
    let number = from_bytes(digits, bytes);
    if is_in_range(digits, signed, number) {
        Some(number)
    } else {
        None
    }
}

/// Writes a binary item.
pub(crate) fn write_binary(digits: u32, signed: bool, number: i64, bytes: &mut [u8])
    requires bytes { HasNumber digits Binary (length bytes.old) }
    requires number { IsTrue (is_own digits signed number) }
    ensures { bytes.new ≡ number_bytes digits signed Binary number }
{
    if digits <= 4 {
        bytes.copy_from_slice(&(number as i16).to_be_bytes());
    } else if digits <= 9 {
        bytes.copy_from_slice(&(number as i32).to_be_bytes());
    } else {
        bytes.copy_from_slice(&number.to_be_bytes());
    }
}
