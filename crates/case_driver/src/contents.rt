//! Cases of what bytes of items hold.
ghost use Rattle.std.specs.Prelude.{◌≡◌, ◌≤◌};
ghost use Rattle.cob_tree.specs.Pictures.{place_count};
ghost use Rattle.cob_tree.specs.Forms.{number_length};
ghost use Rattle.num_bytes.specs.Reading.{is_own};

use crate::words::{bytes_of, shown_bytes};
use cob_tree::{Bytes, Form, Usage};
use dec_num::pow10;
use num_bytes::{edit, is_numeric, put, value};
use std::alloc::{AllocError, Global};

/// A numeric item of at least one digit and at most 18.
#[derive(Clone, Copy)]
struct Item {
    digits: u32,
    scale: u32,
    signed: bool,
    usage: Usage,
}

fn usage_of(word: &str) -> Option<Usage> {
    match word {
        "display" => Some(Usage::Display),
        "leading" => Some(Usage::Leading),
        "trailing" => Some(Usage::Trailing),
        "binary" => Some(Usage::Binary),
        "packed" => Some(Usage::Packed),
        _ => None,
    }
}

fn item_of(digits: &str, scale: &str, sign: &str, usage: &str) -> Option<Item> {
    Some(Item {
        digits: digits.parse::<u32>().ok()?,
        scale: scale.parse::<u32>().ok()?,
        signed: sign == "signed",
        usage: usage_of(usage)?,
    })
}

fn length_of(digits: u32, usage: Usage) -> usize
    requires { digits ≤ 18 }
    ensures { result ≡ number_length digits usage }
{
    match usage {
        Usage::Display => digits as usize,
        Usage::Leading | Usage::Trailing => digits as usize + 1,
        Usage::Binary if digits <= 4 => 2,
        Usage::Binary if digits <= 9 => 4,
        Usage::Binary => 8,
        Usage::Packed => digits as usize / 2 + 1,
    }
}

// Whether so many digits hold the number.
fn is_held(digits: u32, signed: bool, number: i64) -> bool
    requires { digits ≤ 18 }
    ensures { result ≡ is_own digits signed number }
{
    (signed || number >= 0) && (number.unsigned_abs() as i128) < pow10(digits)
}

fn shown_number(alloc: Global, number: Option<i64>) -> Result<Option<String>, AllocError> {
    match number {
        Some(number) => Ok(Some(format!(in alloc; "{number}")?)),
        None => Ok(Some(String::from_str(alloc, "none")?)),
    }
}

// The number in an item's bytes. The tests of numbers and the reading must agree.
fn read_item(alloc: Global, item: Item, bytes: &[u8]) -> Result<Option<String>, AllocError> {
    let Item {
        digits,
        scale,
        signed,
        usage,
    } = item;
    if digits < 1 || 18 < digits || bytes.len() != length_of(digits, usage) {
        return Ok(None);
    }
    let form = Form::Number {
        digits,
        scale,
        signed,
        usage,
    };
    let number = value(&form, bytes);
    if is_numeric(&form, bytes) != number.is_some() {
        return Ok(None);
    }
    shown_number(alloc, number)
}

/// `value DIGITS SCALE signed|unsigned USAGE BYTES`: the number in the item's own units.
pub fn value_case(alloc: Global, given: &[&str]) -> Result<Option<String>, AllocError> {
    match given {
        [digits, scale, sign, usage, written] => {
            match (
                item_of(digits, scale, sign, usage),
                bytes_of(alloc, written)?,
            ) {
                (Some(item), Some(bytes)) => read_item(alloc, item, &bytes),
                _ => Ok(None),
            }
        }
        _ => Ok(None),
    }
}

fn read_text(alloc: Global, bytes: &[u8]) -> Result<Option<String>, AllocError> {
    if bytes.len() > 18 {
        return Ok(None);
    }
    let form = Form::Text {
        length: bytes.len() as u32,
    };
    shown_number(alloc, value(&form, bytes))
}

/// `text BYTES`: the number in an alphanumeric item.
pub fn text_case(alloc: Global, given: &[&str]) -> Result<Option<String>, AllocError> {
    match given {
        [written] => match bytes_of(alloc, written)? {
            Some(bytes) => read_text(alloc, &bytes),
            None => Ok(None),
        },
        _ => Ok(None),
    }
}

fn test_text(alloc: Global, bytes: &[u8]) -> Result<Option<String>, AllocError> {
    if bytes.len() > 1_048_576 {
        return Ok(None);
    }
    let form = Form::Text {
        length: bytes.len() as u32,
    };
    Ok(Some(format!(in alloc; "{}", is_numeric(&form, bytes))?))
}

/// `numeric BYTES`: whether an alphanumeric item is numeric.
pub fn numeric_case(alloc: Global, given: &[&str]) -> Result<Option<String>, AllocError> {
    match given {
        [written] => match bytes_of(alloc, written)? {
            Some(bytes) => test_text(alloc, &bytes),
            None => Ok(None),
        },
        _ => Ok(None),
    }
}

fn write_item(alloc: Global, item: Item, number: i64) -> Result<Option<String>, AllocError> {
    let Item {
        digits,
        scale,
        signed,
        usage,
    } = item;
    if digits < 1 || 18 < digits || !is_held(digits, signed, number) {
        return Ok(None);
    }
    let form = Form::Number {
        digits,
        scale,
        signed,
        usage,
    };
    let mut area = [0xAAu8; 19];
    let length = length_of(digits, usage);
    let bytes = &mut area[..length];
    put(&form, number, bytes);
    shown_bytes(alloc, bytes)
}

/// `put DIGITS SCALE signed|unsigned USAGE NUMBER`: the bytes that an item then has.
pub fn put_case(alloc: Global, given: &[&str]) -> Result<Option<String>, AllocError> {
    match given {
        [digits, scale, sign, usage, number] => {
            match (item_of(digits, scale, sign, usage), number.parse::<i64>()) {
                (Some(item), Ok(number)) => write_item(alloc, item, number),
                _ => Ok(None),
            }
        }
        _ => Ok(None),
    }
}

// How many digits a picture has room for.
fn count_places(picture: &[u8]) -> usize
    ensures { result ≡ place_count picture.now }
{
    picture
        .iter()
        .filter(|symbol| **symbol == b'9' || **symbol == b'Z')
        .count()
}

fn edit_number(alloc: Global, picture: &[u8], number: i64) -> Result<Option<String>, AllocError> {
    let digits = count_places(picture);
    if digits < 1 || 18 < digits || !is_held(digits as u32, false, number) {
        return Ok(None);
    }
    let form = Form::Edited {
        picture: Bytes::of(alloc, picture)?,
        digits: digits as u32,
        scale: 0,
    };
    let mut bytes = vec![in alloc; 0xAAu8; picture.len()]?;
    edit(&form, number, bytes.as_mut_slice());
    shown_bytes(alloc, &bytes)
}

/// `edit PICTURE NUMBER`: the bytes of an edited item.
pub fn edit_case(alloc: Global, given: &[&str]) -> Result<Option<String>, AllocError> {
    match given {
        [picture, number] => match number.parse::<i64>() {
            Ok(number) => edit_number(alloc, picture.as_bytes(), number),
            Err(_) => Ok(None),
        },
        _ => Ok(None),
    }
}
