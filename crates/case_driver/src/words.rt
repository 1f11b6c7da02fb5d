//! Words of a case: numbers and bytes.
use std::alloc::{AllocError, Global};

fn half_byte(digit: u8) -> Option<u8> {
    match digit {
        b'0'..=b'9' => Some(digit - b'0'),
        b'a'..=b'f' => Some(digit - b'a' + 10),
        _ => None,
    }
}

/// The bytes that are written in hexadecimal digits, nothing where a digit is none or stands alone.
pub fn bytes_of(alloc: Global, written: &str) -> Result<Option<Vec<u8>>, AllocError> {
    let mut bytes = Vec::new(alloc);
    let mut first = None;
    for digit in written.as_bytes() {
        match (first, half_byte(*digit)) {
            (_, None) => return Ok(None),
            (None, Some(half)) => first = Some(half),
            (Some(high), Some(low)) => {
                bytes.push((high << 4) | low)?;
                first = None;
            }
        }
    }
    Ok(if first.is_none() { Some(bytes) } else { None })
}

/// Writes bytes in hexadecimal digits.
pub fn push_bytes(text: &mut String, bytes: &[u8]) -> Result<(), AllocError> {
    for byte in bytes {
        text.push(hexadecimal(byte >> 4))?;
        text.push(hexadecimal(byte & 15))?;
    }
    Ok(())
}

fn hexadecimal(half: u8) -> char {
    match half {
        0..=9 => (b'0' + half) as char,
        10..=15 => (b'a' + (half - 10)) as char,
        _ => '?',
    }
}

/// Bytes in hexadecimal digits, as an answer.
pub fn shown_bytes(alloc: Global, bytes: &[u8]) -> Result<Option<String>, AllocError> {
    let mut text = String::new(alloc);
    push_bytes(&mut text, bytes)?;
    Ok(Some(text))
}
