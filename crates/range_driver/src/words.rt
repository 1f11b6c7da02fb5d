//! Words that describe ranges, receivers and items.
use case_words::interval_of;
use interval_domain::Interval;
use std::alloc::{AllocError, Global};
use sum_ranges::Ranged;
use transfer_ranges::Receiver;

/// What stands between the commas of a word.
fn fields_of<'a>(alloc: Global, word: &'a str) -> Result<Vec<&'a str>, AllocError> {
    word.split(',').collect(alloc)
}

/// `LOW,HIGH,SCALE`
pub fn range_of(alloc: Global, word: &str) -> Result<Option<Ranged>, AllocError> {
    match fields_of(alloc, word)?.as_slice() {
        [low, high, scale] => Ok(ranged_of(low, high, scale)),
        _ => Ok(None),
    }
}

fn ranged_of(low: &str, high: &str, scale: &str) -> Option<Ranged> {
    Some(Ranged {
        units: interval_of(low, high)?,
        scale: scale.parse::<u32>().ok()?,
    })
}

/// `DIGITS,SCALE,signed`
pub fn receiver_of(alloc: Global, word: &str) -> Result<Option<Receiver>, AllocError> {
    match fields_of(alloc, word)?.as_slice() {
        [digits, scale, sign] => Ok(receiver_with(digits, scale, sign)),
        _ => Ok(None),
    }
}

fn receiver_with(digits: &str, scale: &str, sign: &str) -> Option<Receiver> {
    Some(Receiver {
        digits: digits.parse::<u32>().ok()?,
        scale: scale.parse::<u32>().ok()?,
        signed: sign == "signed",
    })
}

/// An item of a case: its digits, and what is known of its units.
#[derive(Clone, Copy)]
pub struct Described {
    pub digits: u32,
    pub scale: u32,
    pub units: Interval,
}

/// `DIGITS,SCALE,LOW,HIGH`
pub fn described_of(alloc: Global, word: &str) -> Result<Option<Described>, AllocError> {
    match fields_of(alloc, word)?.as_slice() {
        [digits, scale, low, high] => Ok(described_with(digits, scale, low, high)),
        _ => Ok(None),
    }
}

fn described_with(digits: &str, scale: &str, low: &str, high: &str) -> Option<Described> {
    Some(Described {
        digits: digits.parse::<u32>().ok()?,
        scale: scale.parse::<u32>().ok()?,
        units: interval_of(low, high)?,
    })
}
