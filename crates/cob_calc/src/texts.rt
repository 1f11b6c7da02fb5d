//! The sides of a comparison as texts.
ghost use Rattle.std.specs.Prelude.{◌≡◌, ◌≤◌, ◌<◌, ◌^◌, ◌+◌, length, slice_index_or};
ghost use Rattle.num_bytes.specs.Digits.{digit_at};
ghost use Rattle.cob_runs.specs.Deciding.{text_order};
ghost use Rattle.cob_calc.specs.Comparing.{plain_order, plain_text, IsShortText};

use dec_num::pow10;
use std::cmp::Ordering;

/// A side of a comparison as text: bytes, the last digits of a number, or one byte so many times.
#[derive(Clone, Copy)]
pub enum Text<'a> {
    Bytes(&'a [u8]),
    Digits { count: u32, size: u64 },
    Fill { byte: u8, count: usize },
}

#[tactic(auto, using(crate::proofs::TextLemmas::weights))]
fn weight(place: u32) -> u64
    requires { place ≤ 17 }
    ensures value { result ≡ 10 ^ place }
    ensures some { 1 ≤ result }
{
    pow10(place) as u64
}

// the digit at the place of this weight
fn digit(size: u64, place: u32) -> u8
    requires { place ≤ 17 }
    ensures { result ≡ 48 + digit_at place size }
{
    48 + (size / weight(place) % 10) as u8
}

// the byte at a place, and a space behind the end
fn byte_at(bytes: &[u8], place: usize) -> u8
    ensures { result ≡ slice_index_or bytes.now place 32 }
{
    match bytes.get(place) {
        Some(byte) => *byte,
        None => b' ',
    }
}

#[tactic(auto, using(crate::proofs::TextLemmas::orders))]
fn bytes_order(a: &[u8], b: &[u8]) -> Ordering
    ensures { plain_order result ≡ text_order a.now b.now }
{
    for place in 0..a.len().max(b.len()) {
        let (left, right) = (byte_at(a, place), byte_at(b, place));
        if left < right {
            return Ordering::Less;
        }
        if right < left {
            return Ordering::Greater;
        }
    }
    Ordering::Equal
}

impl<'a> Text<'a> {
    /// How many bytes it has.
    #[tactic(auto, using(crate::proofs::TextLemmas::digits))]
    pub fn len(&self) -> usize
        ensures { result ≡ length (plain_text self.now) }
    {
        match self {
            Text::Bytes(bytes) => bytes.len(),
            Text::Digits { count, .. } => *count as usize,
            Text::Fill { count, .. } => *count,
        }
    }

    // the byte at a place, and a space behind the end
    #[tactic(auto, using(crate::proofs::TextLemmas::digits))]
    fn at(&self, place: usize) -> u8
        requires { IsShortText self.now }
        ensures { result ≡ slice_index_or (plain_text self.now) place 32 }
    {
        match self {
            Text::Bytes(bytes) => byte_at(bytes, place),
            Text::Digits { count, size } => {
                if place < *count as usize {
                    digit(*size, *count - 1 - place as u32)
                } else {
                    b' '
                }
            }
            Text::Fill { byte, count } => { if place < *count { *byte } else { b' ' } }
        }
    }

    // the order of two texts, place by place
    #[tactic(auto, using(crate::proofs::TextLemmas::orders))]
    fn order_by_places(&self, other: &Text) -> Ordering
        requires left { IsShortText self.now }
        requires right { IsShortText other.now }
        ensures { plain_order result ≡ text_order (plain_text self.now) (plain_text other.now) }
    {
        for place in 0..self.len().max(other.len()) {
            let (left, right) = (self.at(place), other.at(place));
            if left < right {
                return Ordering::Less;
            }
            if right < left {
                return Ordering::Greater;
            }
        }
        Ordering::Equal
    }

    /// The order of two texts. The shorter one counts as followed by spaces, and the first byte that differs decides
    /// (ISO 1989:1985, "Comparison of nonnumeric operands").
    pub fn order(&self, other: &Text) -> Ordering
        requires left { IsShortText self.now }
        requires right { IsShortText other.now }
        ensures { plain_order result ≡ text_order (plain_text self.now) (plain_text other.now) }
    {
        match (self, other) {
            (Text::Bytes(left), Text::Bytes(right)) => bytes_order(left, right),
            _ => self.order_by_places(other),
        }
    }
}
