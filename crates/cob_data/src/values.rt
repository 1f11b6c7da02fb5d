//! Constants: whether they fit an item, and their order.
ghost use Rattle.std.specs.Prelude.{◌≡◌, ◌≤◌, ◌<◌, ◌+◌, ◌-◌, ◌*◌, ◌^◌, ◌&&◌, min, take, drop, length};
ghost use Rattle.cob_data.specs.Values.{all_zeros, whole, decimals, is_negative, number_fits, value_behind, is_number, has_category, has_room, holds_alone, holds, character, at_most_from, constant_length, text_at_most, as_text, whole_length, aligned, magnitude_at_most, number_at_most, at_most};

use crate::description::Span;
use crate::layout::Sender;
use crate::slice::behind;
use cob_tree::{Form, Num};
use std::marker::Model;

// ---- numerals

fn all_zeros(digits: &[u8]) -> bool
    ensures { result ≡ all_zeros digits.now }
{
    digits.iter().all(|c| *c == b'0')
}

fn whole_length(number: &Num) -> usize
    ensures value { result ≡ whole_length number.now }
    ensures within { result ≤ length number.now.digits }
    ensures small { result < 2 ^ 63 }
{
    number
        .digits
        .get()
        .len()
        .saturating_sub(number.scale as usize)
}

/// The digits before the point.
fn whole(number: &Num) -> &[u8]
    ensures { result.now ≡ whole number.now }
{
    &number.digits.get()[..whole_length(number)]
}

/// The digits behind the point.
fn decimals(number: &Num) -> &[u8]
    ensures { result.now ≡ decimals number.now }
{
    &number.digits.get()[whole_length(number)..]
}

fn is_negative(number: &Num) -> bool
    ensures { result ≡ is_negative number.now }
{
    number.sign == b'-' && !all_zeros(number.digits.get())
}

/// The digits before the point for which there are no places.
fn excess(digits: &[u8], places: usize) -> &[u8]
    ensures { result.now ≡ take (length digits.now - places) digits.now }
{
    &digits[..digits.len().saturating_sub(places)]
}

fn number_fits(digits: u32, scale: u32, signed: bool, number: &Num) -> bool
    ensures { result ≡ number_fits digits scale signed number.now }
{
    let places = digits.saturating_sub(scale);
    all_zeros(excess(whole(number), places as usize))
        && all_zeros(behind(decimals(number), scale as usize))
        && (signed || !is_negative(number))
}

// ---- constants for items

pub fn has_category(form: &Form, constant: &Sender) -> bool
    ensures { result ≡ has_category form.now constant.now }
{
    match (form, constant) {
        (Form::Number { .. }, Sender::Number(_) | Sender::Zero) => true,
        (Form::Text { .. }, Sender::Text(_) | Sender::Fill(_) | Sender::Zero) => true,
        _ => false,
    }
}

fn has_room(form: &Form, constant: &Sender) -> bool
    ensures { result ≡ has_room form.now constant.now }
{
    match (form, constant) {
        (
            Form::Number {
                digits,
                scale,
                signed,
                ..
            },
            Sender::Number(number),
        ) => number_fits(*digits, *scale, *signed, number),
        (Form::Text { length }, Sender::Text(text)) => text.get().len() <= *length as usize,
        _ => true,
    }
}

fn holds_alone(form: &Form, low: &Sender, high: &Option<Sender>) -> bool
    ensures { result ≡ holds_alone form.now low.now high.now }
{
    match high {
        None => has_category(form, low) && has_room(form, low),
        Some(_) => false,
    }
}

/// Whether the values are one constant that an item of this form can hold.
pub fn holds(form: &Form, values: &[Span]) -> bool
    ensures { result ≡ holds form.now values.now }
{
    match values {
        [span] => holds_alone(form, &span.low, &span.high),
        _ => false,
    }
}

// ---- the value of a numeral

/// The number that digits write, or 2^70 where it isn't below that.
fn value(digits: &[u8]) -> u128
    ensures { result ≡ min (value_behind 0 digits.now) (2 ^ 70) }
{
    let mut value: u128 = 0;
    for c in digits {
        let digit = u128::from(*c).saturating_sub(48);
        value = (value * 10 + digit).min(1 << 70);
    }
    value
}

/// Whether a numeral has this value.
pub fn is_number(number: &Num, count: u64) -> bool
    ensures { result ≡ is_number number.now count }
{
    value(whole(number)) == u128::from(count) && all_zeros(decimals(number)) && !is_negative(number)
}

// ---- which is at most another

/// A text between characters of one kind: so many before it, and as many behind it as are asked for.
#[derive(Drop)]
pub struct Bordered<'a> {
    shift: usize,
    text: &'a [u8],
    fill: u8,
}

impl<'a> Model for Bordered<'a> {
    ghost use Rattle.cob_data.specs.Values.{Padded};

    ghost Value = { Padded };

    ghost view = { λ b. record { shift = b.shift; text = b.text.now; fill = b.fill } };
}

fn character(text: &Bordered, place: usize) -> u8
    ensures { result ≡ character text.now place }
{
    if place < text.shift {
        text.fill
    } else {
        let inside = place - text.shift;
        if inside < text.text.len() {
            text.text[inside]
        } else {
            text.fill
        }
    }
}

/// Whether one text isn't above another in the first places.
fn at_most_from(places: usize, low: &Bordered, high: &Bordered) -> bool
    ensures { result ≡ at_most_from places 0 low.now high.now }
{
    for place in 0..places {
        let a = character(low, place);
        let b = character(high, place);
        if a != b {
            return a < b;
        }
    }
    true
}

fn constant_length(constant: &Sender) -> usize
    ensures { result ≡ constant_length constant.now }
{
    match constant {
        Sender::Text(text) => text.get().len(),
        Sender::Item(_) | Sender::Number(_) | Sender::Fill(_) | Sender::Zero => 1,
    }
}

fn as_text(constant: &Sender) -> Bordered
    ensures { result ≡ as_text constant.now }
{
    match constant {
        Sender::Text(text) => Bordered {
            shift: 0,
            text: text.get(),
            fill: b' ',
        },
        Sender::Fill(byte) => Bordered {
            shift: 0,
            text: &[],
            fill: *byte,
        },
        Sender::Item(_) | Sender::Number(_) | Sender::Zero => Bordered {
            shift: 0,
            text: &[],
            fill: b'0',
        },
    }
}

fn text_at_most(low: &Sender, high: &Sender) -> bool
    ensures { result ≡ text_at_most low.now high.now }
{
    let places = constant_length(low).max(constant_length(high));
    at_most_from(places, &as_text(low), &as_text(high))
}

/// The digits with so many places before the point.
fn aligned(places: usize, number: &Num) -> Bordered
    ensures { result ≡ aligned places number.now }
{
    Bordered {
        shift: places.saturating_sub(whole_length(number)),
        text: number.digits.get(),
        fill: b'0',
    }
}

fn magnitude_at_most(low: &Num, high: &Num) -> bool
    ensures { result ≡ magnitude_at_most low.now high.now }
{
    let places = whole_length(low).max(whole_length(high));
    let decimals = low.scale.max(high.scale) as usize;
    at_most_from(
        places + decimals,
        &aligned(places, low),
        &aligned(places, high),
    )
}

fn number_at_most(low: &Num, high: &Num) -> bool
    ensures { result ≡ number_at_most low.now high.now }
{
    if is_negative(low) {
        if is_negative(high) {
            magnitude_at_most(high, low)
        } else {
            true
        }
    } else if is_negative(high) {
        false
    } else {
        magnitude_at_most(low, high)
    }
}

/// Whether one end of a range isn't above the other.
pub fn at_most(low: &Sender, high: &Sender) -> bool
    ensures { result ≡ at_most low.now high.now }
{
    match (low, high) {
        (Sender::Number(low), Sender::Number(high)) => number_at_most(low, high),
        (Sender::Number(low), Sender::Zero) => { is_negative(low) || all_zeros(low.digits.get()) }
        (Sender::Zero, Sender::Number(high)) => !is_negative(high),
        _ => text_at_most(low, high),
    }
}
