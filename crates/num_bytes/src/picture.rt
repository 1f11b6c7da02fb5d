//! Numbers in edited items.
ghost use Rattle.std.specs.Prelude.{◌≡◌, ℕ, ◌==◌, ◌&&◌, ◌+◌, ◌<◌, ◌≤◌, if◌then◌else◌, length};
ghost use Rattle.cob_tree.specs.Pictures.{is_place, place_count};
ghost use Rattle.num_bytes.specs.Digits.{digit_at, digit_text, last_digits};
ghost use Rattle.num_bytes.specs.Editing.{CanEdit, all_suppressed, begins_suppressed, edit_bytes, edited, edited_bytes, shown, still_suppressed};

use crate::digits::write_digits;
use cob_tree::Form;

// Whether the symbol is the place of a digit.
pub(crate) fn is_digit_place(symbol: u8) -> bool
    ensures { result ≡ is_place symbol }
{
    symbol == b'9' || symbol == b'Z'
}

// Whether zeros are still suppressed after the symbol.
fn stays_suppressed(on: bool, symbol: u8, digit: u8) -> bool
    ensures { result ≡ still_suppressed on symbol digit }
{
    on && match symbol {
        b'9' | b'.' => false,
        b'Z' => digit == 0,
        _ => true,
    }
}

// What the symbol shows; `on` says whether zeros are still suppressed after it.
fn shown_byte(on: bool, symbol: u8, digit: u8) -> u8
    requires { digit < 10 }
    ensures { result ≡ shown on symbol digit }
{
    match symbol {
        _ if on => b' ',
        b'9' | b'Z' => b'0' + digit,
        b'B' => b' ',
        insertion => insertion,
    }
}

// The digit at the place of this weight among the last digits of a number.
#[tactic(auto, using(crate::proofs::DigitLemmas::digit_text_at))]
fn digit_in(digits: &[u8], number: u64, weight: u32) -> u8
    requires within { weight < length digits.now }
    requires written { digits.now ≡ digit_text (last_digits (length digits.now) number) }
    ensures { result ≡ digit_at weight number }
{
    digits[digits.len() - 1 - weight as usize] - b'0'
}

// How many places of digits the picture has.
fn place_count_of(picture: &[u8]) -> u32
    requires { place_count picture.now ≤ 18 }
    ensures { result ≡ place_count picture.now }
{
    picture
        .iter()
        .filter(|symbol| is_digit_place(**symbol))
        .count() as u32
}

// How many places of digits stand behind the symbol, from their number with the symbol.
fn places_behind(symbol: u8, places: u32) -> u32
    requires { (if is_place symbol then 1 else 0) ≤ places }
    ensures { places ≡ (if is_place symbol then 1 else 0) + result }
{
    if is_digit_place(symbol) {
        places - 1
    } else {
        places
    }
}

// Whether each place is a Z.
fn is_all_suppressed(picture: &[u8]) -> bool
    ensures { result ≡ all_suppressed picture.now }
{
    picture.iter().all(|symbol| *symbol != b'9')
}

// Writes the number of these digits through the picture, from left to right.
fn write_symbols(picture: &[u8], number: u64, digits: &[u8], bytes: &mut [u8])
    requires places { place_count picture.now ≤ 18 }
    requires whole { length bytes.old ≡ length picture.now }
    requires count { length digits.now ≡ place_count picture.now + 1 }
    requires written { digits.now ≡ digit_text (last_digits (length digits.now) number) }
    ensures { bytes.new ≡ edited (begins_suppressed picture.now) picture.now number }
{
    let mut suppressed = picture.first() == Some(&b'Z');
    let mut places = place_count_of(picture);
    for (at, symbol) in picture.iter().enumerate() {
        places = places_behind(*symbol, places);
        let digit = digit_in(digits, number, places);
        suppressed = stays_suppressed(suppressed, *symbol, digit);
        bytes[at] = shown_byte(suppressed, *symbol, digit);
    }
}

// Writes the number through the picture.
fn write_edited(picture: &[u8], number: u64, bytes: &mut [u8])
    requires places { place_count picture.now ≤ 18 }
    requires whole { length bytes.old ≡ length picture.now }
    ensures { bytes.new ≡ edited (begins_suppressed picture.now) picture.now number }
{
    let mut room = [b'0'; 19];
    let digits = &mut room[..place_count_of(picture) as usize + 1];
    write_digits(number, digits);
    write_symbols(picture, number, digits, bytes);
}

fn write_through(picture: &[u8], number: u64, bytes: &mut [u8])
    requires places { place_count picture.now ≤ 18 }
    requires whole { length bytes.old ≡ length picture.now }
    ensures { bytes.new ≡ edited_bytes picture.now number }
{
    if number == 0 && is_all_suppressed(picture) {
        bytes.fill(b' ');
    } else {
        write_edited(picture, number, bytes);
    }
}

/// Shows the number in an edited item: the form is `Edited` with 1 to 18 digits, of which its picture has the
/// places, the bytes are as many as the picture's symbols, and the value is from 0 and has at most the digits,
/// in units of the form's scale.
pub fn edit(form: &Form, value: i64, bytes: &mut [u8])
    requires { CanEdit form.now value (length bytes.old) }
    ensures { bytes.new ≡ edit_bytes form.now value }
{
    if let Form::Edited { picture, .. } = form {
        write_through(picture.get(), value.unsigned_abs(), bytes);
    }
}
