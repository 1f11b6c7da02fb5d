//! The form of an item, from its picture.
ghost use Rattle.std.specs.Prelude.{◌≡◌, ◌==◌, ◌<◌, ◌≤◌, not, length, drop, Some, None, IfSome, IfOk, IfErr};
ghost use Rattle.std.specs.List.{list_all, list_any, position};
ghost use Rattle.cob_tree.specs.Pictures.{has, symbol_count, behind_first, begins_with, place_count, is_digit_count, is_alphanumeric, suppresses_rightly, may_suppress, is_inserted_rightly, is_numeric_symbol, is_alphanumeric_symbol, is_edited_symbol, is_edited, most_bytes, IsPicture, IsAllowed};
ghost use Rattle.cob_tree.specs.declared.form.Form.{Form};
ghost use Rattle.cob_tree.specs.declared.picture.PicEnd.TheVariants.{Memory};
ghost use Rattle.cob_tree.specs.PictureForms.{is_signed_rightly, is_numeric, number_form, text_form, edited_form, form_of_word, picture_form, IfBad};

use crate::bytes::Bytes;
use crate::form::{Form, Usage};
use crate::symbol::{
    is_alphanumeric_symbol, is_edited_symbol, is_numeric_symbol, is_place, picture_word,
};
use std::alloc::{AllocError, AllocFailed, Global};

/// Why a picture has no form.
#[derive(Clone, Copy, PartialEq, Eq)]
pub enum PicEnd {
    /// The picture isn't allowed.
    Bad,
    /// Memory ran out.
    Memory,
}

impl<T: Drop> From<AllocFailed<T>> for PicEnd {
    ghost from_gives = { λ _ e. e ≡ Memory };

    fn from(_failed: AllocFailed<T>) -> PicEnd {
        PicEnd::Memory
    }
}

impl From<AllocError> for PicEnd {
    ghost from_gives = { λ _ e. e ≡ Memory };

    fn from(_failed: AllocError) -> PicEnd {
        PicEnd::Memory
    }
}

fn has(symbol: u8, word: &[u8]) -> bool
    ensures { result ≡ has symbol word.now }
{
    word.iter().any(|c| *c == symbol)
}

fn symbol_count(symbol: u8, word: &[u8]) -> u32
    requires { length word.now ≤ most_bytes }
    ensures { result ≡ symbol_count symbol word.now }
{
    word.iter().filter(|c| **c == symbol).count() as u32
}

fn place_count(word: &[u8]) -> u32
    requires { length word.now ≤ most_bytes }
    ensures { result ≡ place_count word.now }
{
    word.iter().filter(|c| is_place(**c)).count() as u32
}

fn place_of(symbol: u8, word: &[u8]) -> Option<usize>
    ensures value { result ≡ position (λ c. c == symbol) word.now }
    ensures within { IfSome result (λ place. place < length word.now) }
{
    word.iter().position(|c| *c == symbol)
}

/// What stands behind the first such symbol.
fn behind_first(symbol: u8, word: &[u8]) -> &[u8]
    ensures value { result.now ≡ behind_first symbol word.now }
    ensures within { length result.now ≤ length word.now }
{
    match place_of(symbol, word) {
        None => &[],
        Some(place) => &word[place + 1..],
    }
}

fn begins_with(symbol: u8, word: &[u8]) -> bool
    requires { 0 < symbol }
    ensures { result ≡ begins_with symbol word.now }
{
    !word.is_empty() && word[0] == symbol
}

fn behind_sign(word: &[u8]) -> &[u8]
    ensures { result.now ≡ drop 1 word.now }
{
    if word.is_empty() { word } else { &word[1..] }
}

fn is_digit_count(count: u32) -> bool
    ensures { result ≡ is_digit_count count }
{
    1 <= count && count <= 18
}

fn is_signed_rightly(word: &[u8]) -> bool
    requires { length word.now ≤ most_bytes }
    ensures { result ≡ is_signed_rightly word.now }
{
    !has(b'S', behind_sign(word)) && symbol_count(b'V', word) <= 1
}

fn has_numeric_symbols(word: &[u8]) -> bool
    ensures { result ≡ list_all is_numeric_symbol word.now }
{
    word.iter().all(|c| is_numeric_symbol(*c))
}

fn is_numeric(word: &[u8]) -> bool
    requires { length word.now ≤ most_bytes }
    ensures { result ≡ is_numeric word.now }
{
    has_numeric_symbols(word) && is_signed_rightly(word) && is_digit_count(symbol_count(b'9', word))
}

fn has_alphanumeric_symbols(word: &[u8]) -> bool
    ensures { result ≡ list_all is_alphanumeric_symbol word.now }
{
    word.iter().all(|c| is_alphanumeric_symbol(*c))
}

fn is_alphanumeric(word: &[u8]) -> bool
    ensures { result ≡ is_alphanumeric word.now }
{
    has_alphanumeric_symbols(word) && has(b'X', word)
}

fn suppresses_rightly(word: &[u8]) -> bool
    ensures { result ≡ suppresses_rightly word.now }
{
    !has(b'Z', behind_first(b'9', word))
        && !(has(b'Z', behind_first(b'.', word)) && has(b'9', word))
}

fn may_suppress(word: &[u8]) -> bool
    ensures { result ≡ may_suppress word.now }
{
    !has(b'Z', word) || (begins_with(b'Z', word) && suppresses_rightly(word))
}

fn has_other_than_nines(word: &[u8]) -> bool
    ensures { result ≡ list_any (λ c. not (c == 57)) word.now }
{
    word.iter().any(|c| *c != b'9')
}

fn is_inserted_rightly(word: &[u8]) -> bool
    requires { length word.now ≤ most_bytes }
    ensures { result ≡ is_inserted_rightly word.now }
{
    has_other_than_nines(word) && symbol_count(b'.', word) <= 1
}

fn has_edited_symbols(word: &[u8]) -> bool
    ensures { result ≡ list_all is_edited_symbol word.now }
{
    word.iter().all(|c| is_edited_symbol(*c))
}

fn is_edited(word: &[u8]) -> bool
    requires { length word.now ≤ most_bytes }
    ensures { result ≡ is_edited word.now }
{
    has_edited_symbols(word)
        && is_inserted_rightly(word)
        && is_digit_count(place_count(word))
        && may_suppress(word)
}

fn number_form(word: &[u8]) -> Form
    requires { length word.now ≤ most_bytes }
    ensures { result ≡ number_form word.now }
{
    Form::Number {
        digits: symbol_count(b'9', word),
        scale: symbol_count(b'9', behind_first(b'V', word)),
        signed: has(b'S', word),
        usage: Usage::Display,
    }
}

fn text_form(word: &[u8]) -> Form
    requires { length word.now ≤ most_bytes }
    ensures { result ≡ text_form word.now }
{
    Form::Text {
        length: word.len() as u32,
    }
}

fn edited_form(alloc: Global, word: &[u8]) -> Result<Form, AllocError>
    requires { length word.now ≤ most_bytes }
    ensures { IfOk result (λ form. form ≡ edited_form word.now) }
{
    Ok(Form::Edited {
        picture: Bytes::of(alloc, word)?,
        digits: place_count(word),
        scale: place_count(behind_first(b'.', word)),
    })
}

/// The form of the item that a word of symbols describes.
#[tactic(auto, unfolding(crate::specs::PictureForms::form_of_word))]
fn form_of_word(alloc: Global, word: &[u8]) -> Result<Form, PicEnd>
    requires { length word.now ≤ most_bytes }
    ensures form { IfOk result (λ form. form_of_word word.now ≡ Some form) }
    ensures bad { IfErr result (λ end. IfBad end (form_of_word word.now ≡ None)) }
{
    if is_numeric(word) {
        Ok(number_form(word))
    } else if is_alphanumeric(word) {
        Ok(text_form(word))
    } else if is_edited(word) {
        Ok(edited_form(alloc, word)?)
    } else {
        Err(PicEnd::Bad)
    }
}

#[tactic(auto, unfolding(crate::specs::PictureForms::picture_form))]
fn picture_form(alloc: Global, text: &[u8]) -> Result<Form, PicEnd>
    ensures form { IfOk result (λ form. picture_form text.now ≡ Some form) }
    ensures bad { IfErr result (λ end. IfBad end (picture_form text.now ≡ None)) }
{
    let word = picture_word(alloc, text)?;
    form_of_word(alloc, &word)
}

/// The form of the item that a picture describes (ISO 1989:1985, the PICTURE clause), with usage
/// DISPLAY. An edited picture comes in capitals, with its symbols written out.
///
/// Symbols count in either case. Each may have a count of 1 and more in parentheses behind it, with
/// any number of digits. An S is first, a V stands once at most, a picture has 1 to 18 places of
/// digits or an X, and its item 1,048,576 bytes at most. The rules on edited pictures are own.
pub fn picture_of(alloc: Global, text: &[u8]) -> Result<Form, PicEnd>
    ensures picture { IfOk result (λ form. IsPicture text.now form) }
    ensures bad { IfErr result (λ end. IfBad end ((form : Form) → ¬ IsPicture text.now form)) }
    ensures form { IfOk result (λ form. picture_form text.now ≡ Some form) }
    ensures no_form { IfErr result (λ end. IfBad end (picture_form text.now ≡ None)) }
    ensures allowed { IfOk result IsAllowed }
{
    picture_form(alloc, text)
}
