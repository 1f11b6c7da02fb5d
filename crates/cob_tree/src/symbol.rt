//! The symbols of a picture, written out.
ghost use Rattle.std.specs.Prelude.{◌≡◌, ◌+◌, ◌-◌, ◌<◌, ◌≤◌, ◌++◌, length, drop, replicate, Option, Some, None, IfSome, IfOk, IfErr, OnOk};
ghost use Rattle.cob_tree.specs.Pictures.{is_numeric_symbol, is_alphanumeric_symbol, is_place, is_edited_symbol, is_symbol, begins_with, most_bytes};
ghost use Rattle.cob_tree.specs.PictureForms.{is_count, count_value, closing, repeated, run_behind, first_run, picture_word, IfBad};

use crate::picture::PicEnd;
use std::alloc::{AllocError, Global};

/// The greatest number of bytes of an item.
const MOST_BYTES: usize = 1_048_576;

/// A symbol in capitals, how often it stands, and how many characters spell it with its count.
#[derive(Clone, Copy)]
pub struct Run {
    pub symbol: u8,
    pub count: usize,
    pub length: usize,
}

pub fn is_numeric_symbol(symbol: u8) -> bool
    ensures { result ≡ is_numeric_symbol symbol }
{
    symbol == b'9' || symbol == b'S' || symbol == b'V'
}

pub fn is_alphanumeric_symbol(symbol: u8) -> bool
    ensures { result ≡ is_alphanumeric_symbol symbol }
{
    symbol == b'9' || symbol == b'X'
}

pub fn is_place(symbol: u8) -> bool
    ensures { result ≡ is_place symbol }
{
    symbol == b'9' || symbol == b'Z'
}

pub fn is_edited_symbol(symbol: u8) -> bool
    ensures { result ≡ is_edited_symbol symbol }
{
    is_place(symbol)
        || symbol == b','
        || symbol == b'B'
        || symbol == b'0'
        || symbol == b'/'
        || symbol == b'.'
}

fn is_symbol(symbol: u8) -> bool
    ensures { result ≡ is_symbol symbol }
{
    is_numeric_symbol(symbol) || is_alphanumeric_symbol(symbol) || is_edited_symbol(symbol)
}

/// The number of a count. Digits beyond what an item can have leave it at one byte too many.
fn count_value(digits: &[u8]) -> Option<usize>
    ensures value { result ≡ count_value digits.now }
    ensures some { IfSome result (λ n. n ≤ most_bytes) }
{
    let mut value = 0;
    for digit in digits {
        if !digit.is_ascii_digit() {
            return None;
        }
        value = (value * 10 + usize::from(*digit - b'0')).min(MOST_BYTES + 1);
    }
    if 1 <= value && value <= MOST_BYTES {
        Some(value)
    } else {
        None
    }
}

fn closing(text: &[u8]) -> Option<usize>
    ensures value { result ≡ closing text.now }
    ensures within { IfSome result (λ n. n < length text.now) }
{
    text.iter().position(|c| *c == b')')
}

/// The symbol whose count stands at the beginning of the text, behind its opening parenthesis.
fn repeated(symbol: u8, text: &[u8]) -> Option<Run>
    ensures value { result ≡ repeated symbol (closing text.now) text.now }
    ensures within { IfSome result (λ r. r.length ≤ length text.now + 2) }
    ensures some { IfSome result (λ r. 0 < r.length) }
    ensures count { IfSome result (λ r. r.count ≤ most_bytes) }
{
    let digits = closing(text)?;
    let count = count_value(&text[..digits])?;
    Some(Run {
        symbol,
        count,
        length: digits + 3,
    })
}

fn is_open(text: &[u8]) -> bool
    ensures { result ≡ begins_with 40 text.now }
{
    text.first() == Some(&b'(')
}

/// The symbol, from what stands behind its character.
fn run_behind(symbol: u8, text: &[u8]) -> Option<Run>
    ensures value { result ≡ run_behind symbol text.now }
    ensures within { IfSome result (λ r. r.length ≤ length text.now + 1) }
    ensures some { IfSome result (λ r. 0 < r.length) }
    ensures count { IfSome result (λ r. r.count ≤ most_bytes) }
{
    if is_open(text) {
        repeated(symbol, &text[1..])
    } else {
        Some(Run {
            symbol,
            count: 1,
            length: 1,
        })
    }
}

/// What follows so many characters.
fn behind(text: &[u8], count: usize) -> &[u8]
    requires { count ≤ length text.now }
    ensures value { result.now ≡ drop count text.now }
    ensures len { length result.now + count ≡ length text.now }
{
    &text[count..]
}

/// The symbol at the beginning of a text that isn't empty.
#[tactic(auto, using(crate::proofs::PictureLemmas::first_run_is, crate::proofs::PictureLemmas::first_run_none))]
fn first_run(text: &[u8]) -> Option<Run>
    requires { 0 < length text.now }
    ensures value { result ≡ first_run text.now }
    ensures within { IfSome result (λ r. r.length ≤ length text.now) }
    ensures some { IfSome result (λ r. 0 < r.length) }
    ensures count { IfSome result (λ r. r.count ≤ most_bytes) }
{
    let symbol = text[0].to_ascii_uppercase();
    if is_symbol(symbol) {
        run_behind(symbol, behind(text, 1))
    } else {
        None
    }
}

/// Writes a symbol out.
fn push_run(word: &mut Vec<u8>, run: Run) -> Result<(), AllocError>
    requires run { run.count ≤ most_bytes }
    requires word { length word.old.items ≤ most_bytes }
    ensures items { OnOk result (word.new.items ≡ word.old.items ++ replicate run.count run.symbol) }
    ensures len { OnOk result (length word.new.items ≡ length word.old.items + run.count) }
{
    word.resize(word.len() + run.count, run.symbol)?;
    Ok(())
}

/// The symbols of a picture in capitals, its repetitions written out; none where there are more of
/// them than an item can have bytes.
#[tactic(auto, using(crate::proofs::PictureLemmas::word_step, crate::proofs::PictureLemmas::word_stops, crate::proofs::PictureLemmas::word_ends, crate::proofs::PictureLemmas::word_is_long, crate::proofs::PictureLemmas::prefixed_nil))]
pub fn picture_word(alloc: Global, text: &[u8]) -> Result<Vec<u8>, PicEnd>
    ensures word { IfOk result (λ word. picture_word text.now ≡ Some word.items) }
    ensures bad { IfErr result (λ end. IfBad end (picture_word text.now ≡ None)) }
    ensures short { IfOk result (λ word. length word.items ≤ most_bytes) }
{
    let mut word = Vec::new(alloc);
    let mut rest = text;
    while !rest.is_empty() {
        let Some(run) = first_run(rest) else {
            return Err(PicEnd::Bad);
        };
        if MOST_BYTES < word.len() + run.count {
            return Err(PicEnd::Bad);
        }
        push_run(&mut word, run)?;
        rest = behind(rest, run.length);
    }
    Ok(word)
}
