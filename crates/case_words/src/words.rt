//! Single words.
ghost use Rattle.std.specs.Prelude.{◌≡◌, [], ◌∷◌, map, IfNone, IfSome};
ghost use Rattle.case_words.specs.Words.{how_word, mode_word, relation_word, IsNoHow, IsNoMode};

use cob_program::How;
use cob_tree::{Bytes, Num, Rel};
use dec_num::Mode;
use interval_domain::Interval;
use std::alloc::{AllocError, Global};

/// The words of a part of a line.
pub fn words_of<'a>(alloc: Global, part: &'a str) -> Result<Vec<&'a str>, AllocError> {
    let mut words = Vec::new(alloc);
    for word in part.split(' ') {
        if !word.is_empty() {
            words.push(word)?;
        }
    }
    Ok(words)
}

/// Whether a test is to hold.
pub fn wanted_of(words: &[&str]) -> Option<bool> {
    match words {
        ["true"] => Some(true),
        ["false"] => Some(false),
        _ => None,
    }
}

// ---- relations, modes, and what a receiver gets

/// The relation that a word is.
pub fn relation_of(words: &[&str]) -> Option<Rel>
    ensures { IfSome result (λ relation. map (λ word. word.now) words.now ≡ relation_word relation ∷ []) }
{
    match words {
        ["="] => Some(Rel::Equal),
        ["<"] => Some(Rel::Less),
        [">"] => Some(Rel::Greater),
        [">="] => Some(Rel::AtLeast),
        ["<="] => Some(Rel::AtMost),
        _ => None,
    }
}

/// The word for a relation.
pub fn relation_word(relation: Rel) -> &'static str
    ensures { result.now ≡ relation_word relation }
{
    match relation {
        Rel::Equal => "=",
        Rel::Less => "<",
        Rel::Greater => ">",
        Rel::AtLeast => ">=",
        Rel::AtMost => "<=",
    }
}

/// What becomes of digits past the last kept one.
pub fn mode_of(word: &str) -> Option<Mode>
    ensures read { IfSome result (λ mode. word.now ≡ mode_word mode) }
    ensures none { IfNone result (IsNoMode word.now) }
{
    match word {
        "cut" => Some(Mode::Trunc),
        "rounded" => Some(Mode::Round),
        _ => None,
    }
}

/// The word for a mode.
pub fn mode_word(mode: Mode) -> &'static str
    ensures { result.now ≡ mode_word mode }
{
    match mode {
        Mode::Trunc => "cut",
        Mode::Round => "rounded",
    }
}

/// What a receiver gets of a sum.
pub fn how_of(word: &str) -> Option<How>
    ensures read { IfSome result (λ how. word.now ≡ how_word how) }
    ensures none { IfNone result (IsNoHow word.now) }
{
    match word {
        "whole" => Some(How::Whole),
        "plus" => Some(How::Plus),
        "minus" => Some(How::Minus),
        "times" => Some(How::Times),
        "under" => Some(How::Under),
        _ => None,
    }
}

/// The word for what a receiver gets.
pub fn how_word(how: How) -> &'static str
    ensures { result.now ≡ how_word how }
{
    match how {
        How::Whole => "whole",
        How::Plus => "plus",
        How::Minus => "minus",
        How::Times => "times",
        How::Under => "under",
    }
}

// ---- items and numbers

/// The place that `i0` and its like name.
pub fn place_of(word: &str) -> Option<u32> {
    word.strip_prefix('i')?.parse::<u32>().ok()
}

/// A literal, with its sign and its point.
pub fn literal_of(alloc: Global, word: &str) -> Result<Num, AllocError> {
    let (sign, written) = match word.strip_prefix('-') {
        Some(written) => (b'-', written),
        None => (0, word),
    };
    let (whole, decimals) = written.split_once('.').unwrap_or((written, ""));
    let digits = format!(in alloc; "{whole}{decimals}")?;
    Ok(Num {
        sign,
        digits: Bytes::of(alloc, digits.as_bytes())?,
        scale: decimals.len().min(99) as u32,
    })
}

/// The interval between two numbers.
pub fn interval_of(low: &str, high: &str) -> Option<Interval> {
    Some(Interval {
        low: low.parse::<i128>().ok()?,
        high: high.parse::<i128>().ok()?,
    })
}
