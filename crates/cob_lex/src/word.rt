//! What a run of characters is: a word, with the reserved word that it may be, or a number.
ghost use Rattle.std.specs.Prelude.{◌≡◌, ◌<◌, ◌≤◌, length, count_by};
ghost use Rattle.std.specs.Bool.{OnTrue};
ghost use Rattle.cob_lex.specs.Characters.{is_letter, is_word_character};
ghost use Rattle.cob_lex.specs.Words.{spelled_keyword};
ghost use Rattle.cob_lex.specs.WordTests.{is_word, digits_in, points_in, is_unsigned, is_minus};

use crate::mark::{ch_at, is_digit, is_letter, is_word_character, tail};
use crate::text::Mark;
use cob_tree::{Keyword, keyword_of};

/// How many characters a word may have.
const LONGEST_WORD: usize = 30;

/// The reserved word that the characters are, in capitals or not.
#[tactic(auto, using(crate::proofs::WordLemmas::long_are_free))]
pub fn spelled_keyword(front: &[Mark]) -> Option<Keyword>
    ensures { result ≡ spelled_keyword front.now }
{
    if LONGEST_WORD < front.len() {
        return None;
    }
    let mut capitals = [0; LONGEST_WORD];
    for place in 0..front.len() {
        capitals[place] = ch_at(front, place).to_ascii_uppercase();
    }
    keyword_of(&capitals[..front.len()])
}

/// Whether the characters are a word.
pub fn is_word(front: &[Mark]) -> bool
    ensures value { result ≡ is_word front.now }
    ensures some { OnTrue result (0 < length front.now) }
{
    1 <= front.len()
        && front.len() <= LONGEST_WORD
        && count_word_characters(front) == front.len()
        && 0 < count_letters(front)
        && ch_at(front, 0) != b'-'
        && ch_at(front, front.len() - 1) != b'-'
}

fn count_word_characters(front: &[Mark]) -> usize
    ensures { result ≡ count_by (λ m. is_word_character m.ch) front.now }
{
    front
        .iter()
        .filter(|mark| is_word_character(mark.ch))
        .count()
}

fn count_letters(front: &[Mark]) -> usize
    ensures { result ≡ count_by (λ m. is_letter m.ch) front.now }
{
    front.iter().filter(|mark| is_letter(mark.ch)).count()
}

fn digits_in(front: &[Mark]) -> usize
    ensures value { result ≡ digits_in front.now }
    ensures within { result ≤ length front.now }
{
    front.iter().filter(|mark| is_digit(mark.ch)).count()
}

fn points_in(front: &[Mark]) -> usize
    ensures value { result ≡ points_in front.now }
    ensures within { result ≤ length front.now }
{
    front.iter().filter(|mark| mark.ch == b'.').count()
}

/// Whether the characters are a number without a sign.
pub fn is_unsigned(front: &[Mark]) -> bool
    ensures value { result ≡ is_unsigned front.now }
    ensures some { OnTrue result (0 < length front.now) }
{
    let digits = digits_in(front);
    let points = points_in(front);
    1 <= digits
        && digits <= 18
        && points <= 1
        && digits + points == front.len()
        && ch_at(front, front.len() - 1) != b'.'
}

/// Whether the characters are a hyphen and a number without a sign.
pub fn is_minus(front: &[Mark]) -> bool
    ensures value { result ≡ is_minus front.now }
    ensures some { OnTrue result (0 < length front.now) }
{
    match front {
        [] => false,
        _ => ch_at(front, 0) == b'-' && is_unsigned(tail(front)),
    }
}
