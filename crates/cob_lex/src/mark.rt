//! Characters by their classes, runs of them, and literals.
ghost use Rattle.std.specs.Prelude.{◌≡◌, ◌+◌, ◌-◌, ◌<◌, ◌≤◌, length, drop, take, IfSome, false, if◌then◌else◌};
ghost use Rattle.std.specs.Option.{ForSome};
ghost use Rattle.std.specs.Bool.{OnTrue};
ghost use Rattle.cob_lex.specs.Marks.{class_of, run_len, run_of, literal_len, undoubled, is_closed, half_behind, is_second, closed_at, inside, first_space, solid_len, stripped};
ghost use Rattle.cob_lex.specs.Characters.{ch_at, is_letter, is_digit, is_word_character, is_gap, ends_rightly, goes_on, is_point_comma_semicolon};

use crate::text::Mark;

/// What a character may begin.
#[derive(Clone, Copy)]
pub enum Class {
    Space,
    /// A comma or a semicolon.
    Comma,
    Point,
    Plus,
    /// A parenthesis, `*` or `/`.
    Single,
    EqualSign,
    LessSign,
    GreaterSign,
    QuotationMark,
    /// A letter, a digit or a hyphen.
    Run,
    Other,
}

/// The character at this place, from 0. A text counts as followed by a space.
#[inline(always)]
pub fn ch_at(text: &[Mark], place: usize) -> u8
    ensures { result ≡ ch_at text.now place }
{
    if place < text.len() {
        text[place].ch
    } else {
        b' '
    }
}

#[inline(always)]
pub fn is_letter(ch: u8) -> bool
    ensures { result ≡ is_letter ch }
{
    (b'A' <= ch && ch <= b'Z') || (b'a' <= ch && ch <= b'z')
}

#[inline(always)]
pub fn is_digit(ch: u8) -> bool
    ensures { result ≡ is_digit ch }
{
    b'0' <= ch && ch <= b'9'
}

#[inline(always)]
pub fn is_word_character(ch: u8) -> bool
    ensures { result ≡ is_word_character ch }
{
    is_letter(ch) || is_digit(ch) || ch == b'-'
}

pub fn class_of(ch: u8) -> Class
    ensures { result ≡ class_of ch }
{
    if ch == b' ' {
        Class::Space
    } else if ch == b',' || ch == b';' {
        Class::Comma
    } else if ch == b'.' {
        Class::Point
    } else if ch == b'+' {
        Class::Plus
    } else if ch == b'(' || ch == b')' || ch == b'*' || ch == b'/' {
        Class::Single
    } else if ch == b'=' {
        Class::EqualSign
    } else if ch == b'<' {
        Class::LessSign
    } else if ch == b'>' {
        Class::GreaterSign
    } else if ch == b'"' || ch == b'\'' {
        Class::QuotationMark
    } else if is_word_character(ch) {
        Class::Run
    } else {
        Class::Other
    }
}

/// Whether a separator begins the text.
pub fn is_gap(text: &[Mark]) -> bool
    ensures { result ≡ is_gap text.now }
{
    let first = ch_at(text, 0);
    first == b' ' || ((first == b',' || first == b';') && ch_at(text, 1) == b' ')
}

/// Whether a word, a number or a literal may stand before this text.
pub fn ends_rightly(text: &[Mark]) -> bool
    ensures { result ≡ ends_rightly text.now }
{
    let first = ch_at(text, 0);
    first == b' '
        || first == b'('
        || first == b')'
        || first == b'<'
        || first == b'='
        || first == b'>'
        || ((first == b',' || first == b'.' || first == b';') && ch_at(text, 1) == b' ')
}

#[inline(always)]
fn goes_on(text: &[Mark]) -> bool
    ensures value { result ≡ goes_on text.now }
    ensures some { OnTrue result (0 < length text.now) }
{
    let first = ch_at(text, 0);
    is_word_character(first) || (first == b'.' && is_digit(ch_at(text, 1)))
}

/// The text behind its first character.
#[inline(always)]
pub fn tail(text: &[Mark]) -> &[Mark]
    requires { 0 < length text.now }
    ensures value { result.now ≡ drop 1 text.now }
    ensures len { length result.now + 1 ≡ length text.now }
{
    &text[1..]
}

#[tactic(auto, using(crate::proofs::MarkLemmas::run_more, crate::proofs::MarkLemmas::run_len_off, crate::proofs::MarkLemmas::run_len_nil))]
fn run_len(text: &[Mark]) -> usize
    ensures value { result ≡ run_len text.now }
    ensures within { result ≤ length text.now }
{
    let mut rest = text;
    let mut count = 0;
    while goes_on(rest) {
        rest = tail(rest);
        count += 1;
    }
    count
}

/// The run of letters, digits, hyphens and inner points at the beginning of the text.
pub fn run_of(text: &[Mark]) -> &[Mark]
    ensures value { result.now ≡ run_of text.now }
    ensures len { length result.now ≡ run_len text.now }
    ensures within { length result.now ≤ length text.now }
{
    &text[..run_len(text)]
}

/// Whether a literal's closing mark stands before this text.
#[inline(always)]
fn is_closed(quote: u8, half: bool, text: &[Mark]) -> bool
    ensures { result ≡ is_closed quote half text.now }
{
    half && ch_at(text, 0) != quote
}

/// Whether a mark that closes or is the first of two stands before the tail.
#[inline(always)]
pub fn half_behind(quote: u8, half: bool, text: &[Mark]) -> bool
    ensures { result ≡ half_behind quote half text.now }
{
    !half && ch_at(text, 0) == quote
}

/// Whether a mark stands here that is the second of two.
#[inline(always)]
pub fn is_second(quote: u8, half: bool, text: &[Mark]) -> bool
    ensures { result ≡ is_second quote half text.now }
{
    half && ch_at(text, 0) == quote
}

fn closed_at(half: bool, count: usize) -> Option<usize>
    ensures { result ≡ closed_at half count }
{
    if half { Some(count) } else { None }
}

/// How many characters there are through the mark that closes a literal.
#[tactic(auto, using(crate::proofs::MarkLemmas::literal_more, crate::proofs::MarkLemmas::literal_stops, crate::proofs::MarkLemmas::literal_ends))]
pub fn literal_len(quote: u8, text: &[Mark]) -> Option<usize>
    ensures value { result ≡ literal_len quote false text.now }
    ensures within { ForSome result (λ n. n ≤ length text.now) }
{
    let mut rest = text;
    let mut half = false;
    let mut count = 0;
    while !rest.is_empty() {
        if is_closed(quote, half, rest) {
            return Some(count);
        }
        half = half_behind(quote, half, rest);
        rest = tail(rest);
        count += 1;
    }
    closed_at(half, count)
}

/// What stands between the first and the last character.
pub fn inside(front: &[Mark]) -> &[Mark]
    ensures { result.now ≡ inside front.now }
{
    if front.len() < 2 {
        &front[..0]
    } else {
        &front[1..front.len() - 1]
    }
}

/// How many characters a literal has, doubled marks counted once.
#[tactic(auto, using(crate::proofs::MarkLemmas::undoubled_skips, crate::proofs::MarkLemmas::undoubled_counts, crate::proofs::MarkLemmas::undoubled_nil))]
pub fn content_len(quote: u8, inside: &[Mark]) -> usize
    ensures value { result ≡ length (undoubled quote false inside.now) }
{
    let mut rest = inside;
    let mut half = false;
    let mut count = 0;
    while !rest.is_empty() {
        count += 1 - usize::from(is_second(quote, half, rest));
        half = half_behind(quote, half, rest);
        rest = tail(rest);
    }
    count
}

fn first_space(text: &[Mark]) -> Option<usize>
    ensures value { result ≡ first_space text.now }
    ensures within { IfSome result (λ k. k < length text.now) }
{
    text.iter().position(|mark| mark.ch == b' ')
}

/// How long the text is up to its first space.
pub fn solid_len(text: &[Mark]) -> usize
    ensures value { result ≡ solid_len text.now }
    ensures within { result ≤ length text.now }
{
    match first_space(text) {
        Some(place) => place,
        None => text.len(),
    }
}

fn is_point_comma_semicolon(ch: u8) -> bool
    ensures { result ≡ is_point_comma_semicolon ch }
{
    ch == b',' || ch == b'.' || ch == b';'
}

/// Without a last point, comma or semicolon.
pub fn stripped(front: &[Mark]) -> &[Mark]
    ensures value { result.now ≡ stripped front.now }
    ensures shorter { length result.now ≤ length front.now }
{
    let last = front.len().saturating_sub(1);
    if is_point_comma_semicolon(ch_at(front, last)) {
        &front[..last]
    } else {
        front
    }
}
