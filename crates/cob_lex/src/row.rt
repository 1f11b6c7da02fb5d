//! The rewriting of words and relations.
ghost use Rattle.std.specs.Prelude.{◌≡◌, ◌+◌, ◌<◌, ◌++◌, length, IfOk, OnOk, false};
ghost use Rattle.cob_lex.specs.Rows.{fate_of, pair_of, row_of, row_at, head, keyword_at, shaped, fated, reworded, weakened, equal, comparison, compared_at, words_of, relation_or, related, is_stop, is_digit_alone, padded_one, padded, rewritten};

use crate::cut::Shape;
use crate::piece::{Piece, behind};
use cob_tree::{Keyword, Rel};
use std::alloc::{AllocError, Global};

/// What becomes of a token.
#[derive(Clone, Copy)]
pub enum Fate {
    Keep,
    Becomes(Keyword),
    Dropped,
}

/// What becomes of the first of so many tokens. The others are left out.
#[derive(Clone, Copy)]
pub struct Row {
    pub fate: Fate,
    pub words: usize,
}

/// A relation that stands in so many words.
#[derive(Clone, Copy)]
pub struct Compared {
    pub relation: Rel,
    pub words: usize,
}

/// What a row of one word makes of it.
fn fate_of(word: Option<Keyword>) -> Fate
    ensures { result ≡ fate_of word }
{
    match word {
        Some(Keyword::Picture) => Fate::Becomes(Keyword::Pic),
        Some(Keyword::Through) => Fate::Becomes(Keyword::Thru),
        Some(Keyword::In) => Fate::Becomes(Keyword::Of),
        Some(Keyword::Id) => Fate::Becomes(Keyword::Identification),
        Some(Keyword::Comp | Keyword::Computational) => Fate::Becomes(Keyword::Binary),
        Some(Keyword::Comp3 | Keyword::Computational3) => Fate::Becomes(Keyword::PackedDecimal),
        Some(Keyword::Zeros | Keyword::Zeroes) => Fate::Becomes(Keyword::Zero),
        Some(Keyword::Spaces) => Fate::Becomes(Keyword::Space),
        Some(Keyword::Quotes) => Fate::Becomes(Keyword::Quote),
        Some(Keyword::HighValues) => Fate::Becomes(Keyword::HighValue),
        Some(Keyword::LowValues) => Fate::Becomes(Keyword::LowValue),
        Some(Keyword::Values) => Fate::Becomes(Keyword::Value),
        Some(
            Keyword::Is
            | Keyword::Are
            | Keyword::Than
            | Keyword::Then
            | Keyword::On
            | Keyword::At
            | Keyword::With
            | Keyword::Mode
            | Keyword::Contains
            | Keyword::Character
            | Keyword::Characters
            | Keyword::Record
            | Keyword::Records
            | Keyword::Next
            | Keyword::Usage
            | Keyword::Sign,
        ) => Fate::Dropped,
        _ => Fate::Keep,
    }
}

/// What two words become that are a row.
fn pair_of(first: Option<Keyword>, second: Option<Keyword>) -> Option<Keyword>
    ensures { result ≡ pair_of first second }
{
    match (first, second) {
        (Some(Keyword::Record), Some(Keyword::Contains)) => Some(Keyword::RecordSize),
        (Some(Keyword::File), Some(Keyword::Status)) => Some(Keyword::Status),
        (Some(Keyword::Go), Some(Keyword::To)) => Some(Keyword::Go),
        (Some(Keyword::Assign), Some(Keyword::To)) => Some(Keyword::Assign),
        (Some(Keyword::End), Some(Keyword::Program)) => Some(Keyword::EndProgram),
        _ => None,
    }
}

/// The row for a word and the token behind it.
fn row_of(word: Option<Keyword>, next: Option<Keyword>) -> Row
    ensures value { result ≡ row_of word next }
    ensures some { 0 < result.words }
{
    match pair_of(word, next) {
        Some(pair) => Row {
            fate: Fate::Becomes(pair),
            words: 2,
        },
        None => Row {
            fate: fate_of(word),
            words: 1,
        },
    }
}

/// The first token.
pub fn head(pieces: &[Piece]) -> Piece
    requires { 0 < length pieces.now }
    ensures { result ≡ head pieces.now }
{
    pieces[0]
}

/// The reserved word at this place of the tokens, from 0.
fn keyword_at(pieces: &[Piece], place: usize) -> Option<Keyword>
    ensures { result ≡ keyword_at pieces.now place }
{
    if place < pieces.len() {
        pieces[place].shape.keyword()
    } else {
        None
    }
}

impl Piece {
    fn shaped(self, shape: Shape) -> Piece
        ensures { result ≡ shaped shape self }
    {
        Piece {
            shape,
            start: self.start,
            length: self.length,
            line: self.line,
            column: self.column,
        }
    }
}

fn push_fated(done: &mut Vec<Piece>, fate: Fate, piece: Piece) -> Result<(), AllocError>
    ensures { OnOk result (done.new.items ≡ done.old.items ++ fated fate piece) }
{
    match fate {
        Fate::Dropped => Ok(()),
        Fate::Keep => {
            done.push(piece)?;
            Ok(())
        }
        Fate::Becomes(word) => {
            done.push(piece.shaped(Shape::Word(Some(word))))?;
            Ok(())
        }
    }
}

/// The row at the beginning of the tokens.
fn row_at(pieces: &[Piece]) -> Row
    ensures value { result ≡ row_at pieces.now }
    ensures some { 0 < result.words }
{
    row_of(keyword_at(pieces, 0), keyword_at(pieces, 1))
}

/// The tokens after the rows of words.
fn reworded(alloc: Global, pieces: &[Piece]) -> Result<Vec<Piece>, AllocError>
    ensures { IfOk result (λ v. v.items ≡ reworded 0 pieces.now) }
{
    let mut done = Vec::new(alloc);
    let mut rest = pieces;
    while !rest.is_empty() {
        let row = row_at(rest);
        push_fated(&mut done, row.fate, head(rest))?;
        rest = behind(rest, row.words);
    }
    Ok(done)
}

/// GREATER or LESS as it stands, or with OR EQUAL behind it.
fn weakened(
    strict: Rel,
    weak: Rel,
    second: Option<Keyword>,
    third: Option<Keyword>,
    fourth: Option<Keyword>,
) -> Compared
    ensures value { result ≡ weakened strict weak second third fourth }
    ensures some { 0 < result.words }
{
    match (second, third, fourth) {
        (Some(Keyword::Or), Some(Keyword::Equal), Some(Keyword::To)) => Compared {
            relation: weak,
            words: 4,
        },
        (Some(Keyword::Or), Some(Keyword::Equal), _) => Compared {
            relation: weak,
            words: 3,
        },
        _ => Compared {
            relation: strict,
            words: 1,
        },
    }
}

fn equal(second: Option<Keyword>) -> Compared
    ensures value { result ≡ equal second }
    ensures some { 0 < result.words }
{
    Compared {
        relation: Rel::Equal,
        words: if matches!(second, Some(Keyword::To)) {
            2
        } else {
            1
        },
    }
}

fn comparison(
    word: Option<Keyword>,
    second: Option<Keyword>,
    third: Option<Keyword>,
    fourth: Option<Keyword>,
) -> Option<Compared>
    ensures value { result ≡ comparison word second third fourth }
    ensures some { 0 < words_of result }
{
    match word {
        Some(Keyword::Greater) => Some(weakened(Rel::Greater, Rel::AtLeast, second, third, fourth)),
        Some(Keyword::Less) => Some(weakened(Rel::Less, Rel::AtMost, second, third, fourth)),
        Some(Keyword::Equal) => Some(equal(second)),
        _ => None,
    }
}

fn compared_at(pieces: &[Piece]) -> Option<Compared>
    ensures value { result ≡ compared_at pieces.now }
    ensures some { 0 < words_of result }
{
    comparison(
        keyword_at(pieces, 0),
        keyword_at(pieces, 1),
        keyword_at(pieces, 2),
        keyword_at(pieces, 3),
    )
}

fn words_of(compared: Option<Compared>) -> usize
    ensures { result ≡ words_of compared }
{
    match compared {
        None => 1,
        Some(compared) => compared.words,
    }
}

fn relation_or(compared: Option<Compared>, piece: Piece) -> Piece
    ensures { result ≡ relation_or compared piece }
{
    match compared {
        None => piece,
        Some(compared) => piece.shaped(Shape::Relation(compared.relation)),
    }
}

/// The tokens after the rows of relations.
fn related(alloc: Global, pieces: &[Piece]) -> Result<Vec<Piece>, AllocError>
    ensures { IfOk result (λ v. v.items ≡ related 0 pieces.now) }
{
    let mut done = Vec::new(alloc);
    let mut rest = pieces;
    while !rest.is_empty() {
        let compared = compared_at(rest);
        done.push(relation_or(compared, head(rest)))?;
        rest = behind(rest, words_of(compared));
    }
    Ok(done)
}

fn is_stop(shape: Shape) -> bool
    ensures { result ≡ is_stop shape }
{
    match shape {
        Shape::Stop => true,
        Shape::Word(_)
        | Shape::Number
        | Shape::Padded
        | Shape::Literal
        | Shape::Symbol
        | Shape::Relation(_)
        | Shape::PictureString => false,
    }
}

fn is_digit_alone(shape: Shape, length: usize) -> bool
    ensures { result ≡ is_digit_alone shape length }
{
    match shape {
        Shape::Number => length == 1,
        Shape::Word(_)
        | Shape::Padded
        | Shape::Literal
        | Shape::Symbol
        | Shape::Relation(_)
        | Shape::Stop
        | Shape::PictureString => false,
    }
}

fn padded_one(behind_stop: bool, piece: Piece) -> Piece
    ensures { result ≡ padded_one behind_stop piece }
{
    if behind_stop && is_digit_alone(piece.shape, piece.length) {
        piece.shaped(Shape::Padded)
    } else {
        piece
    }
}

/// The tokens after leading zeros.
fn padded(alloc: Global, pieces: &[Piece]) -> Result<Vec<Piece>, AllocError>
    ensures { IfOk result (λ v. v.items ≡ padded false pieces.now) }
{
    let mut done = Vec::new(alloc);
    let mut rest = pieces;
    let mut behind_stop = false;
    while !rest.is_empty() {
        let piece = head(rest);
        done.push(padded_one(behind_stop, piece))?;
        behind_stop = is_stop(piece.shape);
        rest = behind(rest, 1);
    }
    Ok(done)
}

/// The canonical tokens of raw ones.
pub fn rewritten(alloc: Global, pieces: &[Piece]) -> Result<Vec<Piece>, AllocError>
    ensures { IfOk result (λ v. v.items ≡ rewritten pieces.now) }
{
    let words = reworded(alloc, pieces)?;
    let relations = related(alloc, &words)?;
    Ok(padded(alloc, &relations)?)
}
