//! Canonical tokens from pieces of a text.
ghost use Rattle.std.specs.Prelude.{◌≡◌, ◌+◌, ◌++◌, ◌∷◌, [], ◌<◌, ◌≤◌, map, length, take, drop, IfOk, IfSome, OnOk, false};
ghost use Rattle.cob_lex.specs.Marks.{undoubled, undoubled_one, content};
ghost use Rattle.cob_lex.specs.Words.{raised};
ghost use Rattle.cob_lex.specs.Canonical.{written, digits, sign, point, scale, number, tok_of, characters_of, token};
ghost use Rattle.cob_lex.specs.Characters.{characters, is_sign};
ghost use Rattle.cob_lex.specs.Known.{IsKnownWord, IsKnown, IsKnownPiece, AreKnown};

use crate::cut::Shape;
use crate::mark::{ch_at, half_behind, inside, is_digit, is_second, tail};
use crate::piece::{Piece, behind};
use crate::row::head;
use crate::text::Mark;
use cob_tree::{Bytes, Keyword, Name, Num, Tok, Token, Word};
use std::alloc::{AllocError, Global};

fn characters(alloc: Global, front: &[Mark]) -> Result<Bytes, AllocError>
    ensures { IfOk result (λ bytes. bytes ≡ characters front.now) }
{
    let bytes: Vec<u8> = front.iter().map(|mark| mark.ch).collect(alloc)?;
    Ok(Bytes::of(alloc, bytes.as_slice())?)
}

fn raised(alloc: Global, front: &[Mark]) -> Result<Name, AllocError>
    ensures { IfOk result (λ name. name ≡ raised front.now) }
{
    let bytes: Vec<u8> = front
        .iter()
        .map(|mark| mark.ch.to_ascii_uppercase())
        .collect(alloc)?;
    Ok(Name::of(alloc, bytes.as_slice())?)
}

/// A reserved word, and any other as it stands, in capitals.
fn written(alloc: Global, word: Option<Keyword>, front: &[Mark]) -> Result<Word, AllocError>
    requires { IsKnownWord word front.now }
    ensures { IfOk result (λ found. found ≡ written word front.now) }
{
    match word {
        Some(keyword) => Ok(Word::reserved(keyword)),
        None => Ok(Word::free(raised(alloc, front)?)),
    }
}

fn is_sign(ch: u8) -> bool
    ensures { result ≡ is_sign ch }
{
    ch == b'+' || ch == b'-'
}

fn sign(front: &[Mark]) -> u8
    ensures { result ≡ sign front.now }
{
    let first = ch_at(front, 0);
    if is_sign(first) { first } else { 0 }
}

fn point(front: &[Mark]) -> Option<usize>
    ensures value { result ≡ point front.now }
    ensures within { IfSome result (λ k. k < length front.now) }
{
    front.iter().position(|mark| mark.ch == b'.')
}

fn scale(point: Option<usize>, count: usize) -> u32
    ensures { result ≡ scale point count }
{
    match point {
        None => 0,
        Some(place) => count.saturating_sub(place).saturating_sub(1).min(18) as u32,
    }
}

fn digit_bytes(alloc: Global, front: &[Mark]) -> Result<Vec<u8>, AllocError>
    ensures { IfOk result (λ v. v.items ≡ digits front.now) }
{
    front
        .iter()
        .filter(|mark| is_digit(mark.ch))
        .map(|mark| mark.ch)
        .collect(alloc)
}

fn digits(alloc: Global, front: &[Mark]) -> Result<Bytes, AllocError>
    ensures { IfOk result (λ bytes. bytes ≡ digits front.now) }
{
    let bytes = digit_bytes(alloc, front)?;
    Ok(Bytes::of(alloc, bytes.as_slice())?)
}

/// The digits behind a leading zero.
fn padded_digits(alloc: Global, front: &[Mark]) -> Result<Bytes, AllocError>
    ensures { IfOk result (λ bytes. bytes ≡ 48 ∷ digits front.now) }
{
    let digits = digit_bytes(alloc, front)?;
    let mut bytes = Vec::new(alloc);
    bytes.push(b'0')?;
    bytes.extend_from_slice(digits.as_slice())?;
    Ok(Bytes::of(alloc, bytes.as_slice())?)
}

fn number(digits: Bytes, front: &[Mark]) -> Num
    ensures { result ≡ number digits front.now }
{
    Num {
        sign: sign(front),
        digits,
        scale: scale(point(front), front.len()),
    }
}

fn push_undoubled(
    bytes: &mut Vec<u8>,
    quote: u8,
    half: bool,
    text: &[Mark],
) -> Result<(), AllocError>
    ensures { OnOk result (bytes.new.items ≡ bytes.old.items ++ undoubled_one quote half text.now) }
{
    if is_second(quote, half, text) {
        Ok(())
    } else {
        bytes.push(ch_at(text, 0))?;
        Ok(())
    }
}

/// The characters of a literal's inside, with doubled marks once.
fn undoubled(alloc: Global, quote: u8, inside: &[Mark]) -> Result<Vec<u8>, AllocError>
    ensures { IfOk result (λ v. v.items ≡ undoubled quote false inside.now) }
{
    let mut bytes = Vec::new(alloc);
    let mut rest = inside;
    let mut half = false;
    while !rest.is_empty() {
        push_undoubled(&mut bytes, quote, half, rest)?;
        half = half_behind(quote, half, rest);
        rest = tail(rest);
    }
    Ok(bytes)
}

fn content(alloc: Global, front: &[Mark]) -> Result<Bytes, AllocError>
    ensures { IfOk result (λ bytes. bytes ≡ content front.now) }
{
    let bytes = undoubled(alloc, ch_at(front, 0), inside(front))?;
    Ok(Bytes::of(alloc, bytes.as_slice())?)
}

fn tok_of(alloc: Global, shape: Shape, front: &[Mark]) -> Result<Tok, AllocError>
    requires { IsKnown shape front.now }
    ensures { IfOk result (λ tok. tok ≡ tok_of shape front.now) }
{
    match shape {
        Shape::Word(word) => Ok(Tok::Word(written(alloc, word, front)?)),
        Shape::Number => Ok(Tok::Number(number(digits(alloc, front)?, front))),
        Shape::Padded => Ok(Tok::Number(number(padded_digits(alloc, front)?, front))),
        Shape::Literal => Ok(Tok::Text(content(alloc, front)?)),
        Shape::Symbol => Ok(Tok::Mark(ch_at(front, 0))),
        Shape::Relation(relation) => Ok(Tok::Relation(relation)),
        Shape::Stop => Ok(Tok::Stop),
        Shape::PictureString => Ok(Tok::Pic(characters(alloc, front)?)),
    }
}

/// The characters of a token.
fn characters_of(text: &[Mark], piece: Piece) -> &[Mark]
    ensures { result.now ≡ characters_of text.now piece }
{
    let front = behind(text, piece.start);
    if piece.length < front.len() {
        &front[..piece.length]
    } else {
        front
    }
}

fn token_of(alloc: Global, text: &[Mark], piece: Piece) -> Result<Token, AllocError>
    requires { IsKnownPiece text.now piece }
    ensures { IfOk result (λ t. t ≡ token text.now piece) }
{
    Ok(Token {
        tok: tok_of(alloc, piece.shape, characters_of(text, piece))?,
        line: piece.line,
        column: piece.column,
    })
}

fn push_token(tokens: &mut Vec<Token>, token: Token) -> Result<(), AllocError>
    ensures { OnOk result (tokens.new.items ≡ tokens.old.items ++ token ∷ []) }
{
    tokens.push(token)?;
    Ok(())
}

/// The tokens that these pieces of the text are.
pub fn tokens(alloc: Global, text: &[Mark], pieces: &[Piece]) -> Result<Vec<Token>, AllocError>
    requires { AreKnown text.now pieces.now }
    ensures { IfOk result (λ v. v.items ≡ map (token text.now) pieces.now) }
{
    let mut tokens = Vec::new(alloc);
    let mut rest = pieces;
    while !rest.is_empty() {
        let token = token_of(alloc, text, head(rest))?;
        push_token(&mut tokens, token)?;
        rest = behind(rest, 1);
    }
    Ok(tokens)
}
