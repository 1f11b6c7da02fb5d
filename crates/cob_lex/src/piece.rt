//! Raw tokens with their places.
ghost use Rattle.std.specs.Prelude.{◌≡◌, ◌+◌, ◌-◌, ◌<◌, ◌++◌, length, drop, OnOk};
ghost use Rattle.cob_lex.specs.Pieces.{read, beginning, raw_tokens, Gives};
ghost use Rattle.cob_lex.specs.Characters.{first};
ghost use Rattle.cob_lex.specs.Spelled.{place_of, piece_list};

use crate::LexEnd;
use crate::cut::{Cut, Due, Shape, State};
use crate::text::Mark;
use std::alloc::{AllocError, Global};

/// A raw token: where it begins in the text, counted from 0, how many characters it has, and where
/// its first character stands in the source.
#[derive(Clone, Copy)]
pub struct Piece {
    pub shape: Shape,
    pub start: usize,
    pub length: usize,
    pub line: u32,
    pub column: u32,
}

/// A place of the source.
#[derive(Clone, Copy)]
pub struct Place {
    pub line: u32,
    pub column: u32,
}

impl Place {
    fn of(mark: Mark) -> Place
        ensures { result ≡ place_of mark }
    {
        Place {
            line: mark.line,
            column: mark.column,
        }
    }

    /// The answer that refuses this place.
    fn end(self) -> LexEnd
        ensures { result ≡ LexEnd.BadToken self.line self.column }
    {
        LexEnd::BadToken {
            line: self.line,
            column: self.column,
        }
    }
}

/// What follows so many elements.
pub fn behind<T>(list: &[T], count: usize) -> &[T]
    ensures value { result.now ≡ drop count list.now }
    ensures len { length result.now ≡ length list.now - count }
{
    if count < list.len() {
        &list[count..]
    } else {
        &list[list.len()..]
    }
}

fn first(text: &[Mark]) -> Mark
    requires { 0 < length text.now }
    ensures { result ≡ first text.now }
{
    text[0]
}

fn beginning() -> State
    ensures { result ≡ beginning }
{
    State {
        free: false,
        due: Due::Nothing,
    }
}

fn push_token(
    pieces: &mut Vec<Piece>,
    start: usize,
    first: Mark,
    cut: Cut,
) -> Result<(), AllocError>
    ensures { OnOk result (pieces.new.items ≡ pieces.old.items ++ piece_list start first cut.length cut.shape) }
{
    match cut.shape {
        None => Ok(()),
        Some(shape) => {
            pieces.push(Piece {
                shape,
                start,
                length: cut.length,
                line: first.line,
                column: first.column,
            })?;
            Ok(())
        }
    }
}

/// The raw tokens of a text.
#[tactic(auto, using(crate::proofs::PieceLemmas::read_step, crate::proofs::PieceLemmas::read_stops, crate::proofs::PieceLemmas::read_ends, crate::proofs::PieceLemmas::prefixed_nil))]
pub fn raw_tokens(alloc: Global, text: &[Mark]) -> Result<Vec<Piece>, LexEnd>
    ensures { Gives (raw_tokens text.now) result }
{
    let mut pieces = Vec::new(alloc);
    let mut rest = text;
    let mut start = 0;
    let mut state = beginning();
    while !rest.is_empty() {
        let Some(cut) = state.cut(rest) else {
            return Err(Place::of(first(rest)).end());
        };
        push_token(&mut pieces, start, first(rest), cut)?;
        state = state.after(cut, rest);
        start += cut.length;
        rest = behind(rest, cut.length);
    }
    Ok(pieces)
}
