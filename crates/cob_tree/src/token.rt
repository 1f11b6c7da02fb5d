//! Canonical tokens.
ghost use Rattle.std.specs.Prelude.{◌≡◌, IfOk};

use crate::bytes::Bytes;
use crate::word::Word;
use std::alloc::{AllocError, Global};

/// A numeric literal: its sign `+` or `-`, or 0 for none; its digits as written, without the point; and how many
/// of them stand behind the point.
#[derive(Drop)]
pub struct Num {
    pub sign: u8,
    pub digits: Bytes,
    pub scale: u32,
}

impl Num {
    /// Copies the number.
    pub fn copied(&self, alloc: Global) -> Result<Num, AllocError>
        ensures { IfOk result (λ copy. copy ≡ self.now) }
    {
        Ok(Num {
            sign: self.sign,
            digits: Bytes::of(alloc, self.digits.get())?,
            scale: self.scale,
        })
    }
}

/// The relations `=`, `<`, `>`, `>=` and `<=`, in this order.
#[derive(Clone, Copy, PartialEq, Eq)]
pub enum Rel {
    Equal,
    Less,
    Greater,
    AtLeast,
    AtMost,
}

/// A canonical token (ISO 1989:1985, character-strings and separators).
#[derive(Drop)]
pub enum Tok {
    /// A word in capitals, and which reserved word it is.
    Word(Word),
    Number(Num),
    /// A nonnumeric literal without its quotation marks.
    Text(Bytes),
    /// One of `(`, `)`, `+`, `-`, `*`, `/`.
    Mark(u8),
    Relation(Rel),
    /// A picture as written, without a last point, comma or semicolon.
    Pic(Bytes),
    /// The point that ends a sentence or an entry.
    Stop,
}

/// A token with the line and the column of its first character, both counted from 1.
#[derive(Drop)]
pub struct Token {
    pub tok: Tok,
    pub line: u32,
    pub column: u32,
}
