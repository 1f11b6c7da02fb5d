//! The text of a COBOL source in the standard's reference format (ISO 1989:1985, "Reference
//! format"): lines, comment lines and continuations become one list of characters.
ghost use Rattle.std.specs.Prelude.{◌≡◌, ◌≤◌, ℕ, List, length, Ok, IfOk, IfErr};
ghost use Rattle.cob_lex.specs.declared.text.TextEnd.TheVariants.{Memory};
ghost use Rattle.std.specs.List.{All};
ghost use Rattle.cob_lex.specs.Text.{numbered_lines, source_text, IfBadLine, source_limit};
ghost use Rattle.cob_lex.specs.Plain.{IsPlain, plain_text};

use crate::join::joined;
use crate::refusal::{Place, earlier, first_bad};
use std::alloc::{AllocError, AllocFailed, Global};

/// The most bytes of a source.
pub const SOURCE_LIMIT: usize = 1_048_576;

/// A character of the text, with the line and the column of the source in which it stands, both
/// counted from 1. The space that stands for a line's end is in column 73.
#[derive(Clone, Copy, PartialEq, Eq)]
pub struct Mark {
    pub ch: u8,
    pub line: u32,
    pub column: u32,
}

/// Why a source has no text.
#[derive(Clone, Copy, PartialEq, Eq)]
pub enum TextEnd {
    /// The first place that the reference format refuses.
    BadLine { line: u32, column: u32 },
    /// Memory ran out.
    Memory,
}

impl<T: Drop> From<AllocFailed<T>> for TextEnd {
    ghost from_gives = { λ _ e. e ≡ Memory };

    fn from(_failed: AllocFailed<T>) -> TextEnd {
        TextEnd::Memory
    }
}

impl From<AllocError> for TextEnd {
    ghost from_gives = { λ _ e. e ≡ Memory };

    fn from(_failed: AllocError) -> TextEnd {
        TextEnd::Memory
    }
}

/// The text of a source: columns 8 to 72 of its lines, without comments and blank lines, and with
/// continuations joined.
///
/// Own to this reader: `'` is a quotation mark like `"`, indicator `D` marks a comment, areas A and
/// B are not told apart, and a tab in columns 1 to 7 is refused.
pub fn text_of(alloc: Global, bytes: &[u8]) -> Result<Vec<Mark>, TextEnd>
    requires { length bytes.now ≤ source_limit }
    ensures text { IfOk result (λ marks. source_text bytes.now ≡ Ok marks.items) }
    ensures bad_line { IfErr result (λ end. IfBadLine end (λ place. source_text bytes.now ≡ Err place)) }
{
    let bad = first_bad(bytes);
    match joined(alloc, bytes) {
        Ok(text) => match bad {
            None => Ok(text),
            Some(place) => Err(place.end()),
        },
        Err(TextEnd::BadLine { line, column }) => {
            let place = Place { line, column };
            match bad {
                None => Err(place.end()),
                Some(bad) => Err(earlier(bad, place).end()),
            }
        }
        Err(TextEnd::Memory) => Err(TextEnd::Memory),
    }
}

/// A source of ordinary lines alone, none blank and none with a literal open at its end, is
/// columns 8 to 72 of each line, followed by one space.
#[tactic(auto, using(crate::proofs::PlainLemmas::plain_source))]
pub fn plain_lines_stand_as_they_are()
    ensures { (bytes : List ℕ) → All IsPlain (numbered_lines bytes) → source_text bytes ≡ Ok (plain_text (numbered_lines bytes)) }
{}
