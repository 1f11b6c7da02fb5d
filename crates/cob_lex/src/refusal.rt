//! The first bad place of a source.
ghost use Rattle.std.specs.Prelude.{◌≡◌, ◌≤◌, length};
ghost use Rattle.cob_lex.specs.Text.{numbered_lines, first_bad, earlier, place_of, source_limit};

use crate::line::{bad_column, first_line};
use crate::{Mark, TextEnd};

/// A place of the source.
#[derive(Clone, Copy)]
pub struct Place {
    pub line: u32,
    pub column: u32,
}

impl Place {
    pub fn of(mark: Mark) -> Place
        ensures { result ≡ place_of mark }
    {
        Place {
            line: mark.line,
            column: mark.column,
        }
    }

    /// The answer that refuses this place.
    pub fn end(self) -> TextEnd
        ensures { result ≡ TextEnd.BadLine self.line self.column }
    {
        TextEnd::BadLine {
            line: self.line,
            column: self.column,
        }
    }
}

/// The place that comes first in the source.
pub fn earlier(a: Place, b: Place) -> Place
    ensures { result ≡ earlier a b }
{
    if a.line < b.line || (a.line == b.line && a.column < b.column) {
        a
    } else {
        b
    }
}

/// The first place at which a line is bad by itself.
#[tactic(auto, using(crate::proofs::TextLemmas::first_bad_more, crate::proofs::TextLemmas::first_bad_none))]
pub fn first_bad(bytes: &[u8]) -> Option<Place>
    requires { length bytes.now ≤ source_limit }
    ensures { result ≡ first_bad (numbered_lines bytes.now) }
{
    let mut rest = bytes;
    let mut number = 1;
    while !rest.is_empty() {
        let (line, after) = first_line(rest);
        if let Some(column) = bad_column(line) {
            return Some(Place {
                line: number,
                column,
            });
        }
        rest = after;
        number += 1;
    }
    None
}
