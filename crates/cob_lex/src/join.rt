//! The text of a source: lines joined to characters with their places.
ghost use Rattle.std.specs.Prelude.{◌≡◌, ◌+◌, ◌<◌, ◌≤◌, [], ◌∷◌, ◌++◌, length, OnOk, None, Some};
ghost use Rattle.cob_lex.specs.Columns.{columns, first_nonblank};
ghost use Rattle.cob_lex.specs.Literal.{open_literal};
ghost use Rattle.cob_lex.specs.Text.{numbered_lines, kept, joined, closed, with_line, with_kept, with_ordinary, with_continuation, ended, marks_from, trimmed, Gives, source_limit};
ghost use Rattle.cob_lex.specs.Run.{IsRun, Steps, text};

use crate::line::{
    AREA, LAST, byte_at, columns, first_line, first_nonblank, is_continuation, is_dropped,
};
use crate::literal::Quote;
use crate::refusal::Place;
use crate::{Mark, TextEnd};
use std::alloc::{AllocError, Global};

/// The text of the lines so far.
#[derive(Drop)]
struct Joining {
    marks: Vec<Mark>,
    /// Where the text stands.
    quote: Quote,
    /// How many marks there are up to the last nonblank.
    solid: usize,
    /// Where the text stood behind its last nonblank.
    settled: Quote,
}

impl Joining {
    fn new(alloc: Global) -> Joining
        ensures empty { text result ≡ [] }
        ensures run { IsRun result }
    {
        Joining {
            marks: Vec::new(alloc),
            quote: Quote::Outside,
            solid: 0,
            settled: Quote::Outside,
        }
    }

    #[inline(always)]
    fn push(&mut self, mark: Mark) -> Result<(), AllocError>
        requires { IsRun self.old }
        ensures marks { OnOk result (text self.new ≡ text self.old ++ mark ∷ []) }
        ensures run { OnOk result (IsRun self.new) }
    {
        self.marks.push(mark)?;
        self.quote = self.quote.after(mark);
        if mark.ch != b' ' {
            self.solid = self.marks.len();
            self.settled = self.quote;
        }
        Ok(())
    }

    /// Puts the columns of a line from this one on behind the text.
    fn push_columns(&mut self, number: u32, line: &[u8], from: usize) -> Result<(), AllocError>
        requires run { IsRun self.old }
        requires first { 0 < from }
        requires last { from ≤ 73 }
        ensures marks { OnOk result (text self.new ≡ text self.old ++ marks_from number line.now from) }
        ensures run { OnOk result (IsRun self.new) }
    {
        for column in from..LAST + 1 {
            self.push(Mark {
                ch: byte_at(line, column),
                line: number,
                column: column as u32,
            })?;
        }
        Ok(())
    }

    /// Ends a line: a space, but where a literal goes on.
    fn end_line(&mut self, number: u32) -> Result<(), AllocError>
        requires { IsRun self.old }
        ensures marks { OnOk result (text self.new ≡ ended number (text self.old)) }
        ensures run { OnOk result (IsRun self.new) }
    {
        match self.quote {
            Quote::Inside(_) => Ok(()),
            Quote::Outside | Quote::Behind(_) => self.push(Mark {
                ch: b' ',
                line: number,
                column: 73,
            }),
        }
    }

    fn trim(&mut self)
        requires { IsRun self.old }
        ensures marks { text self.new ≡ trimmed (text self.old) }
        ensures run { IsRun self.new }
    {
        self.marks.truncate(self.solid);
        self.quote = self.settled;
    }

    fn join_ordinary(&mut self, number: u32, line: &[u8]) -> Result<(), TextEnd>
        requires { IsRun self.old }
        ensures { Steps (with_ordinary (open_literal (text self.old)) (text self.old) number line.now) result self.new }
    {
        if let Some(opening) = self.quote.opening() {
            return Err(Place::of(opening).end());
        }
        self.push_columns(number, line, AREA)?;
        self.end_line(number)?;
        Ok(())
    }

    fn join_continuation(&mut self, number: u32, line: &[u8]) -> Result<(), TextEnd>
        requires { IsRun self.old }
        ensures { Steps (with_continuation (first_nonblank line.now) (open_literal (text self.old)) (text self.old) number line.now) result self.new }
    {
        let Some(first) = first_nonblank(line) else {
            return Err(TextEnd::BadLine {
                line: number,
                column: 7,
            });
        };
        match self.quote.opening() {
            None => self.join_first(number, line, first),
            Some(opening) => self.join_literal(opening, number, line, first),
        }
    }

    /// Joins a continuation's first nonblank to the last nonblank of the text.
    fn join_first(&mut self, number: u32, line: &[u8], first: usize) -> Result<(), TextEnd>
        requires run { IsRun self.old }
        requires within { first < 65 }
        ensures { Steps (with_continuation (Some first) None (text self.old) number line.now) result self.new }
    {
        if self.marks.is_empty() {
            return Err(TextEnd::BadLine {
                line: number,
                column: 7,
            });
        }
        self.trim();
        self.push_columns(number, line, first + AREA)?;
        self.end_line(number)?;
        Ok(())
    }

    /// Goes on with an open literal behind a continuation's first nonblank.
    fn join_literal(
        &mut self,
        opening: Mark,
        number: u32,
        line: &[u8],
        first: usize,
    ) -> Result<(), TextEnd>
        requires run { IsRun self.old }
        requires within { first < length (columns 8 72 line.now) }
        ensures { Steps (with_continuation (Some first) (Some opening) (text self.old) number line.now) result self.new }
    {
        if columns(line, AREA, LAST)[first] != opening.ch {
            return Err(TextEnd::BadLine {
                line: number,
                column: first as u32 + 8,
            });
        }
        self.push_columns(number, line, first + AREA + 1)?;
        self.end_line(number)?;
        Ok(())
    }

    fn join(&mut self, number: u32, line: &[u8]) -> Result<(), TextEnd>
        requires { IsRun self.old }
        ensures { Steps (with_line (text self.old) number line.now) result self.new }
    {
        if is_continuation(line) {
            self.join_continuation(number, line)
        } else {
            self.join_ordinary(number, line)
        }
    }

    /// Joins a line, if it is kept.
    fn take(&mut self, number: u32, line: &[u8]) -> Result<(), TextEnd>
        requires { IsRun self.old }
        ensures { Steps (with_kept (text self.old) number line.now) result self.new }
    {
        if is_dropped(line) {
            Ok(())
        } else {
            self.join(number, line)
        }
    }

    /// The text, if no literal is open at its end.
    fn close(self) -> Result<Vec<Mark>, TextEnd>
        requires { IsRun self }
        ensures { Gives (closed (open_literal (text self)) (text self)) result }
    {
        match self.quote.opening() {
            None => Ok(self.marks),
            Some(opening) => Err(Place::of(opening).end()),
        }
    }
}

/// The kept lines joined, or the first place at which they don't join.
pub fn joined(alloc: Global, bytes: &[u8]) -> Result<Vec<Mark>, TextEnd>
    requires { length bytes.now ≤ source_limit }
    ensures { Gives (joined [] (kept (numbered_lines bytes.now))) result }
{
    let mut joining = Joining::new(alloc);
    let mut rest = bytes;
    let mut number = 1;
    while !rest.is_empty() {
        let (line, after) = first_line(rest);
        joining.take(number, line)?;
        rest = after;
        number += 1;
    }
    joining.close()
}
