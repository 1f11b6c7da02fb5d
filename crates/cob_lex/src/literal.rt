//! Whether a literal is open, character by character.
ghost use Rattle.std.specs.Prelude.{◌≡◌};
ghost use Rattle.cob_lex.specs.Literal.{is_quotation, opened_by, quote_after, opening_of};

use crate::Mark;

/// Where the end of a text stands with respect to literals.
#[derive(Clone, Copy)]
pub enum Quote {
    /// In no literal, nor right behind one.
    Outside,
    /// In the literal that this mark opened.
    Inside(Mark),
    /// Right behind the literal that this mark opened.
    Behind(Mark),
}

#[inline(always)]
fn is_quotation(ch: u8) -> bool
    ensures { result ≡ is_quotation ch }
{
    ch == b'"' || ch == b'\''
}

#[inline(always)]
fn opened_by(mark: Mark) -> Quote
    ensures { result ≡ opened_by mark }
{
    if is_quotation(mark.ch) {
        Quote::Inside(mark)
    } else {
        Quote::Outside
    }
}

impl Quote {
    /// Where the text stands behind one more character.
    #[inline(always)]
    pub fn after(self, mark: Mark) -> Quote
        ensures { result ≡ quote_after self mark }
    {
        match self {
            Quote::Outside => opened_by(mark),
            Quote::Inside(opening) if mark.ch == opening.ch => Quote::Behind(opening),
            Quote::Inside(opening) => Quote::Inside(opening),
            Quote::Behind(opening) if mark.ch == opening.ch => Quote::Inside(opening),
            Quote::Behind(_) => opened_by(mark),
        }
    }

    /// The opening mark of the literal that is open.
    pub fn opening(self) -> Option<Mark>
        ensures { result ≡ opening_of self }
    {
        match self {
            Quote::Inside(opening) => Some(opening),
            Quote::Outside | Quote::Behind(_) => None,
        }
    }
}
