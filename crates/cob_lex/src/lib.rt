//! The text of a COBOL source in the standard's reference format (ISO 1989:1985, "Reference format"): lines, comment
//! lines and continuations become one list of characters; and the canonical tokens of such a text ("Character-strings"
//! and "Separators").
#![tactic(auto)]

ghost use Rattle.std.specs.Prelude.{◌≡◌, map, Ok, Err, IfOk, IfErr};
ghost use Rattle.cob_lex.specs.Canonical.{AreTokensOf, token, IfBadToken};
ghost use Rattle.cob_lex.specs.Spelled.{IsStopped};
ghost use Rattle.cob_lex.specs.Rows.{rewritten};
ghost use Rattle.cob_lex.specs.Known.{AreKnown};
ghost use Rattle.cob_lex.specs.declared.LexEnd.TheVariants.{Memory};

mod cut;
mod join;
mod laws;
mod line;
mod literal;
mod mark;
mod piece;
mod refusal;
mod row;
mod scan;
mod text;
mod token;
mod word;

use cob_tree::Token;
pub use laws::{
    canonical_tokens_are_spellable, examples, one_spelling, one_stop, printed_tokens_are_read,
    sources_have_few_tokens, texts_stand_doubled,
};
use piece::{Piece, raw_tokens};
use row::rewritten;
pub use scan::{ScanEnd, tokens_in};
use std::alloc::{AllocError, AllocFailed, Global};
pub use text::{Mark, SOURCE_LIMIT, TextEnd, plain_lines_stand_as_they_are, text_of};
use token::tokens;

/// Why a text has no canonical tokens.
#[derive(Clone, Copy, PartialEq, Eq)]
pub enum LexEnd {
    /// The first place at which neither a token nor a separator stands.
    BadToken { line: u32, column: u32 },
    /// Memory ran out.
    Memory,
}

impl<T: Drop> From<AllocFailed<T>> for LexEnd {
    ghost from_gives = { λ _ e. e ≡ Memory };

    fn from(_failed: AllocFailed<T>) -> LexEnd {
        LexEnd::Memory
    }
}

impl From<AllocError> for LexEnd {
    ghost from_gives = { λ _ e. e ≡ Memory };

    fn from(_failed: AllocError) -> LexEnd {
        LexEnd::Memory
    }
}

#[tactic(auto, using(crate::proofs::KnownLemmas::rewritten_known))]
fn finished(alloc: Global, text: &[Mark], raw: &[Piece]) -> Result<Vec<Token>, LexEnd>
    requires { AreKnown text.now raw.now }
    ensures ok { IfOk result (λ v. v.items ≡ map (token text.now) (rewritten raw.now)) }
    ensures err { IfErr result (λ e. e ≡ Memory) }
{
    let canonical = rewritten(alloc, raw)?;
    Ok(tokens(alloc, text, &canonical)?)
}

/// The canonical tokens of a text: words in capitals, numbers, literals, symbols, relations, stops
/// and pictures, after separators are dropped and words are rewritten. A text counts as followed by
/// a space.
///
/// Own to this reader: `'` is a quotation mark like `"`; ID, COMP-3, COMPUTATIONAL-3 and RECORDING
/// are words of the language; an optional word is dropped wherever it stands.
#[tactic(auto, using(crate::proofs::Spelling::tokens_are, crate::proofs::KnownLemmas::raw_known))]
pub fn tokens_of(alloc: Global, text: &[Mark]) -> Result<Vec<Token>, LexEnd>
    ensures tokens { IfOk result (λ tokens. AreTokensOf text.now tokens.items) }
    ensures bad_token { IfErr result (λ end. IfBadToken end (IsStopped text.now)) }
{
    match raw_tokens(alloc, text) {
        Err(end) => Err(end),
        Ok(raw) => finished(alloc, text, &raw),
    }
}
