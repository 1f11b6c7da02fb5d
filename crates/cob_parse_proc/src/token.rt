//! The words of phrases, in front of lexemes.
ghost use Rattle.std.specs.Prelude.{◌≡◌, ◌≤◌, ◌<◌, ◌&&◌, not, length, IfOk, IfSome, is_some, false};
ghost use Rattle.std.specs.Option.{option_map};
ghost use Rattle.cob_tree.specs.declared.keyword.Keyword.TheVariants as key;
ghost use Rattle.cob_tree.specs.Cues.{Starts, Whens};
ghost use Rattle.reading.specs.Readers.{behind, both_behind};
ghost use Rattle.cob_parse_expr.specs.Lexemes.{plain_symbol};
ghost use Rattle.cob_parse_expr.specs.LexemeClasses.{word_symbol};
ghost use Rattle.cob_parse_expr.specs.Steps.{signs, Fails, Gives};
ghost use Rattle.cob_parse_verb.specs.Words.{start_key};
ghost use Rattle.cob_parse_proc.specs.Reading.{here, one_word};
ghost use Rattle.cob_parse_proc.specs.StmtSteps.{full_at, left_at, behind_error, end_at};

use cob_parse_expr::{Halt, Lexeme, Symbol, behind, expect, next};
use cob_parse_verb::start_of;
use cob_tree::Keyword;

/// Whether a symbol is the first word of a statement.
pub fn is_start(symbol: &Symbol) -> bool
    ensures { result ≡ is_some (word_symbol start_key (plain_symbol symbol.now)) }
{
    match symbol {
        Symbol::Key(keyword) => start_of(*keyword).is_some(),
        _ => false,
    }
}

/// The lexemes behind two reserved words, where they stand first.
pub fn both_behind(first: Keyword, second: Keyword, lexemes: &[Lexeme]) -> Option<&[Lexeme]>
    ensures cut { option_map (λ rest. signs rest.now) result ≡ both_behind (one_word first) (one_word second) (signs lexemes.now) }
    ensures rest { IfSome result (λ rest. length rest.now < length lexemes.now) }
{
    match behind(first, lexemes) {
        Some(rest) => behind(second, rest),
        None => None,
    }
}

/// The lexemes behind SIZE ERROR; where SIZE stands, ERROR has to.
pub fn behind_size(lexemes: &[Lexeme]) -> Result<Option<&[Lexeme]>, Halt>
    ensures gives { Gives (option_map (λ rest. signs rest.now)) result (behind_error (behind (one_word key.Size) (signs lexemes.now))) }
    ensures rest { IfOk result (λ cut. IfSome cut (λ rest. length rest.now < length lexemes.now)) }
{
    match behind(Keyword::Size, lexemes) {
        None => Ok(None),
        Some(rest) => {
            let rest = or_leave!(expect(Keyword::Error, rest));
            Ok(Some(rest))
        }
    }
}

/// The lexemes behind NOT SIZE ERROR; where NOT SIZE stands, ERROR has to.
pub fn behind_not_size(lexemes: &[Lexeme]) -> Result<Option<&[Lexeme]>, Halt>
    ensures gives { Gives (option_map (λ rest. signs rest.now)) result (behind_error (both_behind (one_word key.Not) (one_word key.Size) (signs lexemes.now))) }
    ensures rest { IfOk result (λ cut. IfSome cut (λ rest. length rest.now < length lexemes.now)) }
{
    match both_behind(Keyword::Not, Keyword::Size, lexemes) {
        None => Ok(None),
        Some(rest) => {
            let rest = or_leave!(expect(Keyword::Error, rest));
            Ok(Some(rest))
        }
    }
}

/// Whether an END- word stands first, and the lexemes behind it.
pub fn ended(keyword: Keyword, lexemes: &[Lexeme]) -> (bool, &[Lexeme])
    ensures end { (result.0, signs result.1.now) ≡ end_at keyword (signs lexemes.now) }
    ensures rest { length result.1.now ≤ length lexemes.now }
{
    match behind(keyword, lexemes) {
        Some(rest) => (true, rest),
        None => (false, lexemes),
    }
}

/// Whether NOT may go on behind what an END- word may end.
pub fn goes_on(is_ended: bool, takes_not: bool) -> bool
    ensures { result ≡ (not is_ended && takes_not) }
{
    !is_ended && takes_not
}

/// Whether a statement begins.
#[tactic(auto, using(crate::proofs::StmtAhead::starts_ahead))]
pub fn starts(lexemes: &[Lexeme]) -> bool
    ensures { result ≡ here Starts (signs lexemes.now) }
{
    match next(lexemes) {
        Some((lexeme, _)) => is_start(&lexeme.symbol),
        None => false,
    }
}

/// Whether WHEN stands first.
#[tactic(auto, using(crate::proofs::StmtAhead::whens_ahead))]
pub fn when_begins(lexemes: &[Lexeme]) -> bool
    ensures { result ≡ here Whens (signs lexemes.now) }
{
    behind(Keyword::When, lexemes).is_some()
}

/// How many lexemes are left where what has to stand doesn't: one less where what stands before may go on with NOT,
/// and NOT stands first.
pub fn left_at(takes_not: bool, lexemes: &[Lexeme]) -> usize
    ensures { result ≡ left_at takes_not (signs lexemes.now) }
{
    match behind(Keyword::Not, lexemes) {
        Some(rest) if takes_not => rest.len(),
        _ => lexemes.len(),
    }
}

/// Where no more statements may open.
pub fn full(lexemes: &[Lexeme]) -> Halt
    ensures { Fails result (full_at (signs lexemes.now)) }
{
    if starts(lexemes) {
        Halt::Deep(lexemes.len())
    } else {
        Halt::Stop(lexemes.len())
    }
}
