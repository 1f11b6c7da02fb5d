//! Reserved words in front of lexemes.
ghost use Rattle.std.specs.Prelude.{◌≡◌, ◌+◌, ◌<◌, ◌∷◌, [], length, IfOk, IfSome, IfNone, is_some, false};
ghost use Rattle.std.specs.Option.{option_map};
ghost use Rattle.reading.specs.Readers.{lead, stands, behind};
ghost use Rattle.cob_parse_expr.specs.Lexemes.{plain_symbol, plain_lexeme};
ghost use Rattle.cob_parse_expr.specs.LexemeClasses.{of, is, here, same_key, the, on_its_line};
ghost use Rattle.cob_parse_expr.specs.Steps.{signs, Leads, Lacks, Gives};

use crate::halt::Halt;
use crate::lexeme::{Lexeme, Symbol};
use cob_tree::Keyword;

fn same_key(first: Keyword, second: Keyword) -> bool
    ensures { result ≡ same_key first second }
{
    first == second
}

/// Whether a symbol is a reserved word.
pub fn is_word(keyword: Keyword, symbol: &Symbol) -> bool
    ensures { result ≡ is (the keyword) (plain_symbol symbol.now) }
{
    match symbol {
        Symbol::Key(other) => same_key(keyword, *other),
        _ => false,
    }
}

/// The first lexeme, and those behind it.
pub fn next(lexemes: &[Lexeme]) -> Option<(&Lexeme, &[Lexeme])>
    ensures some { IfSome result (λ x. signs lexemes.now ≡ plain_lexeme x.0.now ∷ signs x.1.now) }
    ensures none { IfNone result (signs lexemes.now ≡ []) }
    ensures shorter { IfSome result (λ x. length lexemes.now ≡ length x.1.now + 1) }
{
    match lexemes {
        [] => None,
        [lexeme, rest @ ..] => Some((lexeme, rest)),
    }
}

/// Whether a reserved word stands first.
pub fn stands(keyword: Keyword, lexemes: &[Lexeme]) -> bool
    ensures first { result ≡ stands (of (the keyword)) (signs lexemes.now) }
    ensures begins { result ≡ here (the keyword) (signs lexemes.now) }
{
    match next(lexemes) {
        Some((lexeme, _)) => is_word(keyword, &lexeme.symbol),
        None => false,
    }
}

/// The lexemes behind a reserved word, where it stands first.
pub fn behind(keyword: Keyword, lexemes: &[Lexeme]) -> Option<&[Lexeme]>
    ensures found { IfSome result (λ rest. Leads (of (the keyword)) tt (signs lexemes.now) (signs rest.now)) }
    ensures none { IfNone result (Lacks (of (the keyword)) (signs lexemes.now)) }
    ensures cut { option_map (λ rest. signs rest.now) result ≡ behind (of (the keyword)) (signs lexemes.now) }
    ensures rest { IfSome result (λ rest. length rest.now < length lexemes.now) }
{
    match next(lexemes) {
        None => None,
        Some((first, rest)) => {
            if is_word(keyword, &first.symbol) {
                Some(rest)
            } else {
                None
            }
        }
    }
}

/// The lexemes behind a reserved word that has to stand first.
pub fn expect(keyword: Keyword, lexemes: &[Lexeme]) -> Result<&[Lexeme], Halt>
    ensures gives { Gives (λ rest. (tt, signs rest.now)) result (lead (of (the keyword)) (signs lexemes.now)) }
    ensures rest { IfOk result (λ rest. length rest.now < length lexemes.now) }
{
    match behind(keyword, lexemes) {
        Some(rest) => Ok(rest),
        None => Err(Halt::Stop(lexemes.len())),
    }
}

/// The line of a reserved word that has to stand first, and the lexemes behind it.
pub fn line_of(keyword: Keyword, lexemes: &[Lexeme]) -> Result<(u32, &[Lexeme]), Halt>
    ensures gives { Gives (λ x. ((x.0, tt), signs x.1.now)) result (lead (on_its_line (the keyword)) (signs lexemes.now)) }
    ensures rest { IfOk result (λ x. length x.1.now < length lexemes.now) }
{
    match next(lexemes) {
        None => Err(Halt::Stop(0)),
        Some((lexeme, rest)) => {
            if is_word(keyword, &lexeme.symbol) {
                Ok((lexeme.line, rest))
            } else {
                Err(Halt::Stop(lexemes.len()))
            }
        }
    }
}
