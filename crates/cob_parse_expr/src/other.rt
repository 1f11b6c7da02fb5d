//! Names and points in front of lexemes.
ghost use Rattle.std.specs.Prelude.{◌≡◌, ◌<◌, length, IfOk, IfSome};
ghost use Rattle.std.specs.Option.{option_map};
ghost use Rattle.reading.specs.Readers.{lead, behind};
ghost use Rattle.cob_parse_expr.specs.Lexemes.{plain_symbol};
ghost use Rattle.cob_parse_expr.specs.LexemeClasses.{of, is, here, name_symbol, stop_symbol};
ghost use Rattle.cob_parse_expr.specs.Steps.{signs, Gives};

use crate::halt::Halt;
use crate::lexeme::{Lexeme, Symbol};
use crate::word::next;
use cob_tree::Name;

/// The name that a symbol is.
pub fn name(symbol: &Symbol) -> Option<&Name>
    ensures { option_map (λ name. name.now) result ≡ name_symbol (plain_symbol symbol.now) }
{
    match symbol {
        Symbol::Name(name) => Some(name),
        _ => None,
    }
}

/// Whether a symbol is a name.
pub fn is_name(symbol: &Symbol) -> bool
    ensures { result ≡ is name_symbol (plain_symbol symbol.now) }
{
    matches!(symbol, Symbol::Name(_))
}

/// Whether a name stands first.
pub fn stands_name(lexemes: &[Lexeme]) -> bool
    ensures { result ≡ here name_symbol (signs lexemes.now) }
{
    match next(lexemes) {
        Some((lexeme, _)) => is_name(&lexeme.symbol),
        None => false,
    }
}

/// Whether a symbol is the point.
pub fn is_stop(symbol: &Symbol) -> bool
    ensures { result ≡ is stop_symbol (plain_symbol symbol.now) }
{
    matches!(symbol, Symbol::Stop)
}

/// The lexemes behind a point, where it stands first.
pub fn behind_stop(lexemes: &[Lexeme]) -> Option<&[Lexeme]>
    ensures cut { option_map (λ rest. signs rest.now) result ≡ behind (of stop_symbol) (signs lexemes.now) }
    ensures rest { IfSome result (λ rest. length rest.now < length lexemes.now) }
{
    match next(lexemes) {
        Some((lexeme, rest)) if is_stop(&lexeme.symbol) => Some(rest),
        _ => None,
    }
}

/// The lexemes behind a point that has to stand first.
pub fn stop(lexemes: &[Lexeme]) -> Result<&[Lexeme], Halt>
    ensures gives { Gives (λ rest. (tt, signs rest.now)) result (lead (of stop_symbol) (signs lexemes.now)) }
    ensures rest { IfOk result (λ rest. length rest.now < length lexemes.now) }
{
    match next(lexemes) {
        None => Err(Halt::Stop(0)),
        Some((lexeme, rest)) => {
            if is_stop(&lexeme.symbol) {
                Ok(rest)
            } else {
                Err(Halt::Stop(lexemes.len()))
            }
        }
    }
}
