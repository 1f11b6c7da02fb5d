//! The tokens outside of sentences: each tells by itself what it begins.
ghost use Rattle.std.specs.Prelude.{◌≡◌, ◌<◌, length, IfOk};
ghost use Rattle.reading.specs.Readers.{lead};
ghost use Rattle.cob_parse_expr.specs.LexemeClasses.{here, name_symbol, on_its_line};
ghost use Rattle.cob_parse_expr.specs.Steps.{signs, Gives};
ghost use Rattle.cob_parse_proc.specs.Program.{start_symbol};

use crate::token::is_start;
use cob_parse_expr::{Halt, Lexeme, name, next};
use cob_tree::Name;
use std::alloc::Global;

/// Whether a sentence begins.
pub fn stands_start(lexemes: &[Lexeme]) -> bool
    ensures { result ≡ here start_symbol (signs lexemes.now) }
{
    match next(lexemes) {
        Some((lexeme, _)) => is_start(&lexeme.symbol),
        None => false,
    }
}

/// A name and its line.
pub fn name_on_line(alloc: Global, lexemes: &[Lexeme]) -> Result<((u32, Name), &[Lexeme]), Halt>
    ensures gives { Gives (λ x. (x.0, signs x.1.now)) result (lead (on_its_line name_symbol) (signs lexemes.now)) }
    ensures rest { IfOk result (λ x. length x.1.now < length lexemes.now) }
{
    match next(lexemes) {
        None => Err(Halt::Stop(0)),
        Some((lexeme, rest)) => match name(&lexeme.symbol) {
            None => Err(Halt::Stop(lexemes.len())),
            Some(name) => Ok(((lexeme.line, Name::of(alloc, name.get())?), rest)),
        },
    }
}
