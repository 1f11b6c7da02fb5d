//! The divisions before PROCEDURE.
ghost use Rattle.std.specs.Prelude.{◌≡◌, ◌<◌, length, IfOk};
ghost use Rattle.cob_parse_expr.specs.Steps.{signs, Gives};
ghost use Rattle.cob_parse_data.specs.Reading.{front_at};

use crate::env::env_part;
use crate::file::data_part;
use crate::word::{heading, named, title};
use cob_parse_expr::{Halt, Lexeme};
use cob_tree::{Front, Keyword};
use std::alloc::Global;

/// The divisions before PROCEDURE, and the lexemes behind them.
pub fn front_in(alloc: Global, lexemes: &[Lexeme]) -> Result<(Front, &[Lexeme]), Halt>
    ensures gives { Gives (λ x. (x.0, signs x.1.now)) result (front_at (signs lexemes.now)) }
    ensures rest { IfOk result (λ x. length x.1.now < length lexemes.now) }
{
    let rest = or_leave!(heading(Keyword::Identification, Keyword::Division, lexemes));
    let rest = or_leave!(title(Keyword::ProgramId, rest));
    let (name, rest) = or_leave!(named(alloc, rest));
    let (env, rest) = or_leave!(env_part(alloc, rest), name);
    let (data, rest) = or_leave!(data_part(alloc, rest), name, env);
    Ok((Front { name, env, data }, rest))
}
