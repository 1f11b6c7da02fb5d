//! Titles of divisions and sections, and names.
ghost use Rattle.std.specs.Prelude.{◌≡◌, ◌<◌, ◌≤◌, ◌∷◌, [], length, IfOk};
ghost use Rattle.cob_parse_expr.specs.Steps.{signs, Gives};
ghost use Rattle.cob_parse_data.specs.Reading.{heading, named};

use cob_parse_expr::{Halt, Lexeme, expect, name_at, stop};
use cob_tree::{Keyword, Name};
use std::alloc::Global;

/// A reserved word and a point.
pub fn title(keyword: Keyword, lexemes: &[Lexeme]) -> Result<&[Lexeme], Halt>
    ensures gives { Gives (λ rest. (tt, signs rest.now)) result (heading (keyword ∷ []) (signs lexemes.now)) }
    ensures rest { IfOk result (λ rest. length rest.now < length lexemes.now) }
{
    let rest = or_leave!(expect(keyword, lexemes));
    stop(rest)
}

/// Two reserved words and a point.
pub fn heading(first: Keyword, second: Keyword, lexemes: &[Lexeme]) -> Result<&[Lexeme], Halt>
    ensures gives { Gives (λ rest. (tt, signs rest.now)) result (heading (first ∷ second ∷ []) (signs lexemes.now)) }
    ensures rest { IfOk result (λ rest. length rest.now < length lexemes.now) }
{
    let rest = or_leave!(expect(first, lexemes));
    title(second, rest)
}

/// A name and a point.
pub fn named(alloc: Global, lexemes: &[Lexeme]) -> Result<(Name, &[Lexeme]), Halt>
    ensures gives { Gives (λ x. (x.0, signs x.1.now)) result (named (signs lexemes.now)) }
    ensures rest { IfOk result (λ x. length x.1.now < length lexemes.now) }
{
    let (name, rest) = or_leave!(name_at(alloc, lexemes));
    let rest = or_leave!(stop(rest), name);
    Ok((name, rest))
}
