//! Whole programs.
ghost use Rattle.std.specs.Prelude.{◌≤◌, ◌<◌, length, IfOk};
ghost use Rattle.cob_tree.specs.StmtView.{plain_tree};
ghost use Rattle.cob_parse_expr.specs.Steps.{signs, Gives};
ghost use Rattle.cob_parse_proc.specs.Program.{limit, before_at, ending_at, end_at, tree_at};

use crate::sentence::{paragraphs, sentences};
use cob_parse_data::{front_in, named};
use cob_parse_expr::{Halt, Lexeme, expect, line_of, stands, stop};
use cob_tree::{EndProgram, Front, Keyword, Many, Tree};
use std::alloc::Global;

// The divisions before PROCEDURE, and its heading.
fn before(alloc: Global, lexemes: &[Lexeme]) -> Result<(Front, &[Lexeme]), Halt>
    ensures gives { Gives (λ x. ((x.0, tt), signs x.1.now)) result (before_at (signs lexemes.now)) }
    ensures rest { IfOk result (λ x. length x.1.now < length lexemes.now) }
{
    let (front, rest) = or_leave!(front_in(alloc, lexemes));
    let rest = or_leave!(expect(Keyword::Procedure, rest), front);
    let rest = or_leave!(expect(Keyword::Division, rest), front);
    let rest = or_leave!(stop(rest), front);
    Ok((front, rest))
}

// END PROGRAM, the program's name, and a point.
fn end(alloc: Global, lexemes: &[Lexeme]) -> Result<(EndProgram, &[Lexeme]), Halt>
    ensures gives { Gives (λ x. (x.0, signs x.1.now)) result (end_at (signs lexemes.now)) }
    ensures rest { IfOk result (λ x. length x.1.now < length lexemes.now) }
{
    let (line, rest) = or_leave!(line_of(Keyword::EndProgram, lexemes));
    let (name, rest) = or_leave!(named(alloc, rest));
    Ok((EndProgram { line, name }, rest))
}

fn ending(alloc: Global, lexemes: &[Lexeme]) -> Result<(Option<EndProgram>, &[Lexeme]), Halt>
    ensures gives { Gives (λ x. (x.0, signs x.1.now)) result (ending_at (signs lexemes.now)) }
    ensures rest { IfOk result (λ x. length x.1.now ≤ length lexemes.now) }
{
    if stands(Keyword::EndProgram, lexemes) {
        let (end, rest) = or_leave!(end(alloc, lexemes));
        Ok((Some(end), rest))
    } else {
        Ok((None, lexemes))
    }
}

/// A program, and the lexemes behind it.
pub fn tree_in(alloc: Global, lexemes: &[Lexeme]) -> Result<(Tree, &[Lexeme]), Halt>
    ensures gives { Gives (λ x. (plain_tree x.0, signs x.1.now)) result (tree_at limit (signs lexemes.now)) }
    ensures rest { IfOk result (λ x. length x.1.now ≤ length lexemes.now) }
{
    let (front, rest) = or_leave!(before(alloc, lexemes));
    let (sentences, rest) = or_leave!(sentences(alloc, rest), front);
    let (paragraphs, rest) = or_leave!(paragraphs(alloc, rest), front, sentences);
    let (end, rest) = or_leave!(ending(alloc, rest), front, sentences, paragraphs);
    let sentences = Many::of(sentences);
    let paragraphs = Many::of(paragraphs);
    Ok((
        Tree {
            front,
            sentences,
            paragraphs,
            end,
        },
        rest,
    ))
}
