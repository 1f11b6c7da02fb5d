//! What stands behind an expression in a condition: a relation, a test, or nothing.
ghost use Rattle.std.specs.Prelude.{◌≡◌, ◌≤◌, length, IfOk, false};
ghost use Rattle.cob_tree.specs.Cues.{NotRelates};
ghost use Rattle.cob_tree.specs.ExprView.{plain_expr, plain_fact};
ghost use Rattle.cob_tree.specs.CondView.{plain_simple};
ghost use Rattle.cob_tree.specs.Takes.{takes_test, takes_simple};
ghost use Rattle.reading.specs.Printing.{begins};
ghost use Rattle.cob_parse_expr.specs.Alphabet.{grammar};
ghost use Rattle.cob_parse_expr.specs.Reading.{inner_at};
ghost use Rattle.cob_parse_expr.specs.CondReading.{compared_with, asked_with, test_with, tested};
ghost use Rattle.cob_parse_expr.specs.CondSteps.{plain_asked, expr_behind, subject_behind};
ghost use Rattle.cob_parse_expr.specs.Steps.{signs, Gives};

use crate::class::{Mark, asks_first, behind, relation_in, sign_test_in};
use crate::expr::{expr_in, factors_in, summands_in};
use crate::halt::Halt;
use crate::lexeme::Lexeme;
use crate::simple::{alone, numeric, relation, sign_of};
use cob_tree::{Expr, Fact, Rel, SignTest, Simple, Term};
use std::alloc::Global;

/// What is asked of an expression.
#[derive(Drop)]
pub enum Asked {
    Compared { rel: Rel, right: Expr },
    Digits,
    Sign(SignTest),
}

/// A relation and its right side.
pub fn compared(
    alloc: Global,
    lexemes: &[Lexeme],
    room: u32,
) -> Result<(Rel, Expr, &[Lexeme]), Halt>
    ensures gives { Gives (λ x. ((x.0, plain_expr x.1), signs x.2.now)) result (compared_with (inner_at room) (signs lexemes.now)) }
    ensures rest { IfOk result (λ x. length x.2.now ≤ length lexemes.now) }
{
    let Some((rel, rest)) = relation_in(lexemes) else {
        return Err(Halt::Stop(lexemes.len()));
    };
    let (right, rest) = or_leave!(expr_in(alloc, rest, room));
    Ok((rel, right, rest))
}

fn asked_in(alloc: Global, lexemes: &[Lexeme], room: u32) -> Result<(Asked, &[Lexeme]), Halt>
    ensures gives { Gives (λ x. (plain_asked x.0, signs x.1.now)) result (asked_with (inner_at room) (signs lexemes.now)) }
    ensures rest { IfOk result (λ x. length x.1.now ≤ length lexemes.now) }
{
    if relation_in(lexemes).is_some() {
        let (rel, right, rest) = or_leave!(compared(alloc, lexemes, room));
        return Ok((Asked::Compared { rel, right }, rest));
    }
    match behind(Mark::Numeric, lexemes) {
        Some(rest) => Ok((Asked::Digits, rest)),
        None => match sign_test_in(lexemes) {
            Some((test, rest)) => Ok((Asked::Sign(test), rest)),
            None => Err(Halt::Stop(lexemes.len())),
        },
    }
}

// What is asked, with NOT before it or without.
fn test_in(alloc: Global, lexemes: &[Lexeme], room: u32) -> Result<(bool, Asked, &[Lexeme]), Halt>
    ensures gives { Gives (λ x. ((x.0, plain_asked x.1), signs x.2.now)) result (test_with (inner_at room) (signs lexemes.now)) }
    ensures rest { IfOk result (λ x. length x.2.now ≤ length lexemes.now) }
{
    match behind(Mark::Not, lexemes) {
        Some(rest) => {
            let (asked, rest) = or_leave!(asked_in(alloc, rest, room));
            Ok((true, asked, rest))
        }
        None => {
            let (asked, rest) = or_leave!(asked_in(alloc, lexemes, room));
            Ok((false, asked, rest))
        }
    }
}

// Whether what makes an expression a relation, a class condition or a sign condition stands first.
fn begins_test(lexemes: &[Lexeme]) -> bool
    ensures { result ≡ begins grammar takes_test (signs lexemes.now) }
{
    match behind(Mark::Not, lexemes) {
        Some(rest) => asks_first(rest),
        None => asks_first(lexemes),
    }
}

fn tested(value: Expr, not: bool, asked: Asked) -> Simple
    ensures simple { plain_simple result ≡ tested (plain_expr value) not (plain_asked asked) }
    ensures ends { takes_simple (plain_simple result) NotRelates ≡ false }
{
    match asked {
        Asked::Compared { rel, right } => relation(value, not, rel, right),
        Asked::Digits => numeric(value, not),
        Asked::Sign(test) => sign_of(value, not, test),
    }
}

fn expr_behind(
    alloc: Global,
    first: Fact,
    lexemes: &[Lexeme],
    room: u32,
) -> Result<(Expr, &[Lexeme]), Halt>
    ensures gives { Gives (λ x. (plain_expr x.0, signs x.1.now)) result (expr_behind (inner_at room) (plain_fact first) (signs lexemes.now)) }
    ensures rest { IfOk result (λ x. length x.1.now ≤ length lexemes.now) }
{
    let (factors, rest) = or_leave!(factors_in(alloc, lexemes, room), first);
    let (summands, rest) = or_leave!(summands_in(alloc, rest, room), first, factors);
    Ok((Expr::of(Term::of(first, factors), summands), rest))
}

/// The simple condition whose first factor this is, and whether NOT may go on behind it.
pub fn subject_behind(
    alloc: Global,
    first: Fact,
    lexemes: &[Lexeme],
    room: u32,
) -> Result<(Simple, bool, &[Lexeme]), Halt>
    ensures gives { Gives (λ x. (plain_simple x.0, signs x.2.now)) result (subject_behind (inner_at room) (plain_fact first) (signs lexemes.now)) }
    ensures takes { IfOk result (λ x. x.1 ≡ takes_simple (plain_simple x.0) NotRelates) }
    ensures rest { IfOk result (λ x. length x.2.now ≤ length lexemes.now) }
{
    let (value, rest) = or_leave!(expr_behind(alloc, first, lexemes, room));
    if begins_test(rest) {
        let (not, asked, rest) = or_leave!(test_in(alloc, rest, room), value);
        Ok((tested(value, not, asked), false, rest))
    } else {
        Ok((alone(value), true, rest))
    }
}
