//! Conditions.
ghost use Rattle.std.specs.Prelude.{◌≡◌, ◌≤◌, length, IfOk, map};
ghost use Rattle.cob_tree.specs.Cues.{NotRelates};
ghost use Rattle.cob_tree.specs.CondView.{plain_cond, plain_conj, plain_neg, plain_simple};
ghost use Rattle.cob_tree.specs.PrintExpr.{one_alone};
ghost use Rattle.cob_tree.specs.Takes.{takes_simple, takes_neg, takes_conj, takes_cond};
ghost use Rattle.cob_parse_expr.specs.Reading.{inner_at};
ghost use Rattle.cob_parse_expr.specs.CondReading.{paren_at, cond_at, subject_with, further_with, neg_with, negs_with, conj_with, conjs_with};
ghost use Rattle.cob_parse_expr.specs.CondSteps.{subject_after, negated_neg, plain_neg_at, last_neg, last_conj, unclosed};
ghost use Rattle.cob_parse_expr.specs.Steps.{signs, behind_word, Gives};

use crate::asked::{compared, subject_behind};
use crate::class::{Mark, behind, relation_in};
use crate::expr::fact_in;
use crate::halt::Halt;
use crate::lexeme::Lexeme;
use crate::simple::{abbreviated, bare_relation, grouped, one_alone, parenthesised};
use cob_tree::{Cond, Conj, Neg, Simple};
use std::alloc::Global;

// How many lexemes are left where `)` is missing behind a condition that may go on with NOT, or may not.
fn unclosed(takes_not: bool, lexemes: &[Lexeme]) -> usize
    ensures value { result ≡ unclosed takes_not (signs lexemes.now) }
    ensures rest { result ≤ length lexemes.now }
{
    match behind(Mark::Not, lexemes) {
        Some(rest) if takes_not => rest.len(),
        _ => lexemes.len(),
    }
}

// A condition in parentheses, where so many may still open, this one among them.
#[cycle(cond)]
fn paren(alloc: Global, lexemes: &[Lexeme], room: u32) -> Result<(Cond, &[Lexeme]), Halt>
    ensures gives { Gives (λ x. (plain_cond x.0, signs x.1.now)) result (paren_at room (signs lexemes.now)) }
    ensures rest { IfOk result (λ x. length x.1.now ≤ length lexemes.now) }
{
    let Some(rest) = behind(Mark::Open, lexemes) else {
        return Err(Halt::Stop(lexemes.len()));
    };
    if room == 0 {
        return Err(Halt::Deep(lexemes.len()));
    }
    let (cond, takes_not, rest) = or_leave!(cond_in(alloc, rest, room - 1));
    match behind(Mark::Close, rest) {
        None => {
            drop(cond);
            Err(Halt::Stop(unclosed(takes_not, rest)))
        }
        Some(rest) => Ok((cond, rest)),
    }
}

// Behind a condition in parentheses: where it is one expression alone, the parentheses are the expression's, which
// may go on.
fn subject_after(
    alloc: Global,
    cond: Cond,
    lexemes: &[Lexeme],
    room: u32,
) -> Result<(Simple, bool, &[Lexeme]), Halt>
    ensures gives { Gives (λ x. (plain_simple x.0, signs x.2.now)) result (subject_after (inner_at room) (plain_cond cond) (one_alone (plain_cond cond)) (signs lexemes.now)) }
    ensures takes { IfOk result (λ x. x.1 ≡ takes_simple (plain_simple x.0) NotRelates) }
    ensures rest { IfOk result (λ x. length x.2.now ≤ length lexemes.now) }
{
    match one_alone(cond) {
        Ok(expr) => {
            let first = or_leave!(grouped(alloc, expr));
            subject_behind(alloc, first, lexemes, room)
        }
        Err(cond) => {
            let simple = or_leave!(parenthesised(alloc, cond));
            Ok((simple, false, lexemes))
        }
    }
}

// A simple condition that isn't a relation without its subject.
#[cycle(cond)]
fn subject(alloc: Global, lexemes: &[Lexeme], room: u32) -> Result<(Simple, bool, &[Lexeme]), Halt>
    ensures gives { Gives (λ x. (plain_simple x.0, signs x.2.now)) result (subject_with (paren_at room) (inner_at room) (signs lexemes.now)) }
    ensures takes { IfOk result (λ x. x.1 ≡ takes_simple (plain_simple x.0) NotRelates) }
    ensures rest { IfOk result (λ x. length x.2.now ≤ length lexemes.now) }
{
    match behind(Mark::Open, lexemes) {
        Some(_) => {
            let (cond, rest) = or_leave!(paren(alloc, lexemes, room));
            subject_after(alloc, cond, rest, room)
        }
        None => {
            let (first, rest) = or_leave!(fact_in(alloc, lexemes, room));
            subject_behind(alloc, first, rest, room)
        }
    }
}

// Behind NOT, where no relation stands.
#[cycle(cond)]
fn further(alloc: Global, lexemes: &[Lexeme], room: u32) -> Result<(Simple, bool, &[Lexeme]), Halt>
    ensures gives { Gives (λ x. (plain_simple x.0, signs x.2.now)) result (further_with (paren_at room) (inner_at room) (signs lexemes.now)) }
    ensures takes { IfOk result (λ x. x.1 ≡ takes_simple (plain_simple x.0) NotRelates) }
    ensures rest { IfOk result (λ x. length x.2.now ≤ length lexemes.now) }
{
    match behind(Mark::Not, lexemes) {
        Some(rest) => {
            let (rel, right, rest) = or_leave!(compared(alloc, rest, room));
            Ok((abbreviated(true, rel, right), false, rest))
        }
        None => subject(alloc, lexemes, room),
    }
}

// Behind NOT: it is a relation's, where one stands.
#[cycle(cond)]
fn negated(alloc: Global, lexemes: &[Lexeme], room: u32) -> Result<(Neg, bool, &[Lexeme]), Halt>
    ensures gives { Gives (λ x. (plain_neg x.0, signs x.2.now)) result (negated_neg (paren_at room) (inner_at room) (signs lexemes.now)) }
    ensures takes { IfOk result (λ x. x.1 ≡ takes_neg (plain_neg x.0) NotRelates) }
    ensures rest { IfOk result (λ x. length x.2.now ≤ length lexemes.now) }
{
    match relation_in(lexemes) {
        Some(_) => {
            let (rel, right, rest) = or_leave!(compared(alloc, lexemes, room));
            Ok((bare_relation(true, rel, right), false, rest))
        }
        None => {
            let (simple, takes_not, rest) = or_leave!(further(alloc, lexemes, room));
            Ok((Neg::of(true, simple), takes_not, rest))
        }
    }
}

#[cycle(cond)]
fn plain(alloc: Global, lexemes: &[Lexeme], room: u32) -> Result<(Neg, bool, &[Lexeme]), Halt>
    ensures gives { Gives (λ x. (plain_neg x.0, signs x.2.now)) result (plain_neg_at (paren_at room) (inner_at room) (signs lexemes.now)) }
    ensures takes { IfOk result (λ x. x.1 ≡ takes_neg (plain_neg x.0) NotRelates) }
    ensures rest { IfOk result (λ x. length x.2.now ≤ length lexemes.now) }
{
    match relation_in(lexemes) {
        Some(_) => {
            let (rel, right, rest) = or_leave!(compared(alloc, lexemes, room));
            Ok((bare_relation(false, rel, right), false, rest))
        }
        None => {
            let (simple, takes_not, rest) = or_leave!(subject(alloc, lexemes, room));
            Ok((Neg::of(false, simple), takes_not, rest))
        }
    }
}

#[cycle(cond)]
fn neg(alloc: Global, lexemes: &[Lexeme], room: u32) -> Result<(Neg, bool, &[Lexeme]), Halt>
    ensures gives { Gives (λ x. (plain_neg x.0, signs x.2.now)) result (neg_with (paren_at room) (inner_at room) (signs lexemes.now)) }
    ensures takes { IfOk result (λ x. x.1 ≡ takes_neg (plain_neg x.0) NotRelates) }
    ensures rest { IfOk result (λ x. length x.2.now ≤ length lexemes.now) }
{
    match behind(Mark::Not, lexemes) {
        Some(rest) => negated(alloc, rest, room),
        None => plain(alloc, lexemes, room),
    }
}

// What stands behind AND, one after the other.
#[cycle(cond)]
fn negs(
    alloc: Global,
    lexemes: &[Lexeme],
    room: u32,
    before: bool,
) -> Result<(Vec<Neg>, bool, &[Lexeme]), Halt>
    ensures gives { Gives (λ x. (map behind_word (map plain_neg x.0.items), signs x.2.now)) result (negs_with (paren_at room) (inner_at room) (signs lexemes.now)) }
    ensures takes { IfOk result (λ x. x.1 ≡ last_neg before (map plain_neg x.0.items)) }
    ensures rest { IfOk result (λ x. length x.2.now ≤ length lexemes.now) }
{
    let mut left = lexemes;
    let mut takes_not = before;
    let mut negs = Vec::new(alloc);
    'negs: while let Some(rest) = behind(Mark::And, left) {
        let (neg, takes, after) = or_leave!(neg(alloc, rest, room), negs);
        negs.push(neg)?;
        takes_not = takes;
        left = after;
    }
    Ok((negs, takes_not, left))
}

#[cycle(cond)]
fn conj(alloc: Global, lexemes: &[Lexeme], room: u32) -> Result<(Conj, bool, &[Lexeme]), Halt>
    ensures gives { Gives (λ x. (plain_conj x.0, signs x.2.now)) result (conj_with (paren_at room) (inner_at room) (signs lexemes.now)) }
    ensures takes { IfOk result (λ x. x.1 ≡ takes_conj (plain_conj x.0) NotRelates) }
    ensures rest { IfOk result (λ x. length x.2.now ≤ length lexemes.now) }
{
    let (first, takes_not, rest) = or_leave!(neg(alloc, lexemes, room));
    let (others, takes_not, rest) = or_leave!(negs(alloc, rest, room, takes_not), first);
    Ok((Conj::of(first, others), takes_not, rest))
}

// What stands behind OR, one after the other.
#[cycle(cond)]
fn conjs(
    alloc: Global,
    lexemes: &[Lexeme],
    room: u32,
    before: bool,
) -> Result<(Vec<Conj>, bool, &[Lexeme]), Halt>
    ensures gives { Gives (λ x. (map behind_word (map plain_conj x.0.items), signs x.2.now)) result (conjs_with (paren_at room) (inner_at room) (signs lexemes.now)) }
    ensures takes { IfOk result (λ x. x.1 ≡ last_conj before (map plain_conj x.0.items)) }
    ensures rest { IfOk result (λ x. length x.2.now ≤ length lexemes.now) }
{
    let mut left = lexemes;
    let mut takes_not = before;
    let mut conjs = Vec::new(alloc);
    'conjs: while let Some(rest) = behind(Mark::Or, left) {
        let (conj, takes, after) = or_leave!(conj(alloc, rest, room), conjs);
        conjs.push(conj)?;
        takes_not = takes;
        left = after;
    }
    Ok((conjs, takes_not, left))
}

/// The longest condition in front, where so many parentheses may open, and whether it may go on with NOT before a
/// relation, NUMERIC or a sign condition's word: so where one expression stands last in it alone.
#[cycle(cond)]
pub fn cond_in(
    alloc: Global,
    lexemes: &[Lexeme],
    room: u32,
) -> Result<(Cond, bool, &[Lexeme]), Halt>
    ensures gives { Gives (λ x. (plain_cond x.0, signs x.2.now)) result (cond_at room (signs lexemes.now)) }
    ensures takes { IfOk result (λ x. x.1 ≡ takes_cond (plain_cond x.0) NotRelates) }
    ensures rest { IfOk result (λ x. length x.2.now ≤ length lexemes.now) }
{
    let (first, takes_not, rest) = or_leave!(conj(alloc, lexemes, room));
    let (others, takes_not, rest) = or_leave!(conjs(alloc, rest, room, takes_not), first);
    Ok((Cond::of(first, others), takes_not, rest))
}
