//! Statements with their own lists of statements: the cycle of readers.
ghost use Rattle.std.specs.Prelude.{◌≡◌, ◌≤◌, ◌<◌, length, IfOk, IfSome, map, false};
ghost use Rattle.std.specs.Option.{option_map};
ghost use Rattle.cob_tree.specs.Stmt.{whens_of};
ghost use Rattle.cob_tree.specs.StmtView.{plain_stmt, plain_tail, plain_verb, plain_when};
ghost use Rattle.cob_tree.specs.Takes.{takes_stmts, takes_stmt, takes_whens, takes_when};
ghost use Rattle.reading.specs.Readers.{optional_on};
ghost use Rattle.cob_parse_expr.specs.Steps.{signs, Gives};
ghost use Rattle.cob_parse_proc.specs.Reading.{when_with, stmt_with, stmts_at};
ghost use Rattle.cob_parse_verb.specs.VerbSteps.{plain_head};
ghost use Rattle.cob_parse_proc.specs.StmtSteps.{plain_list, plain_phrase, plain_branches, plain_cases, plain_ends, may, phrase_may, tail_may, branches_may, cases_may, ends_may, verb_may, list_at, tail_at, branches_at, chosen_at, cases_at, body_at, ends_at, verb_at};

use crate::token::{
    behind_not_size, behind_size, both_behind, ended, full, goes_on, left_at, starts, when_begins,
};
use crate::verb::{
    Branches, Cases, Ends, tail, when, with_body, with_branches, with_cases, with_ends,
    with_phrases, with_room,
};
use cob_parse_expr::{Halt, Lexeme, behind};
use cob_parse_verb::{Head, choices_in, head_in};
use cob_tree::{Keyword, Stmt, Tail, Verb, When};
use std::alloc::Global;

// Beside what it reads, each function here tells whether that may go on with NOT: before a relation, NUMERIC, a sign
// condition's word, SIZE or END.

// Statements that have to stand behind what may go on with NOT or may not.
#[cycle(stmt)]
fn list_in(
    alloc: Global,
    takes_not: bool,
    lexemes: &[Lexeme],
    room: u32,
) -> Result<(Vec<Stmt>, bool, &[Lexeme]), Halt>
    ensures gives { Gives (λ x. (plain_list x.0, signs x.2.now)) result (list_at (stmts_at room) takes_not (signs lexemes.now)) }
    ensures takes { IfOk result (λ x. x.1 ≡ may (takes_stmts (plain_list x.0))) }
    ensures rest { IfOk result (λ x. length x.2.now < length lexemes.now) }
{
    if starts(lexemes) {
        stmts_in(alloc, lexemes, room)
    } else {
        Err(Halt::Stop(left_at(takes_not, lexemes)))
    }
}

// Statements behind words that open them, where these words stand.
#[cycle(stmt)]
fn phrase_in<'a>(
    alloc: Global,
    opened: Option<&'a [Lexeme]>,
    takes_not: bool,
    lexemes: &'a [Lexeme],
    room: u32,
) -> Result<(Option<Vec<Stmt>>, bool, &'a [Lexeme]), Halt>
    requires { IfSome opened (λ rest. length rest.now < length lexemes.now) }
    ensures gives { Gives (λ x. (option_map plain_list x.0, signs x.2.now)) result (optional_on (option_map (λ rest. signs rest.now) opened.entry) (stmts_at room) (signs lexemes.now)) }
    ensures takes { IfOk result (λ x. x.1 ≡ phrase_may (plain_phrase x.0) takes_not) }
    ensures rest { IfOk result (λ x. length x.2.now ≤ length lexemes.now) }
{
    match opened {
        Some(rest) => {
            let (stmts, takes_not, rest) = or_leave!(stmts_in(alloc, rest, room));
            Ok((Some(stmts), takes_not, rest))
        }
        None => Ok((None, takes_not, lexemes)),
    }
}

// SIZE ERROR, NOT SIZE ERROR and the END- word.
#[cycle(stmt)]
fn tail_in(
    alloc: Global,
    end: Keyword,
    lexemes: &[Lexeme],
    room: u32,
) -> Result<(Tail, bool, &[Lexeme]), Halt>
    ensures gives { Gives (λ x. (plain_tail x.0, signs x.2.now)) result (tail_at (stmts_at room) end (signs lexemes.now)) }
    ensures takes { IfOk result (λ x. x.1 ≡ tail_may (plain_tail x.0)) }
    ensures rest { IfOk result (λ x. length x.2.now ≤ length lexemes.now) }
{
    let opened = or_leave!(behind_size(lexemes));
    let (size, _, rest) = or_leave!(phrase_in(alloc, opened, true, lexemes, room));
    let opened = or_leave!(behind_not_size(rest), size);
    let (not_size, takes_not, rest) = or_leave!(phrase_in(alloc, opened, true, rest, room), size);
    let (is_ended, rest) = ended(end, rest);
    Ok((
        tail(size, not_size, is_ended),
        goes_on(is_ended, takes_not),
        rest,
    ))
}

// What stands behind the condition of IF.
#[cycle(stmt)]
fn branches_in(
    alloc: Global,
    takes_not: bool,
    lexemes: &[Lexeme],
    room: u32,
) -> Result<(Branches, bool, &[Lexeme]), Halt>
    ensures gives { Gives (λ x. (plain_branches x.0, signs x.2.now)) result (branches_at (stmts_at room) takes_not (signs lexemes.now)) }
    ensures takes { IfOk result (λ x. x.1 ≡ branches_may (plain_branches x.0)) }
    ensures rest { IfOk result (λ x. length x.2.now ≤ length lexemes.now) }
{
    let (yes, takes_not, rest) = or_leave!(list_in(alloc, takes_not, lexemes, room));
    let opened = behind(Keyword::Else, rest);
    let (other, takes_not, rest) = or_leave!(phrase_in(alloc, opened, takes_not, rest, room), yes);
    let (is_ended, rest) = ended(Keyword::EndIf, rest);
    Ok((
        Branches {
            yes,
            other,
            ended: is_ended,
        },
        goes_on(is_ended, takes_not),
        rest,
    ))
}

// What is looked for, one or more, and what is done then.
#[cycle(stmt)]
fn when_in(alloc: Global, lexemes: &[Lexeme], room: u32) -> Result<(When, bool, &[Lexeme]), Halt>
    ensures gives { Gives (λ x. (plain_when x.0, signs x.2.now)) result (when_with (stmts_at room) room (signs lexemes.now)) }
    ensures takes { IfOk result (λ x. x.1 ≡ may (takes_when (plain_when x.0))) }
    ensures rest { IfOk result (λ x. length x.2.now < length lexemes.now) }
{
    let (choices, takes_not, rest) = or_leave!(choices_in(alloc, lexemes, room));
    let (body, takes_not, rest) = or_leave!(list_in(alloc, takes_not, rest, room), choices);
    Ok((when(choices, body), takes_not, rest))
}

// The WHENs of EVALUATE, and what stands behind WHEN OTHER, which is the last.
#[cycle(stmt)]
fn whens_in(
    alloc: Global,
    lexemes: &[Lexeme],
    room: u32,
) -> Result<(Vec<When>, Option<Vec<Stmt>>, bool, &[Lexeme]), Halt>
    ensures gives { Gives (λ x. ((whens_of (map plain_when x.0.items), plain_phrase x.1), signs x.3.now)) result (chosen_at (stmts_at room) room (signs lexemes.now)) }
    ensures takes { IfOk result (λ x. x.2 ≡ phrase_may (plain_phrase x.1) (may (takes_whens (whens_of (map plain_when x.0.items))))) }
    ensures rest { IfOk result (λ x. length x.3.now ≤ length lexemes.now) }
{
    let mut whens = with_room(alloc)?;
    let (first, mut takes_not, mut left) = or_leave!(when_in(alloc, lexemes, room), whens);
    whens.push(first)?;
    'whens: while when_begins(left) {
        if let Some(rest) = both_behind(Keyword::When, Keyword::Other, left) {
            let (other, takes_not, rest) = or_leave!(stmts_in(alloc, rest, room), whens);
            return Ok((whens, Some(other), takes_not, rest));
        }
        let (when, takes, rest) = or_leave!(when_in(alloc, left, room), whens);
        whens.push(when)?;
        takes_not = takes;
        left = rest;
    }
    Ok((whens, None, takes_not, left))
}

// What stands behind the subject of EVALUATE.
#[cycle(stmt)]
fn cases_in(alloc: Global, lexemes: &[Lexeme], room: u32) -> Result<(Cases, bool, &[Lexeme]), Halt>
    ensures gives { Gives (λ x. (plain_cases x.0, signs x.2.now)) result (cases_at (stmts_at room) room (signs lexemes.now)) }
    ensures takes { IfOk result (λ x. x.1 ≡ cases_may (plain_cases x.0)) }
    ensures rest { IfOk result (λ x. length x.2.now ≤ length lexemes.now) }
{
    if !when_begins(lexemes) {
        return Err(Halt::Stop(lexemes.len()));
    }
    let (whens, other, takes_not, rest) = or_leave!(whens_in(alloc, lexemes, room));
    let (is_ended, rest) = ended(Keyword::EndEvaluate, rest);
    Ok((
        Cases {
            whens,
            other,
            ended: is_ended,
        },
        goes_on(is_ended, takes_not),
        rest,
    ))
}

// What stands behind the loop of an inline PERFORM.
#[cycle(stmt)]
fn body_in(
    alloc: Global,
    takes_not: bool,
    lexemes: &[Lexeme],
    room: u32,
) -> Result<(Vec<Stmt>, bool, &[Lexeme]), Halt>
    ensures gives { Gives (λ x. (plain_list x.0, signs x.2.now)) result (body_at (stmts_at room) takes_not (signs lexemes.now)) }
    ensures takes { IfOk result (λ x. x.1 ≡ false) }
    ensures rest { IfOk result (λ x. length x.2.now ≤ length lexemes.now) }
{
    let (body, takes_not, rest) = or_leave!(list_in(alloc, takes_not, lexemes, room));
    match behind(Keyword::EndPerform, rest) {
        Some(rest) => Ok((body, false, rest)),
        None => {
            drop(body);
            Err(Halt::Stop(left_at(takes_not, rest)))
        }
    }
}

// What stands behind INTO of READ.
#[cycle(stmt)]
fn ends_in(alloc: Global, lexemes: &[Lexeme], room: u32) -> Result<(Ends, bool, &[Lexeme]), Halt>
    ensures gives { Gives (λ x. (plain_ends x.0, signs x.2.now)) result (ends_at (stmts_at room) (signs lexemes.now)) }
    ensures takes { IfOk result (λ x. x.1 ≡ ends_may (plain_ends x.0)) }
    ensures rest { IfOk result (λ x. length x.2.now ≤ length lexemes.now) }
{
    let opened = behind(Keyword::End, lexemes);
    let (end, _, rest) = or_leave!(phrase_in(alloc, opened, true, lexemes, room));
    let opened = both_behind(Keyword::Not, Keyword::End, rest);
    let (not_end, takes_not, rest) = or_leave!(phrase_in(alloc, opened, true, rest, room), end);
    let (is_ended, rest) = ended(Keyword::EndRead, rest);
    Ok((
        Ends {
            end,
            not_end,
            ended: is_ended,
        },
        goes_on(is_ended, takes_not),
        rest,
    ))
}

// A statement behind what stands before its lists.
#[cycle(stmt)]
fn verb_in(
    alloc: Global,
    head: Head,
    takes_not: bool,
    lexemes: &[Lexeme],
    room: u32,
) -> Result<(Verb, bool, &[Lexeme]), Halt>
    ensures gives { Gives (λ x. (plain_verb x.0, signs x.2.now)) result (verb_at (stmts_at room) room takes_not (plain_head head) (signs lexemes.now)) }
    ensures takes { IfOk result (λ x. x.1 ≡ verb_may takes_not (plain_head head) (plain_verb x.0)) }
    ensures rest { IfOk result (λ x. length x.2.now ≤ length lexemes.now) }
{
    match head {
        Head::Done(verb) => Ok((verb, takes_not, lexemes)),
        Head::Arithmetic(arithmetic) => {
            let end = arithmetic.end_word();
            with_phrases(arithmetic, tail_in(alloc, end, lexemes, room))
        }
        Head::If(test) => with_branches(test, branches_in(alloc, takes_not, lexemes, room)),
        Head::Evaluate(subject) => with_cases(subject, cases_in(alloc, lexemes, room)),
        Head::Perform(turns) => with_body(turns, body_in(alloc, takes_not, lexemes, room)),
        Head::Read { file, into } => with_ends(file, into, ends_in(alloc, lexemes, room)),
    }
}

// The longest statement in front, where so many more statements and parentheses may open in it.
#[cycle(stmt)]
fn stmt_in(alloc: Global, lexemes: &[Lexeme], room: u32) -> Result<(Stmt, bool, &[Lexeme]), Halt>
    ensures gives { Gives (λ x. (plain_stmt x.0, signs x.2.now)) result (stmt_with (stmts_at room) room (signs lexemes.now)) }
    ensures takes { IfOk result (λ x. x.1 ≡ may (takes_stmt (plain_stmt x.0))) }
    ensures rest { IfOk result (λ x. length x.2.now < length lexemes.now) }
{
    let (begin, head, takes_not, rest) = or_leave!(head_in(alloc, lexemes, room));
    let (verb, takes_not, rest) = or_leave!(verb_in(alloc, head, takes_not, rest, room));
    Ok((Stmt::of(begin.line, verb), takes_not, rest))
}

/// The most statements in front, one at least, where so many statements and parentheses may open; and whether they
/// may go on with NOT.
#[cycle(stmt)]
pub fn stmts_in(
    alloc: Global,
    lexemes: &[Lexeme],
    room: u32,
) -> Result<(Vec<Stmt>, bool, &[Lexeme]), Halt>
    ensures gives { Gives (λ x. (plain_list x.0, signs x.2.now)) result (stmts_at room (signs lexemes.now)) }
    ensures takes { IfOk result (λ x. x.1 ≡ may (takes_stmts (plain_list x.0))) }
    ensures rest { IfOk result (λ x. length x.2.now < length lexemes.now) }
{
    if room == 0 {
        return Err(full(lexemes));
    }
    let mut stmts = with_room(alloc)?;
    let (first, mut takes_not, mut left) = or_leave!(stmt_in(alloc, lexemes, room - 1), stmts);
    stmts.push(first)?;
    'stmts: while starts(left) {
        let (stmt, takes, rest) = or_leave!(stmt_in(alloc, left, room - 1), stmts);
        stmts.push(stmt)?;
        takes_not = takes;
        left = rest;
    }
    Ok((stmts, takes_not, left))
}
