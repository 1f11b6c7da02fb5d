//! Verbs put together from what was read before and behind their lists.
ghost use Rattle.std.specs.Prelude.{◌≡◌, ◌≤◌, ℕ, List, [], false, IfOk, length, map};
ghost use Rattle.std.specs.Option.{option_map};
ghost use Rattle.cob_tree.specs.CondView.{plain_cond};
ghost use Rattle.cob_tree.specs.Symbols.{Sign};
ghost use Rattle.cob_tree.specs.Stmt.{MkTail, MkWhen, perform_inline};
ghost use Rattle.cob_tree.specs.Stmt as stmt;
ghost use Rattle.cob_tree.specs.StmtView.{plain_loop, plain_sel, plain_tail, plain_verb, plain_when};
ghost use Rattle.cob_tree.specs.Takes.{takes_verb};
ghost use Rattle.reading.specs.Readers.{Reader, seen};
ghost use Rattle.cob_parse_expr.specs.Steps.{signs, Gives};
ghost use Rattle.cob_parse_verb.specs.Heads.{with_tail};
ghost use Rattle.cob_parse_verb.specs.VerbSteps.{plain_arithmetic};
ghost use Rattle.cob_parse_proc.specs.StmtSteps.{Branches as Two, Cases as Choice, Ends as Both, plain_list, plain_phrase, plain_branches, plain_cases, plain_ends, may, tail_may, branches_may, cases_may, ends_may, if_of, evaluate_of, read_of};

use cob_parse_expr::{Halt, Lexeme};
use cob_parse_verb::Arithmetic;
use cob_tree::{Cond, Loop, Many, Name, Ref, Sel, Stmt, Subject, Tail, Verb, When};
use std::alloc::{AllocError, Global};

/// The two lists of IF, and whether END-IF stands.
#[derive(Drop)]
pub struct Branches {
    pub yes: Vec<Stmt>,
    pub other: Option<Vec<Stmt>>,
    pub ended: bool,
}

/// What EVALUATE chooses from, and whether END-EVALUATE stands.
#[derive(Drop)]
pub struct Cases {
    pub whens: Vec<When>,
    pub other: Option<Vec<Stmt>>,
    pub ended: bool,
}

/// What READ does at the file's end and before it, and whether END-READ stands.
#[derive(Drop)]
pub struct Ends {
    pub end: Option<Vec<Stmt>>,
    pub not_end: Option<Vec<Stmt>>,
    pub ended: bool,
}

// Each is made in a function of its own, which says what it is seen as.

pub fn tail(size: Option<Vec<Stmt>>, not_size: Option<Vec<Stmt>>, ended: bool) -> Tail
    ensures { plain_tail result ≡ MkTail (plain_phrase size) (plain_phrase not_size) ended }
{
    Tail {
        size,
        not_size,
        ended,
    }
}

fn conditional(test: Cond, branches: Branches) -> Verb
    ensures { plain_verb result ≡ if_of (plain_cond test) (plain_branches branches) }
{
    Verb::If {
        test,
        yes: branches.yes,
        other: branches.other,
        ended: branches.ended,
    }
}

fn evaluation(subject: Subject, cases: Cases) -> Verb
    ensures { plain_verb result ≡ evaluate_of subject (plain_cases cases) }
{
    Verb::Evaluate {
        subject,
        whens: cases.whens,
        other: cases.other,
        ended: cases.ended,
    }
}

fn inline(turns: Option<Loop>, body: Vec<Stmt>) -> Verb
    ensures { plain_verb result ≡ perform_inline (option_map plain_loop turns) (plain_list body) }
{
    Verb::PerformInline { turns, body }
}

fn reading(file: Name, into: Option<Ref>, ends: Ends) -> Verb
    ensures { plain_verb result ≡ read_of file into (plain_ends ends) }
{
    Verb::Read {
        file,
        into,
        end: ends.end,
        not_end: ends.not_end,
        ended: ends.ended,
    }
}

pub fn when(choices: Vec<Sel>, body: Vec<Stmt>) -> When
    ensures { plain_when result ≡ MkWhen (map plain_sel choices.items) (plain_list body) }
{
    When {
        choices: Many::of(choices),
        body,
    }
}

/// An empty list with room for one, since most lists of statements hold one.
pub fn with_room<T>(alloc: Global) -> Result<Vec<T>, AllocError>
    ensures { IfOk result (λ list. list.items ≡ []) }
{
    Vec::with_capacity(alloc, 1)
}

// What stands before the lists of a statement, with what was read behind it, whatever reader that is of.

pub fn with_phrases(
    arithmetic: Arithmetic,
    read: Result<(Tail, bool, &[Lexeme]), Halt>,
) -> Result<(Verb, bool, &[Lexeme]), Halt>
    ensures gives { (r : Reader Sign stmt.Tail) (ts : List Sign) → Gives (λ x. (plain_tail x.0, signs x.2.now)) read.entry (r ts) → Gives (λ x. (plain_verb x.0, signs x.2.now)) result (seen (with_tail (plain_arithmetic arithmetic)) r ts) }
    ensures takes { IfOk read.entry (λ x. x.1 ≡ tail_may (plain_tail x.0)) → IfOk result (λ x. x.1 ≡ may (takes_verb (plain_verb x.0))) }
    ensures rest { (n : ℕ) → IfOk read.entry (λ x. length x.2.now ≤ n) → IfOk result (λ x. length x.2.now ≤ n) }
{
    match read {
        Ok((tail, takes_not, rest)) => Ok((arithmetic.with_tail(tail), takes_not, rest)),
        Err(halt) => {
            drop(arithmetic);
            Err(halt)
        }
    }
}

pub fn with_branches(
    test: Cond,
    read: Result<(Branches, bool, &[Lexeme]), Halt>,
) -> Result<(Verb, bool, &[Lexeme]), Halt>
    ensures gives { (r : Reader Sign Two) (ts : List Sign) → Gives (λ x. (plain_branches x.0, signs x.2.now)) read.entry (r ts) → Gives (λ x. (plain_verb x.0, signs x.2.now)) result (seen (if_of (plain_cond test)) r ts) }
    ensures takes { IfOk read.entry (λ x. x.1 ≡ branches_may (plain_branches x.0)) → IfOk result (λ x. x.1 ≡ may (takes_verb (plain_verb x.0))) }
    ensures rest { (n : ℕ) → IfOk read.entry (λ x. length x.2.now ≤ n) → IfOk result (λ x. length x.2.now ≤ n) }
{
    match read {
        Ok((branches, takes_not, rest)) => Ok((conditional(test, branches), takes_not, rest)),
        Err(halt) => {
            drop(test);
            Err(halt)
        }
    }
}

pub fn with_cases(
    subject: Subject,
    read: Result<(Cases, bool, &[Lexeme]), Halt>,
) -> Result<(Verb, bool, &[Lexeme]), Halt>
    ensures gives { (r : Reader Sign Choice) (ts : List Sign) → Gives (λ x. (plain_cases x.0, signs x.2.now)) read.entry (r ts) → Gives (λ x. (plain_verb x.0, signs x.2.now)) result (seen (evaluate_of subject) r ts) }
    ensures takes { IfOk read.entry (λ x. x.1 ≡ cases_may (plain_cases x.0)) → IfOk result (λ x. x.1 ≡ may (takes_verb (plain_verb x.0))) }
    ensures rest { (n : ℕ) → IfOk read.entry (λ x. length x.2.now ≤ n) → IfOk result (λ x. length x.2.now ≤ n) }
{
    match read {
        Ok((cases, takes_not, rest)) => Ok((evaluation(subject, cases), takes_not, rest)),
        Err(halt) => {
            drop(subject);
            Err(halt)
        }
    }
}

pub fn with_body(
    turns: Option<Loop>,
    read: Result<(Vec<Stmt>, bool, &[Lexeme]), Halt>,
) -> Result<(Verb, bool, &[Lexeme]), Halt>
    ensures gives { (r : Reader Sign stmt.Stmts) (ts : List Sign) → Gives (λ x. (plain_list x.0, signs x.2.now)) read.entry (r ts) → Gives (λ x. (plain_verb x.0, signs x.2.now)) result (seen (perform_inline (option_map plain_loop turns)) r ts) }
    ensures takes { IfOk read.entry (λ x. x.1 ≡ false) → IfOk result (λ x. x.1 ≡ may (takes_verb (plain_verb x.0))) }
    ensures rest { (n : ℕ) → IfOk read.entry (λ x. length x.2.now ≤ n) → IfOk result (λ x. length x.2.now ≤ n) }
{
    match read {
        Ok((body, takes_not, rest)) => Ok((inline(turns, body), takes_not, rest)),
        Err(halt) => {
            drop(turns);
            Err(halt)
        }
    }
}

pub fn with_ends(
    file: Name,
    into: Option<Ref>,
    read: Result<(Ends, bool, &[Lexeme]), Halt>,
) -> Result<(Verb, bool, &[Lexeme]), Halt>
    ensures gives { (r : Reader Sign Both) (ts : List Sign) → Gives (λ x. (plain_ends x.0, signs x.2.now)) read.entry (r ts) → Gives (λ x. (plain_verb x.0, signs x.2.now)) result (seen (read_of file into) r ts) }
    ensures takes { IfOk read.entry (λ x. x.1 ≡ ends_may (plain_ends x.0)) → IfOk result (λ x. x.1 ≡ may (takes_verb (plain_verb x.0))) }
    ensures rest { (n : ℕ) → IfOk read.entry (λ x. length x.2.now ≤ n) → IfOk result (λ x. length x.2.now ≤ n) }
{
    match read {
        Ok((ends, takes_not, rest)) => Ok((reading(file, into, ends), takes_not, rest)),
        Err(halt) => {
            drop(file);
            drop(into);
            Err(halt)
        }
    }
}
