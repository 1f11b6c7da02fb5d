//! Verbs in two parts: what is judged before their lists of statements, and these lists.
ghost use Rattle.std.specs.Prelude.{◌≡◌, ℕ, Option, is_ok, IfOk, OnOk};
ghost use Rattle.std.specs.Option.{option_copied};
ghost use Rattle.cob_tree.specs.StmtView.{plain_tail, plain_verb};
ghost use Rattle.cob_program.specs.Act as act_spec;
ghost use Rattle.cob_program.specs.Act.{MkStmt};
ghost use Rattle.cob_program.specs.Logic as logic_spec;
ghost use Rattle.cob_program.specs.LogicView.{plain_logic};
ghost use Rattle.cob_program.specs.ActView.{plain_act, plain_stmt, plain_stmts, plain_phrase, plain_turns};
ghost use Rattle.cob_typed_exprs.specs.Judged.{noted};
ghost use Rattle.cob_typed_conds.specs.declared.selections.Looked.{Looked};
ghost use Rattle.cob_typed_verbs.specs.Arithmetic as work_spec;
ghost use Rattle.cob_typed_verbs.specs.Workings.{plain_worked};
ghost use Rattle.cob_typed.specs.Lists.{tree_phrase};
ghost use Rattle.cob_typed.specs.Statements.{stmts_if};
ghost use Rattle.cob_typed.specs.Heads as spec;
ghost use Rattle.cob_typed.specs.Heads.{plain_head, plain_lists, tree_lists};

use crate::acts::{arith_of, evaluate_of, if_of, inline_of, perform_of, read_of, stop};
use crate::performs::{go_act, range_act, turns_of};
use cob_program::{Act, Logic, Stmt, Turns, When};
use cob_tree::{Tail, Verb};
use cob_typed_conds::{Looked, condition, looked_at};
use cob_typed_exprs::{Finding, Scope};
use cob_typed_verbs::{
    Worked, add_giving, add_to, close_act, compute, divide_giving, divide_into, move_act,
    multiply_by, multiply_giving, nothing, open_act, read_parts, set_act, show_act, subtract_from,
    subtract_giving, write_act,
};
use std::alloc::{AllocError, Global};

/// What a verb is before its lists.
#[derive(Drop)]
pub enum Head {
    /// A verb without lists
    Done(Act),
    /// An arithmetic statement
    Worked(Worked),
    /// IF
    Tested(Logic),
    /// EVALUATE
    Looked(Looked),
    /// PERFORM of a body of its own
    Turned(Turns),
    /// READ: its file, and the item of INTO
    Reads(u32, Option<u32>),
}

/// The lists of a verb in the order of the source: WHENs, and two lists of which each may be left out.
#[derive(Clone, Copy)]
pub struct Lists<'x> {
    pub whens: &'x [cob_tree::When],
    pub first: Option<&'x Vec<cob_tree::Stmt>>,
    pub second: Option<&'x Vec<cob_tree::Stmt>>,
}

/// The lists of a verb, typed.
#[derive(Drop)]
pub struct TypedLists {
    pub whens: Vec<When>,
    pub first: Option<Vec<Stmt>>,
    pub second: Option<Vec<Stmt>>,
}

/// A verb without lists.
fn done(act: Result<Act, AllocError>) -> Result<Head, AllocError>
    ensures ends { is_ok result ≡ is_ok act }
    ensures value { (x : act_spec.Act) → IfOk act (λ y. plain_act y ≡ x) → IfOk result (λ made. plain_head made ≡ spec.done x) }
{
    match act {
        Ok(act) => Ok(Head::Done(act)),
        Err(error) => Err(error),
    }
}

/// An arithmetic statement.
fn worked(work: Result<Worked, AllocError>) -> Result<Head, AllocError>
    ensures ends { is_ok result ≡ is_ok work }
    ensures value { (x : work_spec.Worked) → IfOk work (λ y. plain_worked y ≡ x) → IfOk result (λ made. plain_head made ≡ spec.worked x) }
{
    match work {
        Ok(work) => Ok(Head::Worked(work)),
        Err(error) => Err(error),
    }
}

/// IF
fn tested(test: Result<Logic, AllocError>) -> Result<Head, AllocError>
    ensures ends { is_ok result ≡ is_ok test }
    ensures value { (x : logic_spec.Logic) → IfOk test (λ y. plain_logic y ≡ x) → IfOk result (λ made. plain_head made ≡ spec.tested x) }
{
    match test {
        Ok(test) => Ok(Head::Tested(test)),
        Err(error) => Err(error),
    }
}

/// EVALUATE
fn looked(subject: Result<Looked, AllocError>) -> Result<Head, AllocError>
    ensures ends { is_ok result ≡ is_ok subject }
    ensures value { (x : Looked) → IfOk subject (λ y. y ≡ x) → IfOk result (λ made. plain_head made ≡ spec.looked x) }
{
    match subject {
        Ok(subject) => Ok(Head::Looked(subject)),
        Err(error) => Err(error),
    }
}

/// PERFORM of a body of its own
fn turned(turns: Result<Turns, AllocError>) -> Result<Head, AllocError>
    ensures ends { is_ok result ≡ is_ok turns }
    ensures value { (x : act_spec.Turns) → IfOk turns (λ y. plain_turns y ≡ x) → IfOk result (λ made. plain_head made ≡ spec.turned x) }
{
    match turns {
        Ok(turns) => Ok(Head::Turned(turns)),
        Err(error) => Err(error),
    }
}

/// READ: its file, and the item of INTO
fn reads(parts: Result<(u32, Option<u32>), AllocError>) -> Result<Head, AllocError>
    ensures ends { is_ok result ≡ is_ok parts }
    ensures value { (x : ℕ × Option ℕ) → IfOk parts (λ y. y ≡ x) → IfOk result (λ made. plain_head made ≡ spec.reads_of x) }
{
    match parts {
        Ok((file, into)) => Ok(Head::Reads(file, into)),
        Err(error) => Err(error),
    }
}

/// What a verb is before its lists, and the rules that it breaks there.
pub fn head_of(
    scope: &Scope,
    findings: &mut Vec<Finding>,
    line: u32,
    verb: &Verb,
) -> Result<Head, AllocError>
    ensures value { IfOk result (λ made. plain_head made ≡ (spec.head scope.now (plain_verb verb.now)).value) }
    ensures noted { OnOk result (findings.new.items ≡ noted line findings.old.items (spec.head scope.now (plain_verb verb.now)).broken) }
{
    match verb {
        Verb::Move { from, to } => done(move_act(scope, findings, line, from, to.get())),
        Verb::Set(name) => done(set_act(scope, findings, line, name)),
        Verb::Display(operands) => done(show_act(scope, findings, line, operands.get())),
        Verb::AddTo { addends, to, .. } => {
            worked(add_to(scope, findings, line, addends.get(), to.get()))
        }
        Verb::AddGiving {
            addends,
            to,
            giving,
            ..
        } => {
            let to = to.as_ref();
            worked(add_giving(scope, findings, line, addends.get(), to, giving.get()))
        }
        Verb::SubtractFrom { less, from, .. } => {
            worked(subtract_from(scope, findings, line, less.get(), from.get()))
        }
        Verb::SubtractGiving {
            less,
            from,
            giving,
            ..
        } => worked(subtract_giving(scope, findings, line, less.get(), from, giving.get())),
        Verb::MultiplyBy { factor, by, .. } => {
            worked(multiply_by(scope, findings, line, factor, by.get()))
        }
        Verb::MultiplyGiving {
            factor,
            by,
            giving,
            ..
        } => worked(multiply_giving(scope, findings, line, factor, by, giving.get())),
        Verb::DivideInto { divisor, into, .. } => {
            worked(divide_into(scope, findings, line, divisor, into.get()))
        }
        Verb::DivideGiving {
            first,
            way,
            second,
            giving,
            remainder,
            ..
        } => {
            let rest = remainder.as_ref();
            let giving = giving.get();
            worked(divide_giving(scope, findings, line, first, *way, second, giving, rest))
        }
        Verb::Compute { to, value, .. } => {
            worked(compute(scope, findings, line, to.get(), value))
        }
        Verb::If { test, .. } => tested(condition(scope, findings, line, test)),
        Verb::Evaluate { subject, .. } => looked(looked_at(scope, findings, line, subject)),
        Verb::PerformRange { first, thru, turns } => {
            let thru = thru.as_ref();
            done(range_act(scope, findings, line, first, thru, turns.as_ref()))
        }
        Verb::PerformInline { turns, .. } => {
            turned(turns_of(scope, findings, line, turns.as_ref()))
        }
        Verb::Go(name) => done(go_act(scope, findings, line, name)),
        Verb::Exit | Verb::Continue => done(Ok(nothing())),
        Verb::StopRun => done(Ok(stop())),
        Verb::Open(opens) => done(open_act(scope, findings, line, opens.get())),
        Verb::Close(names) => done(close_act(scope, findings, line, names.get())),
        Verb::Read { file, into, .. } => {
            reads(read_parts(scope, findings, line, file, into.as_ref()))
        }
        Verb::Write { record, from, .. } => {
            done(write_act(scope, findings, line, record, from.as_ref()))
        }
    }
}

/// What the WHENs of a verb are held against.
pub fn looked_in(head: &Head) -> Looked
    ensures { result ≡ spec.looked_in (plain_head head.now) }
{
    match head {
        Head::Looked(looked) => *looked,
        _ => Looked::Truth,
    }
}

// ---- lists

fn two_lists<'x>(
    first: Option<&'x Vec<cob_tree::Stmt>>,
    second: Option<&'x Vec<cob_tree::Stmt>>,
) -> Lists<'x>
    ensures { tree_lists result ≡ spec.two_lists (tree_phrase (option_copied first.entry)) (tree_phrase (option_copied second.entry)) }
{
    Lists {
        whens: &[],
        first,
        second,
    }
}

fn tail_lists(tail: &Tail) -> Lists<'_>
    ensures { tree_lists result ≡ spec.tail_lists (plain_tail tail.now) }
{
    two_lists(tail.size.as_ref(), tail.not_size.as_ref())
}

/// The lists of a verb.
pub fn lists_of(verb: &Verb) -> Lists<'_>
    ensures { tree_lists result ≡ spec.lists_of (plain_verb verb.now) }
{
    match verb {
        Verb::AddTo { tail, .. } => tail_lists(tail),
        Verb::AddGiving { tail, .. } => tail_lists(tail),
        Verb::SubtractFrom { tail, .. } => tail_lists(tail),
        Verb::SubtractGiving { tail, .. } => tail_lists(tail),
        Verb::MultiplyBy { tail, .. } => tail_lists(tail),
        Verb::MultiplyGiving { tail, .. } => tail_lists(tail),
        Verb::DivideInto { tail, .. } => tail_lists(tail),
        Verb::DivideGiving { tail, .. } => tail_lists(tail),
        Verb::Compute { tail, .. } => tail_lists(tail),
        Verb::If { yes, other, .. } => two_lists(Some(yes), other.as_ref()),
        Verb::Evaluate { whens, other, .. } => Lists {
            whens,
            first: None,
            second: other.as_ref(),
        },
        Verb::PerformInline { body, .. } => two_lists(Some(body), None),
        Verb::Read { end, not_end, .. } => two_lists(end.as_ref(), not_end.as_ref()),
        Verb::Move { .. }
        | Verb::Set(_)
        | Verb::Display(_)
        | Verb::PerformRange { .. }
        | Verb::Go(_)
        | Verb::Exit
        | Verb::Continue
        | Verb::StopRun
        | Verb::Open(_)
        | Verb::Close(_)
        | Verb::Write { .. } => two_lists(None, None),
    }
}

// ---- put together

/// A list, which is empty where it is left out.
fn list_if(alloc: Global, phrase: Option<Vec<Stmt>>) -> Vec<Stmt>
    ensures { plain_stmts result.items ≡ stmts_if (plain_phrase phrase) }
{
    match phrase {
        None => Vec::new(alloc),
        Some(list) => list,
    }
}

fn act_of(alloc: Global, head: Head, lists: TypedLists) -> Act
    ensures { plain_act result ≡ spec.act_of (plain_head head) (plain_lists lists) }
{
    match head {
        Head::Done(act) => act,
        Head::Worked(worked) => arith_of(worked, lists.first, list_if(alloc, lists.second)),
        Head::Tested(test) => {
            let yes = list_if(alloc, lists.first);
            if_of(test, yes, list_if(alloc, lists.second))
        }
        Head::Looked(_) => evaluate_of(lists.whens, list_if(alloc, lists.second)),
        Head::Turned(turns) => perform_of(inline_of(list_if(alloc, lists.first)), turns),
        Head::Reads(file, into) => {
            read_of(file, into, lists.first, list_if(alloc, lists.second))
        }
    }
}

/// The statement of a verb's parts, where there is room for its lists.
pub fn stmt_of(
    alloc: Global,
    number: u32,
    line: u32,
    head: Head,
    lists: Result<TypedLists, AllocError>,
) -> Result<Stmt, AllocError>
    ensures ends { is_ok result ≡ is_ok lists }
    ensures value { (l : spec.TypedLists) → IfOk lists (λ typed. plain_lists typed ≡ l) → IfOk result (λ made. plain_stmt made ≡ MkStmt number line (spec.act_of (plain_head head) l)) }
{
    match lists {
        Ok(lists) => Ok(Stmt::of(number, line, act_of(alloc, head, lists))),
        Err(error) => {
            drop(head);
            Err(error)
        }
    }
}
