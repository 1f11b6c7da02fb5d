//! Statements with their names resolved and numbered in the order of the source.
#![tactic(auto, using(crate::proofs::FoundLemmas::found_noted, crate::proofs::FoundLemmas::found_append))]

ghost use Rattle.std.specs.Prelude.{◌≡◌, ◌+◌, map, IfOk, OnOk};
ghost use Rattle.std.specs.Option.{option_copied};
ghost use Rattle.cob_tree.specs.Stmt as tree_spec;
ghost use Rattle.cob_tree.specs.StmtView as tree_view;
ghost use Rattle.cob_tree.specs.StmtView.{plain_sel};
ghost use Rattle.cob_program.specs.Act.{stmts_of};
ghost use Rattle.cob_program.specs.ActView.{plain_stmt, plain_when, plain_stmts, plain_phrase, plain_whens};
ghost use Rattle.cob_program.specs.LogicView.{plain_logic};
ghost use Rattle.cob_typed_exprs.specs.Judged.{noted, each_of};
ghost use Rattle.cob_typed_conds.specs.Selections.{selection};
ghost use Rattle.cob_typed.specs.Lists.{found_behind, tree_phrase};
ghost use Rattle.cob_typed.specs.Heads.{plain_lists, tree_lists, typed_lists};
ghost use Rattle.cob_typed.specs.Statements.{typed_stmts, typed_stmt, typed_phrase, typed_whens};
ghost use Rattle.cob_typed.specs.StatementSteps.{typed_when};
ghost use Rattle.cob_typed.specs.Typing.{joined};

use crate::acts::when_of;
use crate::heads::{Lists, TypedLists, head_of, lists_of, looked_in, stmt_of};
use cob_program::{Logic, Stmt, When};
use cob_tree::Sel;
use cob_typed_conds::{Looked, selection};
use cob_typed_exprs::{Finding, Scope};
use std::alloc::AllocError;

/// The number of the next statement. More statements than numbers count as want of memory.
fn number(next: &mut u32) -> Result<u32, AllocError>
    ensures value { IfOk result (λ number. number ≡ next.old) }
    ensures next { OnOk result (next.new ≡ next.old + 1) }
{
    let number = *next;
    match number.checked_add(1) {
        None => Err(AllocError),
        Some(following) => {
            *next = following;
            Ok(number)
        }
    }
}

fn choices(
    scope: &Scope,
    findings: &mut Vec<Finding>,
    line: u32,
    looked: Looked,
    choices: &[Sel],
) -> Result<Vec<Logic>, AllocError>
    ensures value { IfOk result (λ tests. map plain_logic tests.items ≡ (each_of (selection scope.now looked) (map plain_sel choices.now)).value) }
    ensures noted { OnOk result (findings.new.items ≡ noted line findings.old.items (each_of (selection scope.now looked) (map plain_sel choices.now)).broken) }
{
    let mut tests = Vec::new(scope.alloc);
    for choice in choices {
        tests.push(selection(scope, findings, line, looked, choice)?)?;
    }
    Ok(tests)
}

/// Types statements, and adds them to a list.
#[cycle(lists)]
pub fn add_stmts(
    scope: &Scope,
    findings: &mut Vec<Finding>,
    next: &mut u32,
    list: &[cob_tree::Stmt],
    typed: &mut Vec<Stmt>,
) -> Result<(), AllocError>
    ensures value { OnOk result (stmts_of (map plain_stmt typed.new.items) ≡ joined (stmts_of (map plain_stmt typed.old.items)) (typed_stmts scope.now next.old (tree_spec.stmts_of (map tree_view.plain_stmt list.now))).value) }
    ensures next { OnOk result (next.new ≡ (typed_stmts scope.now next.old (tree_spec.stmts_of (map tree_view.plain_stmt list.now))).next) }
    ensures found { OnOk result (findings.new.items ≡ found_behind findings.old.items (typed_stmts scope.now next.old (tree_spec.stmts_of (map tree_view.plain_stmt list.now))).found) }
{
    for statement in list {
        let made = or_leave!(typed_stmt(scope, findings, next, statement));
        typed.push(made)?;
    }
    Ok(())
}

#[cycle(lists)]
fn typed_stmts(
    scope: &Scope,
    findings: &mut Vec<Finding>,
    next: &mut u32,
    list: &[cob_tree::Stmt],
) -> Result<Vec<Stmt>, AllocError>
    ensures value { IfOk result (λ typed. plain_stmts typed.items ≡ (typed_stmts scope.now next.old (tree_spec.stmts_of (map tree_view.plain_stmt list.now))).value) }
    ensures next { OnOk result (next.new ≡ (typed_stmts scope.now next.old (tree_spec.stmts_of (map tree_view.plain_stmt list.now))).next) }
    ensures found { OnOk result (findings.new.items ≡ found_behind findings.old.items (typed_stmts scope.now next.old (tree_spec.stmts_of (map tree_view.plain_stmt list.now))).found) }
{
    let mut typed = Vec::new(scope.alloc);
    or_leave!(add_stmts(scope, findings, next, list, &mut typed));
    Ok(typed)
}

#[cycle(lists)]
fn typed_stmt(
    scope: &Scope,
    findings: &mut Vec<Finding>,
    next: &mut u32,
    statement: &cob_tree::Stmt,
) -> Result<Stmt, AllocError>
    ensures value { IfOk result (λ typed. plain_stmt typed ≡ (typed_stmt scope.now next.old (tree_view.plain_stmt statement.now)).value) }
    ensures next { OnOk result (next.new ≡ (typed_stmt scope.now next.old (tree_view.plain_stmt statement.now)).next) }
    ensures found { OnOk result (findings.new.items ≡ found_behind findings.old.items (typed_stmt scope.now next.old (tree_view.plain_stmt statement.now)).found) }
{
    let number = or_leave!(number(next));
    let line = statement.line;
    let head = or_leave!(head_of(scope, findings, line, &statement.verb));
    let looked = looked_in(&head);
    let lists = lists_of(&statement.verb);
    let typed = typed_lists(scope, findings, next, line, looked, lists);
    stmt_of(scope.alloc, number, line, head, typed)
}

/// The lists of a verb on a line, whose WHENs are held against something.
#[cycle(lists)]
fn typed_lists(
    scope: &Scope,
    findings: &mut Vec<Finding>,
    next: &mut u32,
    line: u32,
    looked: Looked,
    lists: Lists<'_>,
) -> Result<TypedLists, AllocError>
    ensures value { IfOk result (λ typed. plain_lists typed ≡ (typed_lists scope.now line next.old looked (tree_lists lists.entry)).value) }
    ensures next { OnOk result (next.new ≡ (typed_lists scope.now line next.old looked (tree_lists lists.entry)).next) }
    ensures found { OnOk result (findings.new.items ≡ found_behind findings.old.items (typed_lists scope.now line next.old looked (tree_lists lists.entry)).found) }
{
    let whens = or_leave!(typed_whens(scope, findings, next, line, looked, lists.whens));
    let first = or_leave!(typed_phrase(scope, findings, next, lists.first));
    let second = or_leave!(typed_phrase(scope, findings, next, lists.second));
    Ok(TypedLists {
        whens,
        first,
        second,
    })
}

#[cycle(lists)]
fn typed_phrase(
    scope: &Scope,
    findings: &mut Vec<Finding>,
    next: &mut u32,
    phrase: Option<&Vec<cob_tree::Stmt>>,
) -> Result<Option<Vec<Stmt>>, AllocError>
    ensures value { IfOk result (λ typed. plain_phrase typed ≡ (typed_phrase scope.now next.old (tree_phrase (option_copied phrase.entry))).value) }
    ensures next { OnOk result (next.new ≡ (typed_phrase scope.now next.old (tree_phrase (option_copied phrase.entry))).next) }
    ensures found { OnOk result (findings.new.items ≡ found_behind findings.old.items (typed_phrase scope.now next.old (tree_phrase (option_copied phrase.entry))).found) }
{
    match phrase {
        None => Ok(None),
        Some(list) => Ok(Some(or_leave!(typed_stmts(scope, findings, next, list)))),
    }
}

// ---- EVALUATE

#[cycle(lists)]
fn typed_when(
    scope: &Scope,
    findings: &mut Vec<Finding>,
    next: &mut u32,
    line: u32,
    looked: Looked,
    when: &cob_tree::When,
) -> Result<When, AllocError>
    ensures value { IfOk result (λ typed. plain_when typed ≡ (typed_when scope.now line next.old looked (tree_view.plain_when when.now)).value) }
    ensures next { OnOk result (next.new ≡ (typed_when scope.now line next.old looked (tree_view.plain_when when.now)).next) }
    ensures found { OnOk result (findings.new.items ≡ found_behind findings.old.items (typed_when scope.now line next.old looked (tree_view.plain_when when.now)).found) }
{
    let tests = or_leave!(choices(scope, findings, line, looked, when.choices.get()));
    let body = or_leave!(typed_stmts(scope, findings, next, &when.body));
    Ok(when_of(tests, body))
}

#[cycle(lists)]
fn typed_whens(
    scope: &Scope,
    findings: &mut Vec<Finding>,
    next: &mut u32,
    line: u32,
    looked: Looked,
    whens: &[cob_tree::When],
) -> Result<Vec<When>, AllocError>
    ensures value { IfOk result (λ typed. plain_whens typed.items ≡ (typed_whens scope.now line next.old looked (tree_spec.whens_of (map tree_view.plain_when whens.now))).value) }
    ensures next { OnOk result (next.new ≡ (typed_whens scope.now line next.old looked (tree_spec.whens_of (map tree_view.plain_when whens.now))).next) }
    ensures found { OnOk result (findings.new.items ≡ found_behind findings.old.items (typed_whens scope.now line next.old looked (tree_spec.whens_of (map tree_view.plain_when whens.now))).found) }
{
    let mut typed = Vec::new(scope.alloc);
    for when in whens {
        let made = or_leave!(typed_when(scope, findings, next, line, looked, when));
        typed.push(made)?;
    }
    Ok(typed)
}
