//! Conditions, with their abbreviations written out (ISO 1989:1985, "Abbreviated combined relation conditions").
ghost use Rattle.std.specs.Prelude.{◌≡◌, ◌++◌, ◌||◌, map, option_map, IfOk, OnOk};
ghost use Rattle.std.specs.Option.{option_copied};
ghost use Rattle.cob_tree.specs.ExprView.{plain_expr};
ghost use Rattle.cob_tree.specs.Cond.{conjs_of, negs_of};
ghost use Rattle.cob_tree.specs.CondView.{plain_cond, plain_conj, plain_neg, plain_simple};
ghost use Rattle.cob_program.specs.LogicView.{plain_logic, plain_test};
ghost use Rattle.cob_program.specs.Logic.{test};
ghost use Rattle.cob_typed_exprs.specs.Judged.{noted};
ghost use Rattle.cob_typed_exprs.specs.Sums.{lone};
ghost use Rattle.cob_typed_conds.specs.Operands.{plain_carry};
ghost use Rattle.cob_typed_conds.specs.Conditions.{denied_if, relation_logic, member_of, member_if, named_condition, Carry, tested_or_not, misplaced, unrelated, related, abbreviated_from, abbreviated_behind, value_alone, name_alone, expression_alone, any_or_one, all_or_one, walk_cond, walk_conjs, walk_conj, walk_negs, walk_neg, walk_simple, numeric_test, signed_test};

use crate::carry::Carry;
use crate::relations::{misplaced, numeric_test, relation_test, signed_test};
use cob_data::{Flag, Rule};
use cob_program::{Logic, Test};
use cob_tree::{Cond, Conj, Expr, Neg, Opnd, Ref, Rel, SignTest, Simple};
use cob_typed_exprs::{Finding, Scope, is_there, lone, one_of_kind};
use std::alloc::{AllocError, Global};

/// A condition, or with NOT its contrary.
fn denied_if(alloc: Global, not: bool, logic: Logic) -> Result<Logic, AllocError>
    ensures { IfOk result (λ made. plain_logic made ≡ denied_if not (plain_logic logic)) }
{
    if not {
        Ok(Logic::contrary(Box::new(alloc, logic)?))
    } else {
        Ok(logic)
    }
}

fn tested_or_not(alloc: Global, not: bool, asked: Test) -> Result<Logic, AllocError>
    ensures { IfOk result (λ made. plain_logic made ≡ denied_if not (test (plain_test asked))) }
{
    denied_if(alloc, not, Logic::test(asked))
}

fn member_of(alloc: Global, flag: Option<&Flag>) -> Result<Test, AllocError>
    ensures { IfOk result (λ made. plain_test made ≡ member_of (option_copied flag.entry)) }
{
    match flag {
        None => Ok(Test::Always),
        Some(flag) => {
            let ranges = or_leave!(flag.copied_ranges(alloc));
            Ok(Test::Member {
                item: flag.item,
                ranges,
            })
        }
    }
}

#[tactic(auto, using(crate::proofs::Walks::any_of_one, crate::proofs::Walks::any_of_many))]
fn any_or_one(mut parts: Vec<Logic>) -> Logic
    ensures { plain_logic result ≡ any_or_one (map plain_logic parts.items) }
{
    if parts.len() != 1 {
        return Logic::any(parts);
    }
    match parts.pop() {
        Some(only) => only,
        None => Logic::any(parts),
    }
}

#[tactic(auto, using(crate::proofs::Walks::all_of_one, crate::proofs::Walks::all_of_many))]
fn all_or_one(mut parts: Vec<Logic>) -> Logic
    ensures { plain_logic result ≡ all_or_one (map plain_logic parts.items) }
{
    if parts.len() != 1 {
        return Logic::all(parts);
    }
    match parts.pop() {
        Some(only) => only,
        None => Logic::all(parts),
    }
}

fn relation_logic(
    scope: &Scope,
    findings: &mut Vec<Finding>,
    line: u32,
    left: &Expr,
    not: bool,
    rel: Rel,
    right: &Expr,
) -> Result<Logic, AllocError>
    ensures value { IfOk result (λ logic. plain_logic logic ≡ (relation_logic scope.now (plain_expr left.now) not rel (plain_expr right.now)).value) }
    ensures noted { OnOk result (findings.new.items ≡ noted line findings.old.items (relation_logic scope.now (plain_expr left.now) not rel (plain_expr right.now)).broken) }
{
    let relation = or_leave!(relation_test(scope, findings, line, left, rel, right));
    tested_or_not(scope.alloc, not, relation)
}

// ---- condition-names

fn member_if(scope: &Scope, place: Option<u32>) -> Result<Test, AllocError>
    ensures { IfOk result (λ test. plain_test test ≡ member_if scope.now place) }
{
    match place {
        None => Ok(Test::Always),
        Some(place) => member_of(scope.alloc, scope.flag_at(place)),
    }
}

fn named_condition(
    scope: &Scope,
    findings: &mut Vec<Finding>,
    line: u32,
    reference: &Ref,
) -> Result<Logic, AllocError>
    ensures value { IfOk result (λ logic. plain_logic logic ≡ test (named_condition scope.now reference.now).value) }
    ensures noted { OnOk result (findings.new.items ≡ noted line findings.old.items (named_condition scope.now reference.now).broken) }
{
    let something = scope.means_something(reference);
    let found = scope.flag(reference);
    let place = or_leave!(one_of_kind(findings, line, Rule::Q6, something, found));
    let member = or_leave!(member_if(scope, place));
    Ok(Logic::test(member))
}

// ---- abbreviations

fn unrelated<'t>(
    scope: &Scope,
    findings: &mut Vec<Finding>,
    line: u32,
    expr: &'t Expr,
) -> Result<(Logic, Option<Carry<'t>>), AllocError>
    ensures value { IfOk result (λ x. plain_logic x.0 ≡ (unrelated scope.now (plain_expr expr.now)).logic.value) }
    ensures carry { IfOk result (λ x. option_map plain_carry x.1 ≡ (unrelated scope.now (plain_expr expr.now)).carry) }
    ensures noted { OnOk result (findings.new.items ≡ noted line findings.old.items (unrelated scope.now (plain_expr expr.now)).logic.broken) }
{
    let nothing = or_leave!(misplaced(scope, findings, line, Rule::Q6, expr));
    Ok((Logic::test(nothing), None))
}

fn related<'t>(
    scope: &Scope,
    findings: &mut Vec<Finding>,
    line: u32,
    carry: Carry<'t>,
    right: &'t Expr,
) -> Result<(Logic, Option<Carry<'t>>), AllocError>
    ensures value { IfOk result (λ x. plain_logic x.0 ≡ (related scope.now carry.entry.denied (plain_expr carry.entry.subject.now) carry.entry.not carry.entry.rel (plain_expr right.now)).logic.value) }
    ensures carry { IfOk result (λ x. option_map plain_carry x.1 ≡ (related scope.now carry.entry.denied (plain_expr carry.entry.subject.now) carry.entry.not carry.entry.rel (plain_expr right.now)).carry) }
    ensures noted { OnOk result (findings.new.items ≡ noted line findings.old.items (related scope.now carry.entry.denied (plain_expr carry.entry.subject.now) carry.entry.not carry.entry.rel (plain_expr right.now)).logic.broken) }
{
    let logic = or_leave!(relation_logic(
        scope,
        findings,
        line,
        carry.subject,
        carry.not,
        carry.rel,
        right,
    ));
    Ok((logic, Some(carry)))
}

fn abbreviated_from<'t>(
    scope: &Scope,
    findings: &mut Vec<Finding>,
    line: u32,
    denied: bool,
    before: Carry<'t>,
    not: bool,
    rel: Rel,
    right: &'t Expr,
) -> Result<(Logic, Option<Carry<'t>>), AllocError>
    ensures value { IfOk result (λ x. plain_logic x.0 ≡ (abbreviated_from scope.now denied (plain_carry before.entry) not rel (plain_expr right.now)).logic.value) }
    ensures carry { IfOk result (λ x. option_map plain_carry x.1 ≡ (abbreviated_from scope.now denied (plain_carry before.entry) not rel (plain_expr right.now)).carry) }
    ensures noted { OnOk result (findings.new.items ≡ noted line findings.old.items (abbreviated_from scope.now denied (plain_carry before.entry) not rel (plain_expr right.now)).logic.broken) }
{
    if denied || before.denied {
        unrelated(scope, findings, line, right)
    } else {
        let subject = before.subject;
        related(
            scope,
            findings,
            line,
            Carry {
                subject,
                not,
                rel,
                denied: false,
            },
            right,
        )
    }
}

fn abbreviated_behind<'t>(
    scope: &Scope,
    findings: &mut Vec<Finding>,
    line: u32,
    denied: bool,
    before: Option<Carry<'t>>,
    not: bool,
    rel: Rel,
    right: &'t Expr,
) -> Result<(Logic, Option<Carry<'t>>), AllocError>
    ensures value { IfOk result (λ x. plain_logic x.0 ≡ (abbreviated_behind scope.now denied (option_map plain_carry before.entry) not rel (plain_expr right.now)).logic.value) }
    ensures carry { IfOk result (λ x. option_map plain_carry x.1 ≡ (abbreviated_behind scope.now denied (option_map plain_carry before.entry) not rel (plain_expr right.now)).carry) }
    ensures noted { OnOk result (findings.new.items ≡ noted line findings.old.items (abbreviated_behind scope.now denied (option_map plain_carry before.entry) not rel (plain_expr right.now)).logic.broken) }
{
    match before {
        None => unrelated(scope, findings, line, right),
        Some(before) => abbreviated_from(scope, findings, line, denied, before, not, rel, right),
    }
}

fn value_alone<'t>(
    scope: &Scope,
    findings: &mut Vec<Finding>,
    line: u32,
    denied: bool,
    before: Option<Carry<'t>>,
    expr: &'t Expr,
) -> Result<(Logic, Option<Carry<'t>>), AllocError>
    ensures value { IfOk result (λ x. plain_logic x.0 ≡ (value_alone scope.now denied (option_map plain_carry before.entry) (plain_expr expr.now)).logic.value) }
    ensures carry { IfOk result (λ x. option_map plain_carry x.1 ≡ (value_alone scope.now denied (option_map plain_carry before.entry) (plain_expr expr.now)).carry) }
    ensures noted { OnOk result (findings.new.items ≡ noted line findings.old.items (value_alone scope.now denied (option_map plain_carry before.entry) (plain_expr expr.now)).logic.broken) }
{
    match before {
        None => unrelated(scope, findings, line, expr),
        Some(before) => {
            abbreviated_from(
                scope, findings, line, denied, before, before.not, before.rel, expr,
            )
        }
    }
}

fn name_alone<'t>(
    scope: &Scope,
    findings: &mut Vec<Finding>,
    line: u32,
    denied: bool,
    before: Option<Carry<'t>>,
    expr: &'t Expr,
    reference: &Ref,
) -> Result<(Logic, Option<Carry<'t>>), AllocError>
    ensures value { IfOk result (λ x. plain_logic x.0 ≡ (name_alone scope.now denied (option_map plain_carry before.entry) (plain_expr expr.now) reference.now).logic.value) }
    ensures carry { IfOk result (λ x. option_map plain_carry x.1 ≡ (name_alone scope.now denied (option_map plain_carry before.entry) (plain_expr expr.now) reference.now).carry) }
    ensures noted { OnOk result (findings.new.items ≡ noted line findings.old.items (name_alone scope.now denied (option_map plain_carry before.entry) (plain_expr expr.now) reference.now).logic.broken) }
{
    match before {
        None => {
            let logic = or_leave!(named_condition(scope, findings, line, reference));
            Ok((logic, None))
        }
        Some(before) => {
            if is_there(scope.item(reference)) {
                abbreviated_from(
                    scope, findings, line, denied, before, before.not, before.rel, expr,
                )
            } else {
                let logic = or_leave!(named_condition(scope, findings, line, reference));
                Ok((logic, None))
            }
        }
    }
}

fn expression_alone<'t>(
    scope: &Scope,
    findings: &mut Vec<Finding>,
    line: u32,
    denied: bool,
    before: Option<Carry<'t>>,
    expr: &'t Expr,
    alone: Option<&Opnd>,
) -> Result<(Logic, Option<Carry<'t>>), AllocError>
    ensures value { IfOk result (λ x. plain_logic x.0 ≡ (expression_alone scope.now denied (option_map plain_carry before.entry) (plain_expr expr.now) (option_copied alone.entry)).logic.value) }
    ensures carry { IfOk result (λ x. option_map plain_carry x.1 ≡ (expression_alone scope.now denied (option_map plain_carry before.entry) (plain_expr expr.now) (option_copied alone.entry)).carry) }
    ensures noted { OnOk result (findings.new.items ≡ noted line findings.old.items (expression_alone scope.now denied (option_map plain_carry before.entry) (plain_expr expr.now) (option_copied alone.entry)).logic.broken) }
{
    match alone {
        Some(Opnd::Ref(reference)) => {
            name_alone(scope, findings, line, denied, before, expr, reference)
        }
        Some(Opnd::Const(_)) | None => value_alone(scope, findings, line, denied, before, expr),
    }
}

// ---- class and sign conditions

fn class_condition<'t>(
    scope: &Scope,
    findings: &mut Vec<Finding>,
    line: u32,
    not: bool,
    value: &Expr,
) -> Result<(Logic, Option<Carry<'t>>), AllocError>
    ensures value { IfOk result (λ x. plain_logic x.0 ≡ (tested_or_not not (numeric_test scope.now (plain_expr value.now) (lone (plain_expr value.now)))).logic.value) }
    ensures carry { IfOk result (λ x. option_map plain_carry x.1 ≡ (tested_or_not not (numeric_test scope.now (plain_expr value.now) (lone (plain_expr value.now)))).carry) }
    ensures noted { OnOk result (findings.new.items ≡ noted line findings.old.items (tested_or_not not (numeric_test scope.now (plain_expr value.now) (lone (plain_expr value.now)))).logic.broken) }
{
    let asked = or_leave!(numeric_test(scope, findings, line, value, lone(value)));
    let logic = or_leave!(tested_or_not(scope.alloc, not, asked));
    Ok((logic, None))
}

fn sign_condition<'t>(
    scope: &Scope,
    findings: &mut Vec<Finding>,
    line: u32,
    not: bool,
    asked: SignTest,
    value: &Expr,
) -> Result<(Logic, Option<Carry<'t>>), AllocError>
    ensures value { IfOk result (λ x. plain_logic x.0 ≡ (tested_or_not not (signed_test scope.now asked (plain_expr value.now) (lone (plain_expr value.now)))).logic.value) }
    ensures carry { IfOk result (λ x. option_map plain_carry x.1 ≡ (tested_or_not not (signed_test scope.now asked (plain_expr value.now) (lone (plain_expr value.now)))).carry) }
    ensures noted { OnOk result (findings.new.items ≡ noted line findings.old.items (tested_or_not not (signed_test scope.now asked (plain_expr value.now) (lone (plain_expr value.now)))).logic.broken) }
{
    let asked = or_leave!(signed_test(scope, findings, line, asked, value, lone(value)));
    let logic = or_leave!(tested_or_not(scope.alloc, not, asked));
    Ok((logic, None))
}

// ---- whole conditions

/// A condition with its names resolved and its abbreviations written out.
#[cycle(walk)]
pub fn condition(
    scope: &Scope,
    findings: &mut Vec<Finding>,
    line: u32,
    cond: &Cond,
) -> Result<Logic, AllocError>
    ensures value { IfOk result (λ logic. plain_logic logic ≡ (walk_cond scope.now (plain_cond cond.now)).value) }
    ensures noted { OnOk result (findings.new.items ≡ noted line findings.old.items (walk_cond scope.now (plain_cond cond.now)).broken) }
{
    let (first, behind) = walk_conj(scope, findings, line, None, &cond.first)?;
    let mut parts = Vec::new(scope.alloc);
    parts.push(first)?;
    add_conjs(scope, findings, line, behind, &cond.others, &mut parts)?;
    Ok(any_or_one(parts))
}

#[cycle(walk)]
fn add_conjs<'t>(
    scope: &Scope,
    findings: &mut Vec<Finding>,
    line: u32,
    before: Option<Carry<'t>>,
    conjs: &'t [Conj],
    parts: &mut Vec<Logic>,
) -> Result<(), AllocError>
    ensures value { OnOk result (map plain_logic parts.new.items ≡ map plain_logic parts.old.items ++ (walk_conjs scope.now (option_map plain_carry before.entry) (conjs_of (map plain_conj conjs.now))).logics.value) }
    ensures noted { OnOk result (findings.new.items ≡ noted line findings.old.items (walk_conjs scope.now (option_map plain_carry before.entry) (conjs_of (map plain_conj conjs.now))).logics.broken) }
{
    let mut carry = before;
    for conj in conjs {
        let (logic, behind) = walk_conj(scope, findings, line, carry, conj)?;
        parts.push(logic)?;
        carry = behind;
    }
    Ok(())
}

#[cycle(walk)]
fn walk_conj<'t>(
    scope: &Scope,
    findings: &mut Vec<Finding>,
    line: u32,
    before: Option<Carry<'t>>,
    conj: &'t Conj,
) -> Result<(Logic, Option<Carry<'t>>), AllocError>
    ensures value { IfOk result (λ x. plain_logic x.0 ≡ (walk_conj scope.now (option_map plain_carry before.entry) (plain_conj conj.now)).logic.value) }
    ensures carry { IfOk result (λ x. option_map plain_carry x.1 ≡ (walk_conj scope.now (option_map plain_carry before.entry) (plain_conj conj.now)).carry) }
    ensures noted { OnOk result (findings.new.items ≡ noted line findings.old.items (walk_conj scope.now (option_map plain_carry before.entry) (plain_conj conj.now)).logic.broken) }
{
    let (first, behind) = walk_neg(scope, findings, line, before, &conj.first)?;
    let mut parts = Vec::new(scope.alloc);
    parts.push(first)?;
    let last = add_negs(scope, findings, line, behind, &conj.others, &mut parts)?;
    Ok((all_or_one(parts), last))
}

#[cycle(walk)]
fn add_negs<'t>(
    scope: &Scope,
    findings: &mut Vec<Finding>,
    line: u32,
    before: Option<Carry<'t>>,
    negs: &'t [Neg],
    parts: &mut Vec<Logic>,
) -> Result<Option<Carry<'t>>, AllocError>
    ensures value { OnOk result (map plain_logic parts.new.items ≡ map plain_logic parts.old.items ++ (walk_negs scope.now (option_map plain_carry before.entry) (negs_of (map plain_neg negs.now))).logics.value) }
    ensures carry { IfOk result (λ x. option_map plain_carry x ≡ (walk_negs scope.now (option_map plain_carry before.entry) (negs_of (map plain_neg negs.now))).carry) }
    ensures noted { OnOk result (findings.new.items ≡ noted line findings.old.items (walk_negs scope.now (option_map plain_carry before.entry) (negs_of (map plain_neg negs.now))).logics.broken) }
{
    let mut carry = before;
    for neg in negs {
        let (logic, behind) = walk_neg(scope, findings, line, carry, neg)?;
        parts.push(logic)?;
        carry = behind;
    }
    Ok(carry)
}

#[cycle(walk)]
fn walk_neg<'t>(
    scope: &Scope,
    findings: &mut Vec<Finding>,
    line: u32,
    before: Option<Carry<'t>>,
    neg: &'t Neg,
) -> Result<(Logic, Option<Carry<'t>>), AllocError>
    ensures value { IfOk result (λ x. plain_logic x.0 ≡ (walk_neg scope.now (option_map plain_carry before.entry) (plain_neg neg.now)).logic.value) }
    ensures carry { IfOk result (λ x. option_map plain_carry x.1 ≡ (walk_neg scope.now (option_map plain_carry before.entry) (plain_neg neg.now)).carry) }
    ensures noted { OnOk result (findings.new.items ≡ noted line findings.old.items (walk_neg scope.now (option_map plain_carry before.entry) (plain_neg neg.now)).logic.broken) }
{
    let (logic, behind) = or_leave!(walk_simple(
        scope,
        findings,
        line,
        neg.not,
        before,
        &neg.simple
    ));
    let made = or_leave!(denied_if(scope.alloc, neg.not, logic));
    Ok((made, behind))
}

#[cycle(walk)]
fn walk_simple<'t>(
    scope: &Scope,
    findings: &mut Vec<Finding>,
    line: u32,
    denied: bool,
    before: Option<Carry<'t>>,
    simple: &'t Simple,
) -> Result<(Logic, Option<Carry<'t>>), AllocError>
    ensures value { IfOk result (λ x. plain_logic x.0 ≡ (walk_simple scope.now denied (option_map plain_carry before.entry) (plain_simple simple.now)).logic.value) }
    ensures carry { IfOk result (λ x. option_map plain_carry x.1 ≡ (walk_simple scope.now denied (option_map plain_carry before.entry) (plain_simple simple.now)).carry) }
    ensures noted { OnOk result (findings.new.items ≡ noted line findings.old.items (walk_simple scope.now denied (option_map plain_carry before.entry) (plain_simple simple.now)).logic.broken) }
{
    match simple {
        Simple::Cond(inner) => {
            let logic = or_leave!(condition(scope, findings, line, inner));
            Ok((logic, None))
        }
        Simple::Relation {
            left,
            not,
            rel,
            right,
        } => {
            let carry = Carry {
                subject: left,
                not: *not,
                rel: *rel,
                denied,
            };
            related(scope, findings, line, carry, right)
        }
        Simple::Abbreviated { not, rel, right } => {
            abbreviated_behind(scope, findings, line, denied, before, *not, *rel, right)
        }
        Simple::Numeric { value, not } => class_condition(scope, findings, line, *not, value),
        Simple::Sign { value, not, test } => {
            sign_condition(scope, findings, line, *not, *test, value)
        }
        Simple::Expr(expr) => {
            expression_alone(scope, findings, line, denied, before, expr, lone(expr))
        }
    }
}
