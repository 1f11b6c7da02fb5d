//! Simple conditions, built in small functions of their own.
ghost use Rattle.std.specs.Prelude.{◌≡◌, None, Some, IfOk, IfErr, Ok, false, true};
ghost use Rattle.cob_tree.specs.Cues.{NotRelates};
ghost use Rattle.cob_tree.specs.Expr.{MkFact, group};
ghost use Rattle.cob_tree.specs.ExprView.{plain_expr, plain_fact};
ghost use Rattle.cob_tree.specs.Cond.{MkNeg, parenthesised, relation, abbreviated, numeric, alone};
ghost use Rattle.cob_tree.specs.Cond as cond;
ghost use Rattle.cob_tree.specs.CondView.{plain_cond, plain_conj, plain_neg, plain_simple};
ghost use Rattle.cob_tree.specs.PrintExpr.{one_alone};
ghost use Rattle.cob_tree.specs.Takes.{takes_simple, takes_neg};
ghost use Rattle.cob_parse_expr.specs.CondSteps.{simple_alone, neg_alone, conj_alone};
ghost use Rattle.cob_parse_expr.specs.Steps.{Gives};

use crate::halt::Halt;
use cob_tree::{Cond, Conj, Expr, Fact, Neg, Primary, Rel, SignTest, Simple};
use std::alloc::Global;

// Each variant is made in a function of its own, which says what it is seen as.

pub fn parenthesised(alloc: Global, cond: Cond) -> Result<Simple, Halt>
    ensures simple { Gives plain_simple result (Ok (parenthesised (plain_cond cond))) }
    ensures ends { IfOk result (λ s. takes_simple (plain_simple s) NotRelates ≡ false) }
{
    Ok(Simple::Cond(Box::new(alloc, cond)?))
}

pub fn relation(left: Expr, not: bool, rel: Rel, right: Expr) -> Simple
    ensures { plain_simple result ≡ relation (plain_expr left) not rel (plain_expr right) }
{
    Simple::Relation {
        left,
        not,
        rel,
        right,
    }
}

pub fn abbreviated(not: bool, rel: Rel, right: Expr) -> Simple
    ensures { plain_simple result ≡ abbreviated not rel (plain_expr right) }
{
    Simple::Abbreviated { not, rel, right }
}

/// A relation without its subject: a NOT before it is its own.
pub fn bare_relation(not: bool, rel: Rel, right: Expr) -> Neg
    ensures neg { plain_neg result ≡ MkNeg false (abbreviated not rel (plain_expr right)) }
    ensures ends { takes_neg (plain_neg result) NotRelates ≡ false }
{
    Neg::of(false, abbreviated(not, rel, right))
}

pub fn numeric(value: Expr, not: bool) -> Simple
    ensures { plain_simple result ≡ numeric (plain_expr value) not }
{
    Simple::Numeric { value, not }
}

pub fn sign_of(value: Expr, not: bool, test: SignTest) -> Simple
    ensures { plain_simple result ≡ cond.sign (plain_expr value) not test }
{
    Simple::Sign { value, not, test }
}

pub fn alone(expr: Expr) -> Simple
    ensures { plain_simple result ≡ alone (plain_expr expr) }
{
    Simple::Expr(expr)
}

/// An expression in parentheses as a factor.
pub fn grouped(alloc: Global, expr: Expr) -> Result<Fact, Halt>
    ensures { Gives plain_fact result (Ok (MkFact None (group (plain_expr expr)))) }
{
    Ok(Fact::of(None, Primary::Expr(Box::new(alloc, expr)?)))
}

fn simple_alone(simple: Simple) -> Result<Expr, Simple>
    ensures alone { IfOk result (λ e. simple_alone (plain_simple simple) ≡ Some (plain_expr e)) }
    ensures other { IfErr result (λ s. simple_alone (plain_simple simple) ≡ None) }
    ensures same { IfErr result (λ s. plain_simple s ≡ plain_simple simple) }
{
    match simple {
        Simple::Expr(expr) => Ok(expr),
        other => Err(other),
    }
}

fn neg_alone(neg: Neg) -> Result<Expr, Neg>
    ensures alone { IfOk result (λ e. neg_alone (plain_neg neg) ≡ Some (plain_expr e)) }
    ensures other { IfErr result (λ n. neg_alone (plain_neg neg) ≡ None) }
    ensures same { IfErr result (λ n. plain_neg n ≡ plain_neg neg) }
{
    if neg.not {
        return Err(neg);
    }
    match simple_alone(neg.simple) {
        Ok(expr) => Ok(expr),
        Err(simple) => Err(Neg::of(false, simple)),
    }
}

fn conj_alone(conj: Conj) -> Result<Expr, Conj>
    ensures alone { IfOk result (λ e. conj_alone (plain_conj conj) ≡ Some (plain_expr e)) }
    ensures other { IfErr result (λ c. conj_alone (plain_conj conj) ≡ None) }
    ensures same { IfErr result (λ c. plain_conj c ≡ plain_conj conj) }
{
    if !conj.others.as_slice().is_empty() {
        return Err(conj);
    }
    match neg_alone(conj.first) {
        Ok(expr) => {
            drop(conj.others);
            Ok(expr)
        }
        Err(first) => Err(Conj::of(first, conj.others)),
    }
}

/// The expression, where a condition is one expression alone; else the condition again.
pub fn one_alone(cond: Cond) -> Result<Expr, Cond>
    ensures alone { IfOk result (λ e. one_alone (plain_cond cond) ≡ Some (plain_expr e)) }
    ensures other { IfErr result (λ c. one_alone (plain_cond cond) ≡ None) }
    ensures same { IfErr result (λ c. plain_cond c ≡ plain_cond cond) }
{
    if !cond.others.as_slice().is_empty() {
        return Err(cond);
    }
    match conj_alone(cond.first) {
        Ok(expr) => {
            drop(cond.others);
            Ok(expr)
        }
        Err(first) => Err(Cond::of(first, cond.others)),
    }
}
