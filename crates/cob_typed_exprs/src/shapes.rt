//! What an expression is: an operand alone, or one with parentheses round the whole; and what stands in it.
ghost use Rattle.std.specs.Prelude.{◌≡◌, map, option_map, OnOk};
ghost use Rattle.std.specs.Option.{option_copied};
ghost use Rattle.cob_tree.specs.ExprView.{plain_expr, plain_term, plain_fact, plain_prim, added, multiplied};
ghost use Rattle.cob_tree.specs.Expr.{terms_of, facts_of};
ghost use Rattle.cob_typed_exprs.specs.Judged.{noted};
ghost use Rattle.cob_typed_exprs.specs.Sums.{none_added, none_multiplied, lone, lone_term, lone_fact, lone_primary, or_whole, bare, inside, inside_term, inside_fact, inside_primary, is_reference, has_item, terms_have_item, term_has_item, facts_have_item, fact_has_item, primary_has_item, reference};

use crate::finding::Finding;
use crate::scope::Scope;
use crate::sums::is_minus;
use cob_tree::{Expr, Fact, Opnd, Primary, Scaling, Sign, Term};
use std::alloc::AllocError;

#[tactic(auto, using(crate::proofs::Loops::none_added_is))]
fn none_added(terms: &[(Sign, Term)]) -> bool
    ensures { result ≡ none_added (terms_of (map added terms.now)) }
{
    terms.is_empty()
}

#[tactic(auto, using(crate::proofs::Loops::none_multiplied_is))]
fn none_multiplied(facts: &[(Scaling, Fact)]) -> bool
    ensures { result ≡ none_multiplied (facts_of (map multiplied facts.now)) }
{
    facts.is_empty()
}

// ---- an operand alone

/// The operand that an expression is, with parentheses round it or without.
#[cycle(lone)]
pub fn lone(expr: &Expr) -> Option<&Opnd>
    ensures { option_copied result ≡ lone (plain_expr expr.now) }
{
    if none_added(&expr.others) {
        lone_term(&expr.first)
    } else {
        None
    }
}

#[cycle(lone)]
fn lone_term(term: &Term) -> Option<&Opnd>
    ensures { option_copied result ≡ lone_term (plain_term term.now) }
{
    if none_multiplied(&term.others) {
        lone_fact(&term.first)
    } else {
        None
    }
}

#[cycle(lone)]
fn lone_fact(fact: &Fact) -> Option<&Opnd>
    ensures { option_copied result ≡ lone_fact (plain_fact fact.now) }
{
    match fact.sign {
        None => lone_primary(&fact.prim),
        Some(_) => None,
    }
}

#[cycle(lone)]
fn lone_primary(primary: &Primary) -> Option<&Opnd>
    ensures { option_copied result ≡ lone_primary (plain_prim primary.now) }
{
    match primary {
        Primary::Opnd(operand) => Some(operand),
        Primary::Expr(inner) => lone(inner),
    }
}

// ---- parentheses round a whole

fn or_whole<'a>(whole: &'a Expr, inner: Option<&'a Expr>) -> &'a Expr
    ensures { plain_expr result.now ≡ or_whole (plain_expr whole.now) (option_map plain_expr (option_copied inner.entry)) }
{
    match inner {
        None => whole,
        Some(inner) => inner,
    }
}

/// An expression without parentheses round the whole, and without a plus before them.
pub fn bare(expr: &Expr) -> &Expr
    ensures { plain_expr result.now ≡ bare (plain_expr expr.now) }
{
    or_whole(expr, inside(expr))
}

// What stands in parentheses alone, innermost.
#[cycle(inside)]
fn inside(expr: &Expr) -> Option<&Expr>
    ensures { option_map plain_expr (option_copied result) ≡ inside (plain_expr expr.now) }
{
    if none_added(&expr.others) {
        inside_term(&expr.first)
    } else {
        None
    }
}

#[cycle(inside)]
fn inside_term(term: &Term) -> Option<&Expr>
    ensures { option_map plain_expr (option_copied result) ≡ inside_term (plain_term term.now) }
{
    if none_multiplied(&term.others) {
        inside_fact(&term.first)
    } else {
        None
    }
}

#[cycle(inside)]
fn inside_fact(fact: &Fact) -> Option<&Expr>
    ensures { option_map plain_expr (option_copied result) ≡ inside_fact (plain_fact fact.now) }
{
    if is_minus(fact.sign) {
        None
    } else {
        inside_primary(&fact.prim)
    }
}

#[cycle(inside)]
fn inside_primary(primary: &Primary) -> Option<&Expr>
    ensures { option_map plain_expr (option_copied result) ≡ inside_primary (plain_prim primary.now) }
{
    match primary {
        Primary::Opnd(_) => None,
        Primary::Expr(inner) => Some(or_whole(inner, inside(inner))),
    }
}

// ---- items in it

fn is_reference(operand: &Opnd) -> bool
    ensures { result ≡ is_reference operand.now }
{
    match operand {
        Opnd::Ref(_) => true,
        Opnd::Const(_) => false,
    }
}

/// Whether an item stands in the expression.
#[cycle(items)]
pub fn has_item(expr: &Expr) -> bool
    ensures { result ≡ has_item (plain_expr expr.now) }
{
    term_has_item(&expr.first) || terms_have_item(&expr.others)
}

#[cycle(items)]
fn terms_have_item(terms: &[(Sign, Term)]) -> bool
    ensures { result ≡ terms_have_item (terms_of (map added terms.now)) }
{
    for term in terms {
        if term_has_item(&term.1) {
            return true;
        }
    }
    false
}

#[cycle(items)]
fn term_has_item(term: &Term) -> bool
    ensures { result ≡ term_has_item (plain_term term.now) }
{
    fact_has_item(&term.first) || facts_have_item(&term.others)
}

#[cycle(items)]
fn facts_have_item(facts: &[(Scaling, Fact)]) -> bool
    ensures { result ≡ facts_have_item (facts_of (map multiplied facts.now)) }
{
    for fact in facts {
        if fact_has_item(&fact.1) {
            return true;
        }
    }
    false
}

#[cycle(items)]
fn fact_has_item(fact: &Fact) -> bool
    ensures { result ≡ fact_has_item (plain_fact fact.now) }
{
    primary_has_item(&fact.prim)
}

#[cycle(items)]
fn primary_has_item(primary: &Primary) -> bool
    ensures { result ≡ primary_has_item (plain_prim primary.now) }
{
    match primary {
        Primary::Opnd(operand) => is_reference(operand),
        Primary::Expr(inner) => has_item(inner),
    }
}

// ---- names in it

impl<'a> Scope<'a> {
    /// Looks only whether an operand's name means an item.
    pub fn reference(
        &self,
        findings: &mut Vec<Finding>,
        line: u32,
        operand: &Opnd,
    ) -> Result<(), AllocError>
        ensures { OnOk result (findings.new.items ≡ noted line findings.old.items (reference self.now operand.now)) }
    {
        match operand {
            Opnd::Ref(reference) => {
                self.the_item(findings, line, reference)?;
                Ok(())
            }
            Opnd::Const(_) => Ok(()),
        }
    }
}
