//! Conditions.
ghost use Rattle.std.specs.Prelude.{◌≡◌, map};
ghost use Rattle.cob_tree.specs.Cond.{MkCond, MkConj, MkNeg, conjs_of, negs_of};
ghost use Rattle.cob_tree.specs.CondView.{plain_cond, plain_conj, plain_neg, plain_simple};

use crate::expr::Expr;
use crate::token::Rel;

/// A condition (ISO 1989:1985, "Conditional expressions"): one of some, of which each is a conjunction.
#[cycle(cond)]
#[derive(Drop)]
pub struct Cond {
    pub first: Conj,
    pub others: Vec<Conj>,
}

/// Some conditions at once.
#[cycle(cond)]
#[derive(Drop)]
pub struct Conj {
    pub first: Neg,
    pub others: Vec<Neg>,
}

/// A simple condition, or its contrary.
#[cycle(cond)]
#[derive(Drop)]
pub struct Neg {
    pub not: bool,
    pub simple: Simple,
}

/// What a sign condition asks.
#[derive(Clone, Copy, PartialEq, Eq)]
pub enum SignTest {
    Positive,
    Negative,
    Zero,
}

/// A simple condition.
#[cycle(cond)]
#[derive(Drop)]
pub enum Simple {
    /// A condition in parentheses.
    Cond(Box<Cond>),
    Relation {
        left: Expr,
        not: bool,
        rel: Rel,
        right: Expr,
    },
    /// A relation without its subject.
    Abbreviated {
        not: bool,
        rel: Rel,
        right: Expr,
    },
    /// The class condition NUMERIC.
    Numeric {
        value: Expr,
        not: bool,
    },
    Sign {
        value: Expr,
        not: bool,
        test: SignTest,
    },
    /// A condition-name, or a relation without subject and relation.
    Expr(Expr),
}

impl Cond {
    /// The condition of these conjunctions.
    pub fn of(first: Conj, others: Vec<Conj>) -> Cond
        ensures { plain_cond result ≡ MkCond (plain_conj first) (conjs_of (map plain_conj others.items)) }
    {
        Cond { first, others }
    }
}

impl Conj {
    /// The conjunction of these conditions.
    pub fn of(first: Neg, others: Vec<Neg>) -> Conj
        ensures { plain_conj result ≡ MkConj (plain_neg first) (negs_of (map plain_neg others.items)) }
    {
        Conj { first, others }
    }
}

impl Neg {
    /// A simple condition with NOT before it or without.
    pub fn of(not: bool, simple: Simple) -> Neg
        ensures { plain_neg result ≡ MkNeg not (plain_simple simple) }
    {
        Neg { not, simple }
    }
}
