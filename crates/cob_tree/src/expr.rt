//! Arithmetic expressions.
ghost use Rattle.std.specs.Prelude.{◌≡◌, map};
ghost use Rattle.cob_tree.specs.Expr.{MkExpr, MkTerm, MkFact, terms_of, facts_of};
ghost use Rattle.cob_tree.specs.ExprView.{plain_expr, plain_term, plain_fact, plain_prim, added, multiplied};

use crate::operand::Opnd;

/// `+` or `-`, before an operand or between two terms.
#[derive(Clone, Copy, PartialEq, Eq)]
pub enum Sign {
    Plus,
    Minus,
}

/// `*` or `/`, between two factors.
#[derive(Clone, Copy, PartialEq, Eq)]
pub enum Scaling {
    Times,
    Over,
}

/// An arithmetic expression (ISO 1989:1985, "Arithmetic expressions"): a term, and others added or subtracted.
#[cycle(expr)]
#[derive(Drop)]
pub struct Expr {
    pub first: Term,
    pub others: Vec<(Sign, Term)>,
}

/// A factor, and others multiplied or divided by.
#[cycle(expr)]
#[derive(Drop)]
pub struct Term {
    pub first: Fact,
    pub others: Vec<(Scaling, Fact)>,
}

/// An operand or an expression in parentheses, with a sign before it or without.
#[cycle(expr)]
#[derive(Drop)]
pub struct Fact {
    pub sign: Option<Sign>,
    pub prim: Primary,
}

/// An operand, or an expression in parentheses.
#[cycle(expr)]
#[derive(Drop)]
pub enum Primary {
    Opnd(Opnd),
    Expr(Box<Expr>),
}

impl Expr {
    /// The expression of these terms.
    pub fn of(first: Term, others: Vec<(Sign, Term)>) -> Expr
        ensures { plain_expr result ≡ MkExpr (plain_term first) (terms_of (map added others.items)) }
    {
        Expr { first, others }
    }
}

impl Term {
    /// The term of these factors.
    pub fn of(first: Fact, others: Vec<(Scaling, Fact)>) -> Term
        ensures { plain_term result ≡ MkTerm (plain_fact first) (facts_of (map multiplied others.items)) }
    {
        Term { first, others }
    }
}

impl Fact {
    /// The factor of a sign and what stands behind it.
    pub fn of(sign: Option<Sign>, prim: Primary) -> Fact
        ensures { plain_fact result ≡ MkFact sign (plain_prim prim) }
    {
        Fact { sign, prim }
    }
}
