//! Sides of relations.
use cob_data::Sender;
use cob_tree::Expr;

/// A side of a relation: one operand, or what is worked out.
#[derive(Drop)]
pub enum Operand<'t> {
    Alone(Sender),
    WorkedOut(&'t Expr),
}
