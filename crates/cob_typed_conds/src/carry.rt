//! What an abbreviated relation takes over.
use cob_tree::{Expr, Rel};

/// The relation directly before, which an abbreviation takes its subject from, and where it has none its relation with
/// NOT or without. `denied` says that NOT stands before it as a whole.
#[derive(Clone, Copy)]
pub struct Carry<'t> {
    pub subject: &'t Expr,
    pub not: bool,
    pub rel: Rel,
    pub denied: bool,
}
