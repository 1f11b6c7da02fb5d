//! A plan's statement.
use cob_program::{Act, Test};

/// A statement: its number, what it does, and its simple conditions in the order of its nodes.
#[derive(Drop)]
pub struct Statement<'a> {
    pub number: u32,
    pub act: &'a Act,
    pub tests: Vec<&'a Test>,
}
