//! Programs and paragraphs.
use crate::act::Stmt;
use cob_data::Layout;
use cob_tree::{Many, Name};

/// A program of the profile: its storage, its paragraphs, and how many statements it has.
#[derive(Drop)]
pub struct Program {
    pub layout: Layout,
    pub paras: Many<Para>,
    pub statements: u32,
}

/// A paragraph, with the line of its name. The first is the unnamed one, on line 0, and empty where there is none.
#[derive(Drop)]
pub struct Para {
    pub name: Option<Name>,
    pub line: u32,
    pub body: Many<Stmt>,
}
