//! Whole programs.
use crate::bytes::Name;
use crate::front::Front;
use crate::list::Many;
use crate::stmt::Stmt;

/// A whole program (ISO 1989:1985, "Overall organization"): its divisions, the paragraphs of its PROCEDURE
/// DIVISION, and END PROGRAM.
#[derive(Drop)]
pub struct Tree {
    pub front: Front,
    pub sentences: Many<Sentence>,
    pub paragraphs: Many<Paragraph>,
    pub end: Option<EndProgram>,
}

/// END PROGRAM, with the line of its first token.
#[derive(Drop)]
pub struct EndProgram {
    pub line: u32,
    pub name: Name,
}

/// A paragraph, with the line of its name.
#[derive(Drop)]
pub struct Paragraph {
    pub line: u32,
    pub name: Name,
    pub sentences: Many<Sentence>,
}

/// The statements before one point.
#[derive(Drop)]
pub struct Sentence {
    pub statements: Many<Stmt>,
}
