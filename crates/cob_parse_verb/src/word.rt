//! The words with which statements begin.
ghost use Rattle.std.specs.Prelude.{◌≡◌};
ghost use Rattle.cob_parse_verb.specs.Words.{start_key};

use cob_tree::Keyword;

/// A reserved word with which a statement begins.
#[derive(Clone, Copy, PartialEq, Eq)]
pub enum Start {
    Move,
    Set,
    Display,
    Add,
    Subtract,
    Multiply,
    Divide,
    Compute,
    If,
    Evaluate,
    Perform,
    Go,
    Exit,
    Continue,
    Stop,
    Open,
    Close,
    Read,
    Write,
}

/// The first word of a statement, and its line.
#[derive(Clone, Copy, PartialEq, Eq)]
pub struct Begin {
    pub line: u32,
    pub start: Start,
}

/// The first word of a statement, where a reserved word is one.
pub fn start_of(keyword: Keyword) -> Option<Start>
    ensures { result ≡ start_key keyword }
{
    match keyword {
        Keyword::Move => Some(Start::Move),
        Keyword::Set => Some(Start::Set),
        Keyword::Display => Some(Start::Display),
        Keyword::Add => Some(Start::Add),
        Keyword::Subtract => Some(Start::Subtract),
        Keyword::Multiply => Some(Start::Multiply),
        Keyword::Divide => Some(Start::Divide),
        Keyword::Compute => Some(Start::Compute),
        Keyword::If => Some(Start::If),
        Keyword::Evaluate => Some(Start::Evaluate),
        Keyword::Perform => Some(Start::Perform),
        Keyword::Go => Some(Start::Go),
        Keyword::Exit => Some(Start::Exit),
        Keyword::Continue => Some(Start::Continue),
        Keyword::Stop => Some(Start::Stop),
        Keyword::Open => Some(Start::Open),
        Keyword::Close => Some(Start::Close),
        Keyword::Read => Some(Start::Read),
        Keyword::Write => Some(Start::Write),
        _ => None,
    }
}
