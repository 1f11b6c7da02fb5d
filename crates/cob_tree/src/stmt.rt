//! Statements.
ghost use Rattle.std.specs.Prelude.{◌≡◌};
ghost use Rattle.cob_tree.specs.Stmt.{MkStmt};
ghost use Rattle.cob_tree.specs.StmtView.{plain_stmt, plain_verb};

use crate::bytes::Name;
use crate::cond::Cond;
use crate::expr::Expr;
use crate::list::Many;
use crate::operand::{Opnd, Recv, Ref};

/// A statement, with the line of its first token.
#[cycle(stmt)]
#[derive(Drop)]
pub struct Stmt {
    pub line: u32,
    pub verb: Verb,
}

/// What a statement does (ISO 1989:1985, "Procedure division", the statements of the Nucleus and of Sequential
/// I-O). `ended` says that the statement's own END- word stands.
#[cycle(stmt)]
#[derive(Drop)]
pub enum Verb {
    Move {
        from: Opnd,
        to: Many<Ref>,
    },
    /// SET name TO TRUE
    Set(Name),
    Display(Many<Opnd>),
    AddTo {
        addends: Many<Opnd>,
        to: Many<Recv>,
        tail: Tail,
    },
    AddGiving {
        addends: Many<Opnd>,
        to: Option<Opnd>,
        giving: Many<Recv>,
        tail: Tail,
    },
    SubtractFrom {
        less: Many<Opnd>,
        from: Many<Recv>,
        tail: Tail,
    },
    SubtractGiving {
        less: Many<Opnd>,
        from: Opnd,
        giving: Many<Recv>,
        tail: Tail,
    },
    MultiplyBy {
        factor: Opnd,
        by: Many<Recv>,
        tail: Tail,
    },
    MultiplyGiving {
        factor: Opnd,
        by: Opnd,
        giving: Many<Recv>,
        tail: Tail,
    },
    DivideInto {
        divisor: Opnd,
        into: Many<Recv>,
        tail: Tail,
    },
    DivideGiving {
        first: Opnd,
        way: Way,
        second: Opnd,
        giving: Many<Recv>,
        remainder: Option<Ref>,
        tail: Tail,
    },
    Compute {
        to: Many<Recv>,
        value: Expr,
        tail: Tail,
    },
    If {
        test: Cond,
        yes: Vec<Stmt>,
        other: Option<Vec<Stmt>>,
        ended: bool,
    },
    Evaluate {
        subject: Subject,
        whens: Vec<When>,
        other: Option<Vec<Stmt>>,
        ended: bool,
    },
    PerformRange {
        first: Name,
        thru: Option<Name>,
        turns: Option<Loop>,
    },
    PerformInline {
        turns: Option<Loop>,
        body: Vec<Stmt>,
    },
    /// GO TO a paragraph
    Go(Name),
    Exit,
    Continue,
    StopRun,
    Open(Many<OpenPhrase>),
    Close(Many<Name>),
    Read {
        file: Name,
        into: Option<Ref>,
        end: Option<Vec<Stmt>>,
        not_end: Option<Vec<Stmt>>,
        ended: bool,
    },
    Write {
        record: Ref,
        from: Option<Opnd>,
        ended: bool,
    },
}

/// The phrases behind an arithmetic statement.
#[cycle(stmt)]
#[derive(Drop)]
pub struct Tail {
    pub size: Option<Vec<Stmt>>,
    pub not_size: Option<Vec<Stmt>>,
    pub ended: bool,
}

/// One or more WHENs, and what is done where one of them holds.
#[cycle(stmt)]
#[derive(Drop)]
pub struct When {
    pub choices: Many<Sel>,
    pub body: Vec<Stmt>,
}

/// Whether the first operand of DIVIDE divides the second, or the second the first.
#[derive(Clone, Copy, PartialEq, Eq)]
pub enum Way {
    Into,
    By,
}

/// What EVALUATE looks at.
#[derive(Drop)]
pub enum Subject {
    True,
    Ref(Ref),
}

/// What stands behind a WHEN.
#[derive(Drop)]
pub enum Sel {
    Any,
    Range(Expr, Expr),
    Cond(Cond),
}

/// Files to be opened in one way.
#[derive(Drop)]
pub struct OpenPhrase {
    pub mode: Mode,
    pub files: Many<Name>,
}

/// How files are opened.
#[derive(Clone, Copy, PartialEq, Eq)]
pub enum Mode {
    Input,
    Output,
}

/// How often PERFORM does its body.
#[derive(Drop)]
pub enum Loop {
    Times(Opnd),
    Until {
        test: Option<TestPoint>,
        varying: Option<Varying>,
        until: Cond,
    },
}

/// Where a loop tests.
#[derive(Clone, Copy, PartialEq, Eq)]
pub enum TestPoint {
    Before,
    After,
}

/// The phrase VARYING.
#[derive(Drop)]
pub struct Varying {
    pub item: Ref,
    pub from: Opnd,
    pub by: Opnd,
}

impl Stmt {
    /// The statement of a verb on a line.
    pub fn of(line: u32, verb: Verb) -> Stmt
        ensures { plain_stmt result ≡ MkStmt line (plain_verb verb) }
    {
        Stmt { line, verb }
    }
}
