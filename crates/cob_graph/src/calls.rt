//! The PERFORMs of ranges and the GO TOs of a program, in the order of the source.
ghost use Rattle.std.specs.Prelude.{◌≡◌, OnOk, IfOk};
ghost use Rattle.cob_program.specs.ActView.{plain_stmt, plain_act, plain_body, plain_program};
ghost use Rattle.cob_program.specs.Statements.{plain_references};
ghost use Rattle.cob_graph.specs.Nesting.{◌&◌, nothing_found, a_call, a_jump, found, found_at, found_act, found_body, found_all};
ghost use Rattle.cob_graph.specs.Listing.{plain_found};

use cob_program::{Act, Body, Program, Stmt};
use std::alloc::{AllocError, Global};

/// The paragraphs from one to another, by their places.
#[derive(Clone, Copy)]
pub struct Span {
    pub first: u32,
    pub last: u32,
}

/// A PERFORM of a range: its line, the place of its paragraph, its range.
#[derive(Clone, Copy)]
pub struct Call {
    pub line: u32,
    pub para: usize,
    pub span: Span,
}

/// A GO TO: its line, the place of its paragraph, and where it goes.
#[derive(Clone, Copy)]
pub struct Jump {
    pub line: u32,
    pub para: usize,
    pub to: u32,
}

/// What a program performs, and where it goes.
#[derive(Drop)]
pub struct Found {
    pub calls: Vec<Call>,
    pub jumps: Vec<Jump>,
}

impl Found {
    fn new(alloc: Global) -> Found
        ensures { plain_found result ≡ nothing_found }
    {
        Found {
            calls: Vec::new(alloc),
            jumps: Vec::new(alloc),
        }
    }

    fn add_call(&mut self, line: u32, para: usize, first: u32, last: u32) -> Result<(), AllocError>
        ensures { OnOk result (plain_found self.new ≡ plain_found self.old & a_call line para first last) }
    {
        let span = Span { first, last };
        self.calls.push(Call { line, para, span })?;
        Ok(())
    }

    fn add_jump(&mut self, line: u32, para: usize, to: u32) -> Result<(), AllocError>
        ensures { OnOk result (plain_found self.new ≡ plain_found self.old & a_jump line para to) }
    {
        self.jumps.push(Jump { line, para, to })?;
        Ok(())
    }

    fn add_body(&mut self, para: usize, line: u32, body: &Body) -> Result<(), AllocError>
        ensures { OnOk result
            (plain_found self.new ≡ plain_found self.old & found_body para line (plain_body body.now)) }
    {
        match body {
            Body::Range { first, last } => self.add_call(line, para, *first, *last),
            Body::Inline(_) => Ok(()),
        }
    }

    fn add_act(&mut self, para: usize, line: u32, act: &Act) -> Result<(), AllocError>
        ensures { OnOk result (plain_found self.new ≡ plain_found self.old & found_act para line (plain_act act.now)) }
    {
        match act {
            Act::Perform { body, .. } => self.add_body(para, line, body),
            Act::Go(to) => self.add_jump(line, para, *to),
            _ => Ok(()),
        }
    }

    fn add_stmt(&mut self, para: usize, statement: &Stmt) -> Result<(), AllocError>
        ensures { OnOk result
            (plain_found self.new ≡ plain_found self.old & found_at para (plain_stmt statement.now)) }
    {
        self.add_act(para, statement.line, &statement.act)
    }

    fn add_all(&mut self, para: usize, statements: &[&Stmt]) -> Result<(), AllocError>
        ensures { OnOk result
            (plain_found self.new ≡ plain_found self.old & found para (plain_references statements.now)) }
    {
        for statement in statements {
            self.add_stmt(para, statement)?;
        }
        Ok(())
    }

    /// All of a program.
    pub fn of(alloc: Global, program: &Program) -> Result<Found, AllocError>
        ensures { IfOk result (λ found. plain_found found ≡ found_all (plain_program program.now)) }
    {
        let mut found = Found::new(alloc);
        for (para, paragraph) in program.paras.get().iter().enumerate() {
            let statements = paragraph.statements(alloc)?;
            found.add_all(para, &statements)?;
        }
        Ok(found)
    }
}
