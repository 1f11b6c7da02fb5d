//! Open statements with the lines on which they stand.
ghost use Rattle.std.specs.Prelude.{◌≡◌, map, IfOk};
ghost use Rattle.cob_program.specs.ActView.{plain_program, plain_stmt};
ghost use Rattle.cob_program.specs.Statements.{plain_references};
ghost use Rattle.commands.specs.Alarms.{alarm_in, alarms_of, line_in, line_of};

use cob_program::{Program, Stmt};
use cob_tree::{Kind, Open};
use std::alloc::{AllocError, Global};

/// A statement that a certificate leaves open for this kind of fault, and the source's line on which it begins.
#[derive(Clone, Copy, PartialEq, Eq)]
pub struct Alarm {
    pub kind: Kind,
    pub statement: u32,
    pub line: u32,
}

fn line_of(statement: &Stmt) -> u32
    ensures { result ≡ line_of (plain_stmt statement.now) }
{
    statement.line
}

// The line of the statement with a number, 0 where there is none.
#[tactic(auto, using(crate::proofs::Lines::line_is, crate::proofs::Lines::no_line))]
fn line_at(statements: &[&Stmt], number: u32) -> u32
    ensures { result ≡ line_in (plain_references statements.now) number }
{
    let at = (number as usize).saturating_sub(1);
    if at < statements.len() {
        line_of(statements[at])
    } else {
        0
    }
}

// The alarm of an open pair.
fn alarm_in(statements: &[&Stmt], pair: Open) -> Alarm
    ensures { result ≡ alarm_in (plain_references statements.now) pair }
{
    Alarm {
        kind: pair.kind,
        statement: pair.statement,
        line: line_at(statements, pair.statement),
    }
}

// The alarms of open pairs among these statements.
fn alarms_among(
    alloc: Global,
    statements: &[&Stmt],
    pairs: &[Open],
) -> Result<Vec<Alarm>, AllocError>
    ensures { IfOk result (λ alarms. alarms.items ≡ map (alarm_in (plain_references statements.now)) pairs.now) }
{
    let mut alarms = Vec::new(alloc);
    for pair in pairs {
        alarms.push(alarm_in(statements, *pair))?;
    }
    Ok(alarms)
}

/// The open pairs of a program as alarms, in their order.
pub fn alarms_of(alloc: Global, program: &Program, pairs: &[Open]) -> Result<Vec<Alarm>, AllocError>
    ensures { IfOk result (λ alarms. alarms.items ≡ alarms_of (plain_program program.now) pairs.now) }
{
    let statements = program.statements(alloc)?;
    alarms_among(alloc, &statements, pairs)
}
