//! The statements of a program, each before those of its own lists.
ghost use Rattle.std.specs.Prelude.{◌≡◌, map, IfOk};
ghost use Rattle.cob_program.specs.ActView.{plain_stmt, plain_program};
ghost use Rattle.cob_program.specs.Statements.{plain_references};
ghost use Rattle.std.specs.List.{All};
ghost use Rattle.cob_graph.specs.WellFormed.{IsWellFormed};
ghost use Rattle.cob_world.specs.Doing.{CanDoProgram};
ghost use Rattle.cob_plan.specs.Plan.{IsStatement};
ghost use Rattle.cob_plan.specs.Listing.{plain_statement, plain_statements, listed_at, listed};

use crate::conditions::tests_of;
use crate::statement::Statement;
use cob_program::{Program, Stmt};
use std::alloc::{AllocError, Global};

/// A statement with its simple conditions.
fn statement_of<'a>(alloc: Global, statement: &'a Stmt) -> Result<Statement<'a>, AllocError>
    ensures { IfOk result (λ s. plain_statement s ≡ listed_at (plain_stmt statement.now)) }
{
    let tests = tests_of(alloc, &statement.act)?;
    Ok(Statement {
        number: statement.number,
        act: &statement.act,
        tests,
    })
}

/// The statements, each with its simple conditions.
fn each_with_tests<'a>(
    alloc: Global,
    statements: &[&'a Stmt],
) -> Result<Vec<Statement<'a>>, AllocError>
    ensures { IfOk result (λ all. plain_statements all.items ≡ map listed_at (plain_references statements.now)) }
{
    let mut all = Vec::new(alloc);
    for statement in statements {
        all.push(statement_of(alloc, statement)?)?;
    }
    Ok(all)
}

/// The statements of a program, each before those of its own lists.
pub fn statements_of<'a>(
    alloc: Global,
    program: &'a Program,
) -> Result<Vec<Statement<'a>>, AllocError>
    requires whole { IsWellFormed (plain_program program.now) }
    requires able { CanDoProgram (plain_program program.now) }
    ensures listed { IfOk result (λ all. plain_statements all.items ≡ listed (plain_program program.now)) }
    ensures each { IfOk result (λ all. All (IsStatement (plain_program program.now)) all.items) }
{
    let statements = program.statements(alloc)?;
    each_with_tests(alloc, &statements)
}
