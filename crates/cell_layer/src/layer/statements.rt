//! Statements by their numbers, and the numbers of those that edges leave.
ghost use Rattle.std.specs.Prelude.{◌≡◌, None, IfSome, IfOk};
ghost use Rattle.std.specs.List.{All};
ghost use Rattle.cob_program.specs.ActView.{plain_stmt};
ghost use Rattle.cob_program.specs.Statements.{plain_references};
ghost use Rattle.cell_laws.specs.Layer.{statement_at, left};
ghost use Rattle.cell_layer.specs.NumberedStatements.{number_in};
ghost use Rattle.cell_layer.specs.Statements.{IsNumbered, stated, stated_in};

use cob_graph::{Edge, Graph};
use cob_program::Stmt;
use edge_parts::StatementTests;
use std::alloc::{AllocError, Global};

/// A statement's number.
pub(crate) fn number_of(statement: &Stmt) -> u32
    ensures { result ≡ number_in (plain_stmt statement.now) }
{
    statement.number
}

/// The simple conditions of each of some statements.
pub(crate) fn tests_of<'a>(
    alloc: Global,
    statements: &[&'a Stmt],
) -> Result<Vec<StatementTests<'a>>, AllocError>
    ensures { IfOk result (λ tests. stated_in tests.items ≡ plain_references statements.now) }
{
    let mut tests = Vec::new(alloc);
    for statement in statements {
        let listed = StatementTests::new(alloc, *statement)?;
        tests.push(listed)?;
    }
    Ok(tests)
}

// the first statement with the number
fn among<'s, 'a>(
    statements: &'s [StatementTests<'a>],
    number: u32,
) -> Option<&'s StatementTests<'a>>
    ensures some { IfSome result (λ s. IsNumbered statements.now number s.now) }
    ensures none { result ≡ None → All (λ s. ¬ number_in (stated s) ≡ number) statements.now }
{
    for statement in statements {
        if number_of(statement.statement) == number {
            return Some(statement);
        }
    }
    None
}

// where statements stand in the order of their numbers
fn in_order<'s, 'a>(
    statements: &'s [StatementTests<'a>],
    number: u32,
) -> Option<&'s StatementTests<'a>>
    ensures { IfSome result (λ s. IsNumbered statements.now number s.now) }
{
    let place = number.saturating_sub(1) as usize;
    if place >= statements.len() {
        return None;
    }
    let statement = &statements[place];
    if number_of(statement.statement) == number {
        Some(statement)
    } else {
        None
    }
}

/// A statement with a number. Statements mostly stand in the order of their numbers, from 1 on, and are looked for there
/// first.
pub(crate) fn statement_with<'s, 'a>(
    statements: &'s [StatementTests<'a>],
    number: u32,
) -> Option<&'s StatementTests<'a>>
    ensures some { IfSome result (λ s. IsNumbered statements.now number s.now) }
    ensures none { result ≡ None → All (λ s. ¬ number_in (stated s) ≡ number) statements.now }
{
    match in_order(statements, number) {
        Some(statement) => Some(statement),
        None => among(statements, number),
    }
}

// the number of a node's statement
fn statement_at(graph: &Graph, node: u32) -> u32
    ensures { result ≡ statement_at graph.now node }
{
    if node == 0 {
        return 0;
    }
    match graph.nodes.get().get(node as usize - 1) {
        Some(node) => node.statement,
        None => 0,
    }
}

/// The number of the statement that an edge leaves.
pub(crate) fn left_number(graph: &Graph, edge: Edge) -> u32
    ensures { result ≡ left graph.now edge }
{
    statement_at(graph, edge.from)
}
