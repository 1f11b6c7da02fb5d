//! From a source's bytes to its program: tokens, tree, layout, typed program, one behind the other.
ghost use Rattle.std.specs.Prelude.{◌≡◌, ◌≤◌, length, IfOk};
ghost use Rattle.cob_tree.specs.PrintStmt.{print_tree};
ghost use Rattle.cob_tree.specs.StmtView.{plain_tree};
ghost use Rattle.cob_data.specs.Layouts.{HasLayout, layout};
ghost use Rattle.cob_program.specs.Act.{Program as PlainProgram};
ghost use Rattle.cob_front.specs.declared.refusal.Refusal.{Refusal as End};
ghost use Rattle.cob_front.specs.Source.{StandsFor, IsTreeCause, IsCause, IsTypedTree, IsSource, IsProgram, IsProgramOf, Answers, IsRefused, IsAccepted};
ghost use Rattle.cob_tree.specs.Limits.{token_limit};

use crate::refusal::Refusal;
use cob_data::{DataEnd, Layout, layout_of};
use cob_lex::{SOURCE_LIMIT, ScanEnd, tokens_in};
use cob_parse_expr::ParseEnd;
use cob_parse_proc::program_of;
use cob_program::Program;
use cob_tree::Tree;
use cob_typed::{TypedEnd, typed_of};
use cob_typed_exprs::layouts_have_few_places;
use std::alloc::Global;

/// The tree of a source.
fn tree_in(alloc: Global, bytes: &[u8]) -> Result<Tree, Refusal>
    ensures answer { Answers (λ tree. StandsFor bytes.now (plain_tree tree)) (IsCause bytes.now) result }
    ensures few { IfOk result (λ tree. length (print_tree (plain_tree tree)) ≤ token_limit) }
{
    if bytes.len() > SOURCE_LIMIT {
        return Err(Refusal::TooLong);
    }
    let tokens = match tokens_in(alloc, bytes) {
        Ok(tokens) => tokens,
        Err(ScanEnd::BadLine { line, column }) => return Err(Refusal::BadLine { line, column }),
        Err(ScanEnd::BadToken { line, column }) => return Err(Refusal::BadToken { line, column }),
        Err(ScanEnd::Memory) => return Err(Refusal::Memory),
    };
    match program_of(alloc, &tokens) {
        Ok(tree) => Ok(tree),
        Err(ParseEnd::Syntax { line }) => Err(Refusal::Syntax { line }),
        Err(ParseEnd::Deep { count }) => Err(Refusal::Nesting { count }),
        Err(ParseEnd::Memory) => Err(Refusal::Memory),
    }
}

/// The program of a tree with its layout.
fn statements_in(alloc: Global, tree: &Tree, laid: &Layout) -> Result<Program, Refusal>
    requires has { HasLayout tree.now }
    requires is { laid.now ≡ layout tree.now }
    requires few { length (print_tree (plain_tree tree.now)) ≤ token_limit }
    ensures { Answers (IsProgramOf (plain_tree tree.now)) (IsTreeCause (plain_tree tree.now)) result }
{
    layouts_have_few_places();
    match typed_of(alloc, tree, laid) {
        Ok(program) => Ok(program),
        Err(TypedEnd::Outside { rule, line }) => Err(Refusal::Outside { rule, line }),
        Err(TypedEnd::Memory) => Err(Refusal::Memory),
    }
}

/// The program of a tree.
fn typed_in(alloc: Global, tree: &Tree) -> Result<Program, Refusal>
    requires { length (print_tree (plain_tree tree.now)) ≤ token_limit }
    ensures { Answers (IsProgramOf (plain_tree tree.now)) (IsTreeCause (plain_tree tree.now)) result }
{
    match layout_of(alloc, tree) {
        Ok(laid) => statements_in(alloc, tree, &laid),
        Err(DataEnd::Outside { rule, line }) => Err(Refusal::Outside { rule, line }),
        Err(DataEnd::Limit { which, count }) => Err(Refusal::Limit { which, count }),
        Err(DataEnd::Memory) => Err(Refusal::Memory),
    }
}

// The answer to a source.
fn answered(alloc: Global, bytes: &[u8]) -> Result<Program, Refusal>
    ensures { Answers (IsProgram bytes.now) (IsCause bytes.now) result }
{
    match tree_in(alloc, bytes) {
        Ok(tree) => typed_in(alloc, &tree),
        Err(end) => Err(end),
    }
}

/// The program of a source: its rules on data and on statements are kept, and no limit on data is exceeded. Or the first
/// reason why it isn't one, in the order of the variants of [`Refusal`]; rules and limits on data come before rules on
/// statements.
pub fn program_in(alloc: Global, bytes: &[u8]) -> Result<Program, Refusal>
    ensures answer { Answers (IsProgram bytes.now) (IsCause bytes.now) result }
    ensures refused { (end : End) → IsCause bytes.now end → IsRefused result end }
    ensures accepted { (program : PlainProgram) → IsSource bytes.now program → IsAccepted result }
{
    answered(alloc, bytes)
}
