//! The graph of a program.
ghost use Rattle.std.specs.Prelude.{◌≡◌, ◌≤◌, ◌⊎◌, ◌-◌, ℕ, length, map, true, IfOk};
ghost use Rattle.cob_data.specs.declared.end.Which.{Which};
ghost use Rattle.cob_data.specs.declared.end.Rule.{Rule};
ghost use Rattle.cob_program.specs.ActView.{plain_program};
ghost use Rattle.cob_graph.specs.declared.end.FlowEnd.TheVariants as end;
ghost use Rattle.cob_graph.specs.Nesting.{IsNested};
ghost use Rattle.cob_graph.specs.Graphs.{final_of, all_nodes, as_node, edges_of, cells_of, IsGraph, IsOver};
ghost use Rattle.cob_graph.specs.Limits.{most_cells};
ghost use Rattle.cob_graph_build.specs.Limits.{IsWithinLimits};
ghost use Rattle.cob_graph_build.specs.Sizes.{range_fits};
ghost use Rattle.cob_graph_build.specs.Tables.{is_in, main_paras, IsTable};

use crate::cells::cells_of;
use crate::counting::{Entry, plus, range_fits, range_size, table_of};
use crate::laying::Laying;
use crate::within::Within;
use cob_data::Which;
use cob_graph::{Edge, FlowEnd, Graph, MOST_CELLS, MOST_NODES, Node};
use cob_program::Program;
use cob_runs::Cell;
use cob_tree::Many;
use std::alloc::{AllocError, Global};

/// How deep calls are nested at most while nodes are laid.
const DEPTH: u32 = 40_000;

/// The nodes and edges of a program with so many paragraphs and nodes.
fn lay_all(
    alloc: Global,
    program: &Program,
    table: &[Entry],
    paras: usize,
    nodes: u32,
) -> Result<(Many<Node>, Many<Edge>), AllocError>
    requires table { IsTable (plain_program program.now) table.now }
    requires paras { paras ≡ length (plain_program program.now).paras }
    requires nodes { nodes ≡ final_of (main_paras (plain_program program.now) table.now) }
    ensures nodes { IfOk result (λ parts. parts.0 ≡ map as_node
        (all_nodes (plain_program program.now) (main_paras (plain_program program.now) table.now))) }
    ensures edges { IfOk result (λ parts. parts.1 ≡ edges_of 1
        (all_nodes (plain_program program.now) (main_paras (plain_program program.now) table.now))) }
{
    let mut laying = Laying::new(alloc);
    let main = Within {
        program,
        table,
        sites: &[],
        first: 0,
        end: paras,
        at: 1,
        next: nodes,
        final_node: nodes,
    };
    laying.lay_paras(&main, DEPTH)?;
    laying.add_final()?;
    Ok(laying.parts())
}

/// The graph with these cells, where the nodes aren't too many.
fn graph_with(
    alloc: Global,
    program: &Program,
    cells: Vec<Cell>,
    table: &[Entry],
    paras: usize,
) -> Result<Graph, FlowEnd>
    requires table { IsTable (plain_program program.now) table.now }
    requires fits { range_fits (is_in table.now) 0 (paras - 1) (plain_program program.now) 0 (paras - 0) ≡ true }
    requires paras { paras ≡ length (plain_program program.now).paras }
    requires cells { cells.items ≡ cells_of (plain_program program.now) }
    requires few { length cells.items ≤ most_cells }
    ensures graph { IfOk result (λ g. IsGraph (plain_program program.now) g) }
    ensures within { IfOk result (λ g. IsWithinLimits g) }
    ensures limit { (which : Which) (count : ℕ) → result ≡ Err (end.Limit which count) →
        IsOver (plain_program program.now) which count }
    ensures inside { (rule : Rule) (line : ℕ) → result ≡ Err (end.Outside rule line) → ⊥ }
{
    let count = plus(1, range_size(program, table, 0, paras));
    if count > MOST_NODES {
        return Err(FlowEnd::Limit {
            which: Which::Nodes,
            count,
        });
    }
    let Ok((nodes, edges)) = lay_all(alloc, program, table, paras, count as u32) else {
        return Err(FlowEnd::Memory);
    };
    Ok(Graph {
        nodes,
        edges,
        cells: Many::of(cells),
    })
}

/// The graph with these cells.
fn laid(alloc: Global, program: &Program, cells: Vec<Cell>, paras: usize) -> Result<Graph, FlowEnd>
    requires paras { paras ≡ length (plain_program program.now).paras }
    requires cells { cells.items ≡ cells_of (plain_program program.now) }
    requires few { length cells.items ≤ most_cells }
    ensures graph { IfOk result (λ g. IsGraph (plain_program program.now) g) }
    ensures within { IfOk result (λ g. IsWithinLimits g) }
    ensures limit { (which : Which) (count : ℕ) → result ≡ Err (end.Limit which count) →
        IsOver (plain_program program.now) which count }
    ensures inside { (rule : Rule) (line : ℕ) → result ≡ Err (end.Outside rule line) → ⊥ }
{
    let Ok(table) = table_of(alloc, program) else {
        return Err(FlowEnd::Memory);
    };
    match range_fits(alloc, program, &table, 0, paras.saturating_sub(1), 0, paras) {
        Ok(true) => graph_with(alloc, program, cells, &table, paras),
        _ => Err(FlowEnd::Memory),
    }
}

/// How many paragraphs it has.
fn count_paras(program: &Program) -> usize
    ensures { result ≡ length (plain_program program.now).paras }
{
    program.paras.get().len()
}

/// The graph where its cells and nodes are within the limits, or else a limit that it is over.
fn graph_or_limit(alloc: Global, program: &Program) -> Result<Graph, FlowEnd>
    ensures graph { IfOk result (λ g. IsGraph (plain_program program.now) g) }
    ensures within { IfOk result (λ g. IsWithinLimits g) }
    ensures limit { (which : Which) (count : ℕ) → result ≡ Err (end.Limit which count) →
        IsOver (plain_program program.now) which count }
    ensures inside { (rule : Rule) (line : ℕ) → result ≡ Err (end.Outside rule line) → ⊥ }
{
    let Ok(cells) = cells_of(alloc, program) else {
        return Err(FlowEnd::Memory);
    };
    let count = cells.len() as u64;
    if count > MOST_CELLS {
        return Err(FlowEnd::Limit {
            which: Which::Cells,
            count,
        });
    }
    laid(alloc, program, cells, count_paras(program))
}

/// The control graph of a program whose PERFORMs nest, where its cells and nodes are within the limits. A GO TO to no
/// paragraph at all counts as want of memory, and so do calls that would be nested too deep for the stack.
pub fn graph_of(alloc: Global, program: &Program) -> Result<Graph, FlowEnd>
    requires { IsNested (plain_program program.now) }
    ensures graph { IfOk result (λ g. IsGraph (plain_program program.now) g) }
    ensures within { IfOk result (λ g. IsWithinLimits g) }
    ensures limit { (which : Which) (count : ℕ) → result ≡ Err (end.Limit which count) →
        IsOver (plain_program program.now) which count }
    ensures exact { (which : Which) (count : ℕ) → IsOver (plain_program program.now) which count
        → (result ≡ Err (end.Limit which count)) ⊎ (result ≡ Err end.Memory) }
    ensures inside { (rule : Rule) (line : ℕ) → result ≡ Err (end.Outside rule line) → ⊥ }
{
    graph_or_limit(alloc, program)
}
