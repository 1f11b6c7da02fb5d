//! Both layers are solved here. Each takes the rows that it is solved in before.
ghost use Rattle.std.specs.Prelude.{◌≡◌, ◌≤◌, ◌+◌, [], length, IfOk, OnOk};
ghost use Rattle.cob_program.specs.ActView.{plain_program};
ghost use Rattle.cob_graph.specs.Graphs.{cells_of};
ghost use Rattle.cob_graph.specs.Limits.{most_cells, most_nodes};
ghost use Rattle.interval_domain.specs.Elements.{height_of};
ghost use Rattle.interval_domain.specs.Rows.{lists_of};
ghost use Rattle.cell_steps.specs.OwnRanges.{owns};
ghost use Rattle.analyse_core.specs.Choice.{packs_of};
ghost use Rattle.widen_solver.specs.Stored.{row_at};
ghost use Rattle.analyse_core.specs.Thresholds.{thresholds_of};
ghost use Rattle.analyse_core.specs.Packs.{ArePacksGiven};
ghost use Rattle.analyse_core.specs.Assignments.{layer_steps, pack_steps};
ghost use Rattle.analyse_core.specs.Solved.{AreSolvedBounds, AreSolvedCells};

use cell_layer::CellLayer;
use diff_layer::DiffLayer;
use dom_laws::{Domain, Rows, Steps, System};
use std::alloc::{AllocError, Global};
use std::sync::ledger::Ledger;
use widen_solver::{Store, solve};

/// The rows of matrices where there are no packs: a row without words for each of so many nodes.
#[derive(Drop)]
pub struct NoBounds {
    pub nodes: u32,
}

impl Rows for NoBounds {
    ghost count = { λ bounds. bounds.nodes };

    ghost row_at = { λ bounds node. [] };

    fn row(&self, node: u32) -> &[i128] {
        let _node = node;
        &[]
    }
}

/// Solves the first layer: a row for each node, with 1 or 0 for whether it is reached and two words for each cell, that
/// all edges keep, and below all such rows that widening leaves at the heads (Cousot and Cousot 1977). `steps` counts
/// the transfers. An error where memory ran out.
pub fn solve_cells<L: Ledger>(
    alloc: Global,
    layer: &CellLayer,
    steps: &mut Steps<L>,
) -> Result<Store, AllocError>
    requires nodes { length layer.now.graph.now.nodes ≤ most_nodes }
    requires cells { length (owns (plain_program layer.now.program.now)) ≤ most_cells }
    requires thresholds { lists_of layer.now.thresholds.now ≡ thresholds_of (plain_program layer.now.program.now) }
    ensures nodes { IfOk result (λ rows. length rows.rows ≡ length layer.now.graph.now.nodes) }
    ensures solved { IfOk result (λ rows. AreSolvedCells (plain_program layer.now.program.now) layer.now.graph.now
        (row_at rows.rows)) }
    ensures at_least { OnOk result (steps.old + length layer.now.graph.now.edges ≤ steps.new) }
    ensures at_most { let p = plain_program layer.now.program.now in
        steps.new ≤ steps.old + layer_steps p layer.now.graph.now (height_of (thresholds_of p)) }
{
    let mut rows = Store::new(alloc, layer.nodes(), layer.words())?;
    solve(layer, &mut rows, steps);
    Ok(rows)
}

/// Solves the second layer beside the first one's rows: a row for each node, with a matrix of differences for each
/// pack, one behind the other (Miné 2001), that all edges keep, and below all such rows that widening leaves at the
/// heads. `steps` counts the transfers. An error where memory ran out.
pub fn solve_packs<R: Rows, L: Ledger>(
    alloc: Global,
    layer: &DiffLayer<R>,
    steps: &mut Steps<L>,
) -> Result<Store, AllocError>
    requires packs { ArePacksGiven (plain_program layer.now.program.now) layer.now.packs.now layer.now.thresholds.now }
    requires some { 1 ≤ length layer.now.packs.now }
    requires nodes { length layer.now.graph.now.nodes ≤ most_nodes }
    requires cells { length (cells_of (plain_program layer.now.program.now)) ≤ most_cells }
    ensures nodes { IfOk result (λ bounds. length bounds.rows ≡ length layer.now.graph.now.nodes) }
    ensures solved { IfOk result (λ bounds. AreSolvedBounds (plain_program layer.now.program.now) layer.now.graph.now
        (R.row_at layer.now.facts.now) (row_at bounds.rows)) }
    ensures at_least { steps.old ≤ steps.new }
    ensures at_most { let p = plain_program layer.now.program.now in
        steps.new ≤ steps.old + pack_steps p layer.now.graph.now (packs_of p) }
{
    let mut bounds = Store::new(alloc, layer.nodes(), layer.words())?;
    solve(layer, &mut bounds, steps);
    Ok(bounds)
}
