//! The analysis of a program over both layers.
ghost use Rattle.std.specs.Prelude.{◌≡◌, ◌+◌, ◌≤◌, [], length, IfOk, OnOk};
ghost use Rattle.cob_program.specs.ActView.{plain_program};
ghost use Rattle.cob_graph_build.specs.Limits.{IsWithinLimits};
ghost use Rattle.graph_runs.specs.Sources.{IsSourceGraph};
ghost use Rattle.interval_domain.specs.Rows.{lists_of};
ghost use Rattle.cert_text.specs.View.{view};
ghost use Rattle.cert_text.specs.Allowed.{IsAllowed};
ghost use Rattle.cert_text.specs.MatrixClaims.{cells_in};
ghost use Rattle.cert_check.specs.Assignments.{open_pairs as open_pairs_of};
ghost use Rattle.cert_check.specs.Claims.{open_pairs};
ghost use Rattle.cert_check.specs.Checking.{Accepts};
ghost use Rattle.widen_solver.specs.Stored.{row_at};
ghost use Rattle.analyse_core.specs.Choice.{packs_of};
ghost use Rattle.analyse_core.specs.Thresholds.{thresholds_of};
ghost use Rattle.analyse_core.specs.Packs.{ArePacksGiven, ArePacksReady};
ghost use Rattle.analyse_core.specs.Assignments.{MissesNothing, MissesNothingTogether, most_steps, pack_steps};
ghost use Rattle.analyse_core.specs.Solved.{AreSolvedBounds, AreSolvedCells, solved};
ghost use Rattle.analyse_core.specs.Found.{IsFound};

use crate::certificate::certificate_of;
use crate::choice::packs;
use crate::listing::thresholds;
use crate::solving::{NoBounds, solve_cells, solve_packs};
use crate::threshold_lists::pack_thresholds;
use cell_layer::CellLayer;
use cert_check::open_pairs;
use cert_text::Cert;
use cob_graph::Graph;
use cob_program::Program;
use cob_tree::Open;
use diff_bounds::Pack;
use diff_layer::DiffLayer;
use dom_laws::{Rows, Steps, System};
use std::alloc::{AllocError, Global};
use std::sync::ledger::Ledger;
use widen_solver::Store;

/// What an analysis finds: a certificate, and the pairs that it leaves open.
#[derive(Drop)]
pub struct Found {
    pub cert: Cert,
    pub pairs: Vec<Open>,
}

// The second layer's rows, and the pairs that both layers leave open.
#[derive(Drop)]
struct Beside {
    bounds: Store,
    pairs: Vec<Open>,
}

// Solves the second layer beside the first one's rows.
fn solve_beside<L: Ledger>(
    alloc: Global,
    layer: &CellLayer,
    packs: &[Pack],
    lists: &[Vec<i128>],
    rows: &Store,
    steps: &mut Steps<L>,
) -> Result<Beside, AllocError>
    requires source { ∥ IsSourceGraph (plain_program layer.now.program.now) layer.now.graph.now ∥₁ }
    requires limits { IsWithinLimits layer.now.graph.now }
    requires packs { ArePacksGiven (plain_program layer.now.program.now) packs.now lists.now }
    requires some { 1 ≤ length packs.now }
    requires count { length rows.now.rows ≡ length layer.now.graph.now.nodes }
    requires cells { AreSolvedCells (plain_program layer.now.program.now) layer.now.graph.now (row_at rows.now.rows) }
    ensures nodes { IfOk result (λ beside. length beside.bounds.rows ≡ length layer.now.graph.now.nodes) }
    ensures solved { IfOk result (λ beside. AreSolvedBounds (plain_program layer.now.program.now) layer.now.graph.now
        (row_at rows.now.rows) (row_at beside.bounds.rows)) }
    ensures pairs { let p = plain_program layer.now.program.now in
        IfOk result (λ beside. beside.pairs.items ≡ open_pairs_of p layer.now.graph.now (packs_of p)
        (solved p (row_at rows.now.rows) (row_at beside.bounds.rows))) }
    ensures at_least { steps.old ≤ steps.new }
    ensures at_most { let p = plain_program layer.now.program.now in
        steps.new ≤ steps.old + pack_steps p layer.now.graph.now (packs_of p) }
{
    let second = DiffLayer::new(alloc, layer.program, layer.graph, packs, lists, rows)?;
    let bounds = solve_packs(alloc, &second, steps)?;
    let pairs = open_pairs(alloc, &second, &bounds, layer.program, layer.graph)?;
    Ok(Beside { bounds, pairs })
}

// The certificate of solved rows, with the pairs that they leave open.
fn found_by<B: Rows>(
    alloc: Global,
    layer: &CellLayer,
    packs: Vec<Pack>,
    rows: &Store,
    bounds: &B,
    pairs: Vec<Open>,
) -> Result<Found, AllocError>
    requires source { ∥ IsSourceGraph (plain_program layer.now.program.now) layer.now.graph.now ∥₁ }
    requires limits { IsWithinLimits layer.now.graph.now }
    requires ready { ArePacksReady (plain_program layer.now.program.now) }
    requires packs { cells_in packs.items ≡ packs_of (plain_program layer.now.program.now) }
    requires count { length rows.now.rows ≡ length layer.now.graph.now.nodes }
    requires both { B.count bounds.now ≡ length layer.now.graph.now.nodes }
    requires cells { AreSolvedCells (plain_program layer.now.program.now) layer.now.graph.now (row_at rows.now.rows) }
    requires beside { AreSolvedBounds (plain_program layer.now.program.now) layer.now.graph.now
        (row_at rows.now.rows) (B.row_at bounds.now) }
    requires pairs { let p = plain_program layer.now.program.now in
        pairs.items ≡ open_pairs_of p layer.now.graph.now (packs_of p)
        (solved p (row_at rows.now.rows) (B.row_at bounds.now)) }
    ensures { IfOk result (λ found. IsFound (plain_program layer.now.program.now) layer.now.graph.now
        (view found.cert) found.pairs.items) }
{
    let cells = layer.graph.cells.get().len() as u32;
    let cert = certificate_of(alloc, packs, rows, bounds, layer.nodes(), cells)?;
    Ok(Found { cert, pairs })
}

// Solves the layers and makes their certificate. Without packs there is no second layer.
fn solve_layers<L: Ledger>(
    alloc: Global,
    layer: &CellLayer,
    packs: Vec<Pack>,
    lists: &[Vec<i128>],
    steps: &mut Steps<L>,
) -> Result<Found, AllocError>
    requires source { ∥ IsSourceGraph (plain_program layer.now.program.now) layer.now.graph.now ∥₁ }
    requires limits { IsWithinLimits layer.now.graph.now }
    requires thresholds { lists_of layer.now.thresholds.now ≡ thresholds_of (plain_program layer.now.program.now) }
    requires packs { ArePacksGiven (plain_program layer.now.program.now) packs.items lists.now }
    ensures found { IfOk result (λ found. IsFound (plain_program layer.now.program.now) layer.now.graph.now
        (view found.cert) found.pairs.items) }
    ensures at_least { OnOk result (steps.old + length layer.now.graph.now.edges ≤ steps.new) }
    ensures at_most { steps.new ≤ steps.old + most_steps (plain_program layer.now.program.now) layer.now.graph.now }
{
    let rows = solve_cells(alloc, layer, steps)?;
    if packs.as_slice().is_empty() {
        let pairs = open_pairs(alloc, layer, &rows, layer.program, layer.graph)?;
        let bounds = NoBounds {
            nodes: layer.nodes(),
        };
        return found_by(alloc, layer, packs, &rows, &bounds, pairs);
    }
    let Beside { bounds, pairs } = solve_beside(
        alloc,
        layer,
        packs.as_slice(),
        lists,
        &rows,
        steps,
    )?;
    found_by(alloc, layer, packs, &rows, &bounds, pairs)
}

// Makes thresholds and packs, and finds the certificate.
fn found_for<L: Ledger>(
    alloc: Global,
    program: &Program,
    graph: &Graph,
    steps: &mut Steps<L>,
) -> Result<Found, AllocError>
    requires source { ∥ IsSourceGraph (plain_program program.now) graph.now ∥₁ }
    requires limits { IsWithinLimits graph.now }
    ensures found { IfOk result (λ found. IsFound (plain_program program.now) graph.now
        (view found.cert) found.pairs.items) }
    ensures at_least { OnOk result (steps.old + length graph.now.edges ≤ steps.new) }
    ensures at_most { steps.new ≤ steps.old + most_steps (plain_program program.now) graph.now }
{
    let cell_lists = thresholds(alloc, program, graph)?;
    let packs = packs(alloc, program, graph)?;
    let lists = pack_thresholds(
        alloc,
        graph.cells.get(),
        cell_lists.as_slice(),
        packs.as_slice(),
    )?;
    let layer = CellLayer::new(alloc, program, graph, cell_lists.as_slice())?;
    solve_layers(alloc, &layer, packs, lists.as_slice(), steps)
}

/// Analyses a program: the certificate of what the first layer knows of its cells at each node of its graph, and, where
/// the program has packs, of what the second one knows of their differences beside it, with the pairs that it leaves
/// open. Both are solved with thresholds by the program's literals (Cousot and Cousot 1977, Miné 2001).
pub fn find<L: Ledger>(
    alloc: Global,
    program: &Program,
    graph: &Graph,
    steps: &mut Steps<L>,
) -> Result<Found, AllocError>
    requires source { ∥ IsSourceGraph (plain_program program.now) graph.now ∥₁ }
    requires limits { IsWithinLimits graph.now }
    ensures allowed { IfOk result (λ found. IsAllowed (view found.cert)) }
    ensures packs { IfOk result (λ found. (view found.cert).packs ≡ packs_of (plain_program program.now)) }
    ensures accepted { IfOk result (λ found. Accepts (plain_program program.now) graph.now (view found.cert)
        (open_pairs (plain_program program.now) graph.now (view found.cert))) }
    ensures pairs { IfOk result (λ found. found.pairs.items
        ≡ open_pairs (plain_program program.now) graph.now (view found.cert)) }
    // Nothing is missed that some assignment with thresholds at its heads can show.
    ensures complete { IfOk result (λ found. MissesNothing (plain_program program.now) graph.now (view found.cert)) }
    // Nothing is missed that such an assignment of packs beside it can show with it.
    ensures together { IfOk result (λ found. MissesNothingTogether (plain_program program.now) graph.now
        (view found.cert)) }
    ensures at_least { OnOk result (steps.old + length graph.now.edges ≤ steps.new) }
    ensures at_most { steps.new ≤ steps.old + most_steps (plain_program program.now) graph.now }
{
    found_for(alloc, program, graph, steps)
}

/// Analyses a program: the certificate that `find` finds.
pub fn analyse<L: Ledger>(
    alloc: Global,
    program: &Program,
    graph: &Graph,
    steps: &mut Steps<L>,
) -> Result<Cert, AllocError>
    requires source { ∥ IsSourceGraph (plain_program program.now) graph.now ∥₁ }
    requires limits { IsWithinLimits graph.now }
    ensures allowed { IfOk result (λ cert. IsAllowed (view cert)) }
    ensures packs { IfOk result (λ cert. (view cert).packs ≡ packs_of (plain_program program.now)) }
    ensures accepted { IfOk result (λ cert. Accepts (plain_program program.now) graph.now (view cert)
        (open_pairs (plain_program program.now) graph.now (view cert))) }
    ensures complete { IfOk result (λ cert. MissesNothing (plain_program program.now) graph.now (view cert)) }
    ensures together { IfOk result (λ cert. MissesNothingTogether (plain_program program.now) graph.now (view cert)) }
    ensures at_least { OnOk result (steps.old + length graph.now.edges ≤ steps.new) }
    ensures at_most { steps.new ≤ steps.old + most_steps (plain_program program.now) graph.now }
{
    let Found { cert, pairs: _ } = find(alloc, program, graph, steps)?;
    Ok(cert)
}
