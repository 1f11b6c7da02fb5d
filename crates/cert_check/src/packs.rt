//! The second layer of a check: what is claimed of packs, beside what is claimed of cells.
ghost use Rattle.std.specs.Prelude.{◌≡◌, ◌≢◌, ◌≤◌, [], length, slice_get, Some, IfOk};
ghost use Rattle.cob_program.specs.ActView.{plain_program};
ghost use Rattle.dom_laws.specs.Lattice.{IsElement};
ghost use Rattle.cert_text.specs.View.{view};
ghost use Rattle.cert_text.specs.MatrixClaims.{cells_in};
ghost use Rattle.diff_bounds.specs.PackRows.{lists_of};
ghost use Rattle.pack_laws.specs.Layer.{diff_lattice, diff_flow};
ghost use Rattle.cert_check.specs.Along.{arrives};
ghost use Rattle.cert_check.specs.Checking.{Checks, Refuses};
ghost use Rattle.cert_check.specs.Claims.{bounds_row, cell_leaks, pack_gaps, packs_at, row_at};
ghost use Rattle.cert_check.specs.Given.{AreEmptyLists, BoundsAreKept, BoundsLeakFirst, IsGiven};

use crate::bounds::ClaimedBounds;
use crate::edges::{arrive, led_to};
use crate::ends::CheckEnd;
use crate::nodes::open_pairs;
use crate::rows::ClaimedRows;
use cert_text::{Cert, Gap, first_matrix_gap};
use cob_graph::Graph;
use cob_program::Program;
use cob_tree::Open;
use diff_bounds::Pack;
use diff_layer::DiffLayer;
use dom_laws::{Domain, Rows, pass};
use std::alloc::{AllocError, Global};

// An empty list of thresholds for each pack: a check never widens.
#[tactic(auto, using(crate::proofs::PackNumbers::one_list_more))]
fn no_thresholds(alloc: Global, packs: &[Pack]) -> Result<Vec<Vec<i128>>, AllocError>
    ensures { IfOk result (λ lists. AreEmptyLists (length packs.now) lists.items) }
{
    let mut lists = Vec::with_capacity(alloc, packs.len())?;
    for _pack in packs {
        lists.push(Vec::new(alloc))?;
    }
    Ok(lists)
}

// The first gap along the first edge that has one. `out` is what comes along it.
fn gap_at(layer: &DiffLayer<ClaimedRows>, rows: &ClaimedBounds, edge: u32, out: &[i128]) -> Gap
    requires given { IsGiven (plain_program layer.now.program.now) layer.now.graph.now (view layer.now.facts.now.cert.now)
        layer.now.facts.now.owns.now }
    requires cert { view rows.now.cert.now ≡ view layer.now.facts.now.cert.now }
    requires packs { cells_in layer.now.packs.now ≡ (view layer.now.facts.now.cert.now).packs }
    requires row { let p = plain_program layer.now.program.now in let g = layer.now.graph.now in
        let c = view layer.now.facts.now.cert.now in
        out.now ≡ arrives (diff_flow p g (packs_at p g c) (row_at p g c)) (bounds_row p g c) edge }
    requires leak { BoundsLeakFirst (plain_program layer.now.program.now) layer.now.graph.now
        (view layer.now.facts.now.cert.now) (lists_of layer.now.thresholds.now) edge }
    ensures { let p = plain_program layer.now.program.now in let g = layer.now.graph.now in
        slice_get (pack_gaps p g (view layer.now.facts.now.cert.now) edge) 0 ≡ Some result }
{
    match first_matrix_gap(layer.packs, out, rows.row(led_to(layer, edge))) {
        Some(gap) => gap,
        None => unreachable!(),
    }
}

// Why what is claimed of packs isn't inductive, by the first edge that has a gap. `out` is room for what comes along it.
fn leak_at(
    layer: &DiffLayer<ClaimedRows>,
    rows: &ClaimedBounds,
    edge: u32,
    out: &mut [i128],
) -> CheckEnd
    requires given { IsGiven (plain_program layer.now.program.now) layer.now.graph.now (view layer.now.facts.now.cert.now)
        layer.now.facts.now.owns.now }
    requires cert { view rows.now.cert.now ≡ view layer.now.facts.now.cert.now }
    requires packs { cells_in layer.now.packs.now ≡ (view layer.now.facts.now.cert.now).packs }
    requires inductive { cell_leaks (plain_program layer.now.program.now) layer.now.graph.now
        (view layer.now.facts.now.cert.now) ≡ [] }
    requires out { length out.old ≡ (diff_lattice (packs_at (plain_program layer.now.program.now) layer.now.graph.now
        (view layer.now.facts.now.cert.now)) (lists_of layer.now.thresholds.now)).width }
    requires leak { BoundsLeakFirst (plain_program layer.now.program.now) layer.now.graph.now
        (view layer.now.facts.now.cert.now) (lists_of layer.now.thresholds.now) edge }
    ensures { Refuses (plain_program layer.now.program.now) layer.now.graph.now (view layer.now.facts.now.cert.now) result }
{
    arrive(layer, rows, edge, out);
    let gap = gap_at(layer, rows, edge, out);
    CheckEnd::NotInductive {
        layer: 2,
        edge,
        gap,
    }
}

// What a certificate leaves open that is inductive in both layers.
fn left_open(
    alloc: Global,
    layer: &DiffLayer<ClaimedRows>,
    rows: &ClaimedBounds,
) -> Result<Vec<Open>, CheckEnd>
    requires given { IsGiven (plain_program layer.now.program.now) layer.now.graph.now (view layer.now.facts.now.cert.now)
        layer.now.facts.now.owns.now }
    requires cert { view rows.now.cert.now ≡ view layer.now.facts.now.cert.now }
    requires packs { cells_in layer.now.packs.now ≡ (view layer.now.facts.now.cert.now).packs }
    requires some { (view layer.now.facts.now.cert.now).packs ≢ [] }
    requires inductive { cell_leaks (plain_program layer.now.program.now) layer.now.graph.now
        (view layer.now.facts.now.cert.now) ≡ [] }
    requires kept { BoundsAreKept (plain_program layer.now.program.now) layer.now.graph.now
        (view layer.now.facts.now.cert.now) (lists_of layer.now.thresholds.now) }
    ensures { Checks (plain_program layer.now.program.now) layer.now.graph.now (view layer.now.facts.now.cert.now) result }
{
    let pairs = open_pairs(alloc, layer, rows, layer.program, layer.graph)?;
    Ok(pairs)
}

// Goes over the edges and then over the nodes. `out` is room for what comes along an edge.
fn check_edges(
    alloc: Global,
    layer: &DiffLayer<ClaimedRows>,
    rows: &ClaimedBounds,
    out: &mut [i128],
) -> Result<Vec<Open>, CheckEnd>
    requires given { IsGiven (plain_program layer.now.program.now) layer.now.graph.now (view layer.now.facts.now.cert.now)
        layer.now.facts.now.owns.now }
    requires cert { view rows.now.cert.now ≡ view layer.now.facts.now.cert.now }
    requires packs { cells_in layer.now.packs.now ≡ (view layer.now.facts.now.cert.now).packs }
    requires some { (view layer.now.facts.now.cert.now).packs ≢ [] }
    requires inductive { cell_leaks (plain_program layer.now.program.now) layer.now.graph.now
        (view layer.now.facts.now.cert.now) ≡ [] }
    requires out { length out.old ≡ (diff_lattice (packs_at (plain_program layer.now.program.now) layer.now.graph.now
        (view layer.now.facts.now.cert.now)) (lists_of layer.now.thresholds.now)).width }
    ensures { Checks (plain_program layer.now.program.now) layer.now.graph.now (view layer.now.facts.now.cert.now) result }
{
    match pass(layer, rows, out) {
        Some(edge) => Err(leak_at(layer, rows, edge, out)),
        None => left_open(alloc, layer, rows),
    }
}

// Goes over the rows of a layer whose facts they stand beside.
fn check_layer(
    alloc: Global,
    layer: &DiffLayer<ClaimedRows>,
    cert: &Cert,
) -> Result<Vec<Open>, CheckEnd>
    requires given { IsGiven (plain_program layer.now.program.now) layer.now.graph.now (view layer.now.facts.now.cert.now)
        layer.now.facts.now.owns.now }
    requires cert { view cert.now ≡ view layer.now.facts.now.cert.now }
    requires packs { cells_in layer.now.packs.now ≡ (view layer.now.facts.now.cert.now).packs }
    requires some { (view layer.now.facts.now.cert.now).packs ≢ [] }
    requires inductive { cell_leaks (plain_program layer.now.program.now) layer.now.graph.now
        (view layer.now.facts.now.cert.now) ≡ [] }
    ensures { Checks (plain_program layer.now.program.now) layer.now.graph.now (view layer.now.facts.now.cert.now) result }
{
    let words = layer.words();
    let rows = ClaimedBounds::new(alloc, cert, words)?;
    let mut out = vec![in alloc; 0; words]?;
    check_edges(alloc, layer, &rows, out.as_mut_slice())
}

/// Checks the packs of a certificate whose claims of cells are inductive, with these as facts.
pub(crate) fn check_packs(
    alloc: Global,
    program: &Program,
    graph: &Graph,
    rows: &ClaimedRows,
) -> Result<Vec<Open>, CheckEnd>
    requires given { IsGiven (plain_program program.now) graph.now (view rows.now.cert.now) rows.now.owns.now }
    requires some { (view rows.now.cert.now).packs ≢ [] }
    requires inductive { cell_leaks (plain_program program.now) graph.now (view rows.now.cert.now) ≡ [] }
    ensures { Checks (plain_program program.now) graph.now (view rows.now.cert.now) result }
{
    let packs = rows.cert.packs.as_slice();
    let lists = no_thresholds(alloc, packs)?;
    let layer = DiffLayer::new(alloc, program, graph, packs, lists.as_slice(), rows)?;
    check_layer(alloc, &layer, rows.cert)
}
