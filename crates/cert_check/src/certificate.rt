//! The check of a certificate.
ghost use Rattle.std.specs.Prelude.{◌≡◌, ◌≤◌, ◌<◌, ◌^◌, [], map, length, slice_get, Some, IfOk, MatchResult};
ghost use Rattle.cob_program.specs.ActView.{plain_program};
ghost use Rattle.cob_graph_build.specs.Limits.{IsWithinLimits};
ghost use Rattle.graph_runs.specs.Sources.{IsSourceGraph};
ghost use Rattle.dom_laws.specs.Lattice.{IsElement};
ghost use Rattle.interval_domain.specs.Rows.{cells_lattice, lists_of, width_of};
ghost use Rattle.cell_steps.specs.OwnRanges.{owns};
ghost use Rattle.cell_laws.specs.Layer.{cell_flow};
ghost use Rattle.cert_text.specs.View.{view};
ghost use Rattle.cert_text.specs.Allowed.{IsAllowed};
ghost use Rattle.cert_text.specs.Gaps.{HasSmallClaims};
ghost use Rattle.cell_ranges.specs.Ranges.{ends_of};
ghost use Rattle.cert_check.specs.Counts.{HasCounts, MisfitsCounts};
ghost use Rattle.cert_check.specs.Claims.{edge_gaps, row_at};
ghost use Rattle.cert_check.specs.Checking.{Checks, CoversRuns, HasShape, Refuses};
ghost use Rattle.cert_check.specs.Given.{ClaimsAreKept, IsGiven, LeaksFirst};
ghost use Rattle.cert_check.specs.Along.{arrives};

use crate::edges::{arrive, led_to};
use crate::ends::{CheckEnd, Shape};
use crate::nodes::open_pairs;
use crate::packs::check_packs;
use crate::rows::ClaimedRows;
use cell_layer::CellLayer;
use cell_ranges::{all_ends, own_ranges};
use cert_text::{Cert, Gap, first_gap};
use cob_graph::Graph;
use cob_program::Program;
use cob_tree::Open;
use dom_laws::{Domain, pass};
use interval_domain::Interval;
use std::alloc::Global;

// Whether a certificate has as many cells and nodes. Cells are looked at first.
fn fit_shape(cert: &Cert, cells: u32, nodes: u32) -> Result<(), CheckEnd>
    requires { length (view cert.now).nodes < 2 ^ 32 }
    ensures { MatchResult result (λ _. HasCounts (view cert.now) cells nodes) (MisfitsCounts (view cert.now) cells nodes) }
{
    if cert.cells != cells {
        return Err(CheckEnd::Shape {
            what: Shape::Cells,
            found: cert.cells,
            wanted: cells,
        });
    }
    let found = cert.nodes.len() as u32;
    if found != nodes {
        return Err(CheckEnd::Shape {
            what: Shape::Nodes,
            found,
            wanted: nodes,
        });
    }
    Ok(())
}

// The first gap along the first edge that has one. `row` is what comes along it.
fn gap_at(layer: &CellLayer, rows: &ClaimedRows, edge: u32, row: &[i128]) -> Gap
    requires given { IsGiven (plain_program layer.now.program.now) layer.now.graph.now (view rows.now.cert.now) rows.now.owns.now }
    requires row { let p = plain_program layer.now.program.now in let g = layer.now.graph.now in
        row.now ≡ arrives (cell_flow p g) (row_at p g (view rows.now.cert.now)) edge }
    requires element { IsElement (cells_lattice (owns (plain_program layer.now.program.now))
        (lists_of layer.now.thresholds.now)) row.now }
    requires leak { LeaksFirst (plain_program layer.now.program.now) layer.now.graph.now (view rows.now.cert.now)
        (lists_of layer.now.thresholds.now) edge }
    ensures { let p = plain_program layer.now.program.now in let g = layer.now.graph.now in
        slice_get (edge_gaps p g (view rows.now.cert.now) edge) 0 ≡ Some result }
{
    let node = led_to(layer, edge) as usize;
    match first_gap(row, &rows.cert.nodes[node - 1], rows.owns.len()) {
        Some(gap) => gap,
        None => unreachable!(),
    }
}

// Why a certificate isn't inductive, by the first edge that has a gap. `out` is room for what comes along it.
fn leak_at(layer: &CellLayer, rows: &ClaimedRows, edge: u32, out: &mut [i128]) -> CheckEnd
    requires given { IsGiven (plain_program layer.now.program.now) layer.now.graph.now (view rows.now.cert.now) rows.now.owns.now }
    requires out { length out.old ≡ width_of (owns (plain_program layer.now.program.now)) }
    requires leak { LeaksFirst (plain_program layer.now.program.now) layer.now.graph.now (view rows.now.cert.now)
        (lists_of layer.now.thresholds.now) edge }
    ensures { Refuses (plain_program layer.now.program.now) layer.now.graph.now (view rows.now.cert.now) result }
{
    arrive(layer, rows, edge, out);
    let gap = gap_at(layer, rows, edge, out);
    CheckEnd::NotInductive {
        layer: 1,
        edge,
        gap,
    }
}

// What an inductive certificate without packs leaves open.
fn left_open(alloc: Global, layer: &CellLayer, rows: &ClaimedRows) -> Result<Vec<Open>, CheckEnd>
    requires given { IsGiven (plain_program layer.now.program.now) layer.now.graph.now (view rows.now.cert.now) rows.now.owns.now }
    requires plain { (view rows.now.cert.now).packs ≡ [] }
    requires inductive { ClaimsAreKept (plain_program layer.now.program.now) layer.now.graph.now (view rows.now.cert.now)
        (lists_of layer.now.thresholds.now) }
    ensures { Checks (plain_program layer.now.program.now) layer.now.graph.now (view rows.now.cert.now) result }
{
    let pairs = open_pairs(alloc, layer, rows, layer.program, layer.graph)?;
    Ok(pairs)
}

// What remains to check where the claims of cells are inductive.
fn check_beside(alloc: Global, layer: &CellLayer, rows: &ClaimedRows) -> Result<Vec<Open>, CheckEnd>
    requires given { IsGiven (plain_program layer.now.program.now) layer.now.graph.now (view rows.now.cert.now) rows.now.owns.now }
    requires inductive { ClaimsAreKept (plain_program layer.now.program.now) layer.now.graph.now (view rows.now.cert.now)
        (lists_of layer.now.thresholds.now) }
    ensures { Checks (plain_program layer.now.program.now) layer.now.graph.now (view rows.now.cert.now) result }
{
    if rows.cert.packs.as_slice().is_empty() {
        left_open(alloc, layer, rows)
    } else {
        check_packs(alloc, layer.program, layer.graph, rows)
    }
}

// Goes over the edges and then over the nodes.
fn check_edges(alloc: Global, layer: &CellLayer, rows: &ClaimedRows) -> Result<Vec<Open>, CheckEnd>
    requires given { IsGiven (plain_program layer.now.program.now) layer.now.graph.now (view rows.now.cert.now) rows.now.owns.now }
    ensures { Checks (plain_program layer.now.program.now) layer.now.graph.now (view rows.now.cert.now) result }
{
    let mut out = vec![in alloc; 0; layer.words()]?;
    match pass(layer, rows, out.as_mut_slice()) {
        Some(edge) => Err(leak_at(layer, rows, edge, out.as_mut_slice())),
        None => check_beside(alloc, layer, rows),
    }
}

// Checks a certificate of the right shape.
fn check_rows(
    alloc: Global,
    program: &Program,
    graph: &Graph,
    cert: &Cert,
    ranges: &[Interval],
    ends: &[Vec<i64>],
) -> Result<Vec<Open>, CheckEnd>
    requires given { IsGiven (plain_program program.now) graph.now (view cert.now) ranges.now }
    requires limits { IsWithinLimits graph.now }
    requires ends { lists_of ends.now ≡ map ends_of ranges.now }
    ensures { Checks (plain_program program.now) graph.now (view cert.now) result }
{
    let layer = CellLayer::new(alloc, program, graph, ends)?;
    let rows = ClaimedRows::new(alloc, ranges, cert)?;
    check_edges(alloc, &layer, &rows)
}

// Checks a certificate of the right shape by the own ranges of the cells.
fn check_shaped(
    alloc: Global,
    program: &Program,
    graph: &Graph,
    cert: &Cert,
) -> Result<Vec<Open>, CheckEnd>
    requires source { ∥ IsSourceGraph (plain_program program.now) graph.now ∥₁ }
    requires limits { IsWithinLimits graph.now }
    requires allowed { IsAllowed (view cert.now) }
    requires shape { HasShape (plain_program program.now) graph.now (view cert.now) }
    ensures { Checks (plain_program program.now) graph.now (view cert.now) result }
{
    let cells = graph.cells.get();
    let owns = own_ranges(alloc, cells)?;
    let ends = all_ends(alloc, owns.as_slice())?;
    check_rows(
        alloc,
        program,
        graph,
        cert,
        owns.as_slice(),
        ends.as_slice(),
    )
}

fn check_all(
    alloc: Global,
    program: &Program,
    graph: &Graph,
    cert: &Cert,
) -> Result<Vec<Open>, CheckEnd>
    requires source { ∥ IsSourceGraph (plain_program program.now) graph.now ∥₁ }
    requires limits { IsWithinLimits graph.now }
    requires allowed { IsAllowed (view cert.now) }
    ensures { Checks (plain_program program.now) graph.now (view cert.now) result }
{
    let cells = graph.cells.get().len() as u32;
    let nodes = graph.nodes.get().len() as u32;
    match fit_shape(cert, cells, nodes) {
        Err(end) => Err(end),
        Ok(()) => check_shaped(alloc, program, graph, cert),
    }
}

/// Checks a certificate for a program and its graph: the statements with kinds of fault that it leaves open, by
/// statement and then by kind, among which is each fault that any run meets (Cousot and Cousot 1977). Else the count
/// that differs, cells before nodes, or the first edge with a gap and the first gap there, all edges of layer 1 (cells)
/// before those of layer 2 (packs); or want of memory.
pub fn check(
    alloc: Global,
    program: &Program,
    graph: &Graph,
    cert: &Cert,
) -> Result<Vec<Open>, CheckEnd>
    requires source { ∥ IsSourceGraph (plain_program program.now) graph.now ∥₁ }
    requires limits { IsWithinLimits graph.now }
    requires allowed { IsAllowed (view cert.now) }
    ensures exact { Checks (plain_program program.now) graph.now (view cert.now) result }
    ensures sound { IfOk result (λ pairs. CoversRuns (plain_program program.now) pairs.items) }
{
    check_all(alloc, program, graph, cert)
}
