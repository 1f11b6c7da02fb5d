//! What edges make of matrices, in place, and the kinds of faults that they clear. Edges are named by their numbers,
//! which count from 0.
ghost use Rattle.std.specs.Prelude.{◌≡◌, ◌≤◌, ◌<◌, IsTrue, length, if◌then◌else◌, Some, None};
ghost use Rattle.cob_tree.specs.Kinds.{kinds_of, every_kind};
ghost use Rattle.interval_domain.specs.Rows.{IsReached, IsRow, cells_of, element_of};
ghost use Rattle.interval_domain.specs.Elements.{CellsFit};
ghost use Rattle.cell_steps.specs.OwnRanges.{owns};
ghost use Rattle.diff_layer.specs.GraphWorks.{program_of, graph_of, packs_of, edge_of, matrices_of, cells_at};
ghost use Rattle.diff_layer.specs.Plans.{IsRowFor};
ghost use Rattle.pack_laws.specs.Layer.{edge_clears2};
ghost use Rattle.diff_layer.specs.Edges.{edge_walked, packs_walked};

use crate::layer::graph::{NodeRows, PackWorks};
use crate::pack::edge::PackEdge;
use crate::pack::faults::packs_cleared;
use crate::pack::walking::walk_packs;
use cell_layer::cleared_by_edge;
use cob_tree::Kinds;
use interval_domain::is_reached;

// Makes of matrices what an edge makes of them, beside a row of what is known of cells at its source, which changes,
// and room for a row. Answers false where no run passes the edge; the words then aren't told.
fn walk_edge(
    edges: &PackWorks,
    at: usize,
    row: &mut [i128],
    before: &mut [i128],
    out: &mut [i128],
) -> bool
    requires edge { at < length (graph_of edges.now).edges }
    requires reached { IsReached row.old }
    requires fits { CellsFit (owns (program_of edges.now)) (cells_of row.old) }
    requires room { length before.old ≡ length row.old }
    requires matrices { IsRowFor edges.now.plans.now out.old }
    ensures { edge_walked (program_of edges.now) (graph_of edges.now) (packs_of edges.now) (edge_of edges.now at)
        (matrices_of edges.now out.old) (cells_of row.old)
        ≡ (if result then Some (matrices_of edges.now out.new) else None) }
{
    match edges.works.at(at) {
        Some(work) => {
            let edge = PackEdge {
                cells: edges.works.graph.cells.get(),
                marks: edges.works.marks.as_slice(),
                work,
                plans: edges.plans,
            };
            walk_packs(&edge, row, before, out)
        }
        None => true,
    }
}

/// Makes of matrices what an edge makes of them, beside the row of what is known of cells at its source. Answers false
/// where no run passes the edge; the words then aren't told.
pub fn passes_edge(edges: &PackWorks, at: usize, fact: &[i128], out: &mut [i128]) -> bool
    requires edge { at < length (graph_of edges.now).edges }
    requires fact { IsRow (owns (program_of edges.now)) fact.now }
    requires words { length fact.now ≤ 1025 }
    requires matrices { IsRowFor edges.now.plans.now out.old }
    ensures { packs_walked (program_of edges.now) (graph_of edges.now) (packs_of edges.now) (edge_of edges.now at)
        (element_of fact.now) (matrices_of edges.now out.old)
        ≡ (if result then Some (matrices_of edges.now out.new) else None) }
{
    if !is_reached(fact) {
        return false;
    }
    let mut words = [0; 1025];
    let row = &mut words[..fact.len()];
    row.copy_from_slice(fact);
    let mut room = [0; 1025];
    let before = &mut room[..fact.len()];
    walk_edge(edges, at, row, before, out)
}

// ---- what is cleared

// whether all kinds are in a set
fn is_all(kinds: Kinds) -> bool
    ensures { IsTrue result → kinds ≡ every_kind }
{
    kinds.size && kinds.truncation && kinds.zero && kinds.class && kinds.subscript
}

/// The kinds of faults that both layers show no part of an edge to meet, beside room for two rows of cells and one of
/// matrices. Matrices are looked at where the first layer alone doesn't clear all kinds.
pub fn edge_cleared(
    edges: &PackWorks,
    at: usize,
    rows: &NodeRows,
    row: &mut [i128],
    before: &mut [i128],
    out: &mut [i128],
) -> Kinds
    requires edge { at < length (graph_of edges.now).edges }
    requires reached { IsReached rows.now.cells.now }
    requires fits { CellsFit (owns (program_of edges.now)) (cells_at rows.now) }
    requires row { length row.old ≡ length rows.now.cells.now }
    requires room { length before.old ≡ length rows.now.cells.now }
    requires width { length out.old ≡ length rows.now.matrices.now }
    requires matrices { IsRowFor edges.now.plans.now rows.now.matrices.now }
    ensures { result ≡ kinds_of (λ fault. edge_clears2 (program_of edges.now) (graph_of edges.now) (packs_of edges.now)
        fault
        (cells_at rows.now) (matrices_of edges.now rows.now.matrices.now) (edge_of edges.now at)) }
{
    match edges.works.at(at) {
        None => Kinds::all(),
        Some(work) => {
            let edge = PackEdge {
                cells: edges.works.graph.cells.get(),
                marks: edges.works.marks.as_slice(),
                work,
                plans: edges.plans,
            };
            if is_all(cleared_by_edge(edge.cells, edge.marks, work, rows.cells, row)) {
                return Kinds::all();
            }
            row.copy_from_slice(rows.cells);
            out.copy_from_slice(rows.matrices);
            packs_cleared(&edge, row, before, out)
        }
    }
}
