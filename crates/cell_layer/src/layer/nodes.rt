//! Rows of cells as what is known of storages, and the faults that they clear.
ghost use Rattle.std.specs.Prelude.{◌≡◌, ◌≤◌, ◌<◌, ◌==◌, ℕ, length, slice_index_or};
ghost use Rattle.std.specs.List.{list_all};
ghost use Rattle.std.specs.List.Sorted.{IsNonDecreasingBy};
ghost use Rattle.cob_tree.specs.Kinds.{kinds_of};
ghost use Rattle.cob_program.specs.ActView.{plain_program};
ghost use Rattle.graph_runs.specs.Places.{no_edge};
ghost use Rattle.interval_domain.specs.Elements.{CellsFit};
ghost use Rattle.interval_domain.specs.Rows.{IsReached, cells_of, lists_of, width_of};
ghost use Rattle.cell_steps.specs.OwnRanges.{owns};
ghost use Rattle.cell_laws.specs.Layer.{leaves_clear, cell_meaning};
ghost use Rattle.cell_layer.specs.LayerLaws.{means_by};

use crate::layer::cell_layer::CellLayer;
use crate::layer::edges::edge_cleared;
use crate::layer::works::EdgeWorks;
use cob_graph::Edge;
use cob_tree::{Kind, Kinds};
use dom_laws::{Domain, Layer};
use interval_domain::is_reached;

/// How many edges leave earlier nodes, where edges stand in the order of their sources.
pub fn edges_before(edges: &[Edge], node: u32) -> usize
    requires { IsNonDecreasingBy (λ (x : Edge). x.from) edges.now }
    ensures before { (k : ℕ) (d : Edge) → k < result → (slice_index_or edges.now k d).from < node }
    ensures behind { (k : ℕ) (d : Edge) → result ≤ k → k < length edges.now → node ≤ (slice_index_or edges.now k d).from }
{
    edges.partition_point(|edge| edge.from < node)
}

/// The edge at a place, which counts from 0.
pub fn edge_at(edges: &[Edge], at: usize) -> Edge
    requires { at < length edges.now }
    ensures { result ≡ slice_index_or edges.now at no_edge }
{
    edges[at]
}

/// Whether the edge leaves the node.
pub fn leaves(edge: Edge, node: u32) -> bool
    ensures { result ≡ (edge.from == node) }
{
    edge.from == node
}

// the kinds of faults that each edge clears that leaves the node; what the lent row holds is lost
fn node_cleared(works: &EdgeWorks, node: u32, row: &[i128], lent: &mut [i128]) -> Kinds
    requires reached { IsReached row.now }
    requires fits { CellsFit (owns (plain_program works.now.program.now)) (cells_of row.now) }
    requires lent { length lent.old ≡ length row.now }
    ensures { result ≡ kinds_of (λ kind. list_all (leaves_clear (plain_program works.now.program.now) works.now.graph.now node kind
        (cells_of row.now)) works.now.graph.now.edges) }
{
    let edges = works.graph.edges.get();
    let first = edges_before(edges, node);
    let mut cleared = Kinds::all();
    for at in first..edges.len() {
        if !leaves(edge_at(edges, at), node) {
            return cleared;
        }
        cleared = cleared.both(edge_cleared(works, at, row, lent));
    }
    cleared
}

impl<'a> Layer for CellLayer<'a> {
    ghost meaning = { λ s. cell_meaning (plain_program s.program.now) s.graph.now };

    ghost lent_width = { λ s. width_of (owns (plain_program s.program.now)) };

    fn lent_words(&self) -> usize {
        self.words()
    }

    fn cleared(&self, node: u32, row: &[i128], lent: &mut [i128]) -> Kinds {
        if !is_reached(row) {
            return Kinds::all();
        }
        node_cleared(&self.works, node, row, lent)
    }

    fn clears(&self, node: u32, row: &[i128], kind: Kind) -> bool {
        let mut words = [0; 1025];
        self.cleared(node, row, &mut words[..row.len()]).has(kind)
    }

    ghost means = { λ s. means_by (plain_program s.program.now) s.graph.now (lists_of s.thresholds.now) };
}
