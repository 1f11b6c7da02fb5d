//! Rows of matrices as what is known of storages, and the faults that they clear.
ghost use Rattle.std.specs.Prelude.{◌≡◌, ◌≤◌, ◌+◌, ◌*◌, length};
ghost use Rattle.std.specs.List.{list_all};
ghost use Rattle.cob_tree.specs.Kinds.{kinds_of};
ghost use Rattle.cob_program.specs.ActView.{plain_program};
ghost use Rattle.interval_domain.specs.Elements.{CellsFit};
ghost use Rattle.interval_domain.specs.Rows.{IsReached};
ghost use Rattle.cell_steps.specs.OwnRanges.{owns};
ghost use Rattle.diff_bounds.specs.PackRows.{lists_of};
ghost use Rattle.diff_layer.specs.GraphWorks as graph;
ghost use Rattle.diff_layer.specs.GraphWorks.{program_of, graph_of, matrices_of, cells_at, lent_words};
ghost use Rattle.diff_layer.specs.Plans.{IsRowFor};
ghost use Rattle.pack_laws.specs.Layer.{leaves_clear2, diff_lattice, diff_meaning};
ghost use Rattle.pack_laws.specs.Packs.{packs_of};
ghost use Rattle.diff_layer.specs.LayerLaws.{means_by};

use crate::layer::diff_layer::DiffLayer;
use crate::layer::edges::edge_cleared;
use crate::layer::graph::{NodeRows, PackWorks};
use cell_layer::{edge_at, edges_before, leaves};
use cob_tree::{Kind, Kinds};
use dom_laws::{Domain, Layer, Rows};
use interval_domain::is_reached;

// The kinds of faults that each edge clears that leaves a node. What the lent row holds is lost: it has room for two
// rows of cells and one of matrices.
fn node_cleared(edges: &PackWorks, node: u32, rows: &NodeRows, lent: &mut [i128]) -> Kinds
    requires reached { IsReached rows.now.cells.now }
    requires fits { CellsFit (owns (program_of edges.now)) (cells_at rows.now) }
    requires lent { length lent.old ≡ lent_words (length rows.now.cells.now) (length rows.now.matrices.now) }
    requires matrices { IsRowFor edges.now.plans.now rows.now.matrices.now }
    ensures { result ≡ kinds_of (λ fault. list_all (leaves_clear2 (program_of edges.now) (graph_of edges.now)
        (graph.packs_of edges.now)
        node fault (cells_at rows.now) (matrices_of edges.now rows.now.matrices.now)) (graph_of edges.now).edges) }
{
    let (row, rest) = lent.split_at_mut(rows.cells.len());
    let (before, out) = rest.split_at_mut(rows.cells.len());
    let all = edges.works.graph.edges.get();
    let first = edges_before(all, node);
    let mut cleared = Kinds::all();
    for at in first..all.len() {
        if !leaves(edge_at(all, at), node) {
            return cleared;
        }
        cleared = cleared.both(edge_cleared(edges, at, rows, row, before, out));
    }
    cleared
}

impl<'a, R: Rows> DiffLayer<'a, R> {
    // how many words are lent where it is asked what a node clears
    fn lent(&self) -> usize
        ensures value { result ≡ lent_words (2 * length self.now.graph.now.cells + 1)
            (diff_lattice (packs_of (plain_program self.now.program.now) self.now.packs.now)
            (lists_of self.now.thresholds.now)).width }
        ensures few { result ≤ 4642 }
    {
        let cells = 2 * self.graph.cells.get().len() + 1;
        2 * cells + self.words()
    }
}

impl<'a, R: Rows> Layer for DiffLayer<'a, R> {
    ghost meaning = { λ s. diff_meaning (plain_program s.program.now) s.graph.now
        (packs_of (plain_program s.program.now) s.packs.now)
        (R.row_at s.facts.now) };

    ghost lent_width = { λ s. lent_words (2 * length s.graph.now.cells + 1)
        (diff_lattice (packs_of (plain_program s.program.now) s.packs.now) (lists_of s.thresholds.now)).width };

    fn lent_words(&self) -> usize {
        self.lent()
    }

    fn cleared(&self, node: u32, row: &[i128], lent: &mut [i128]) -> Kinds {
        let fact = self.facts.row(node);
        if !is_reached(fact) {
            return Kinds::all();
        }
        let edges = PackWorks {
            works: &self.works,
            plans: self.plans.as_slice(),
        };
        let rows = NodeRows {
            cells: fact,
            matrices: row,
        };
        node_cleared(&edges, node, &rows, lent)
    }

    fn clears(&self, node: u32, row: &[i128], kind: Kind) -> bool {
        let mut words = [0; 4642];
        let lent = &mut words[..self.lent()];
        self.cleared(node, row, lent).has(kind)
    }

    ghost means = { λ s. means_by (plain_program s.program.now) s.graph.now s.works s.held s.packs.now s.cells
        s.thresholds.now s.listed (R.row_at s.facts.now) s.known };
}
