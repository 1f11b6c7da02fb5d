//! The graph of a program as a system over rows of cells.
ghost use Rattle.std.specs.Prelude.{◌≡◌, ◌≤◌, ◌-◌, false, length, slice_index_or};
ghost use Rattle.cob_program.specs.ActView.{plain_program};
ghost use Rattle.graph_runs.specs.Places.{no_edge};
ghost use Rattle.cell_laws.specs.Layer.{cell_flow};
ghost use Rattle.interval_domain.specs.Rows.{lists_of};
ghost use Rattle.cell_layer.specs.LayerLaws.{flows_by};

use crate::layer::cell_layer::CellLayer;
use crate::layer::edges::post_edge;
use cob_graph::Edge;
use dom_laws::{Steps, System};
use interval_domain::is_reached;
use std::sync::ledger::Ledger;

/// The edge with a number, which counts from 1.
pub fn edge_with(edges: &[Edge], edge: u32) -> Edge
    requires first { 1 ≤ edge }
    requires last { edge ≤ length edges.now }
    ensures { result ≡ slice_index_or edges.now (edge - 1) no_edge }
{
    edges[edge as usize - 1]
}

/// Whether a node, which counts from 1, is marked.
pub fn is_marked(marks: &[bool], node: u32) -> bool
    requires first { 1 ≤ node }
    requires last { node ≤ length marks.now }
    ensures { result ≡ slice_index_or marks.now (node - 1) false }
{
    marks[node as usize - 1]
}

impl<'a> System for CellLayer<'a> {
    ghost flow = { λ s. cell_flow (plain_program s.program.now) s.graph.now };

    fn nodes(&self) -> u32 {
        self.graph.nodes.get().len() as u32
    }

    fn edges(&self) -> u32 {
        self.graph.edges.get().len() as u32
    }

    fn source(&self, edge: u32) -> u32 {
        edge_with(self.graph.edges.get(), edge).from
    }

    fn target(&self, edge: u32) -> u32 {
        edge_with(self.graph.edges.get(), edge).to
    }

    fn is_head(&self, node: u32) -> bool {
        is_marked(self.heads.as_slice(), node)
    }

    fn entry(&self, out: &mut [i128]) {
        out.copy_from_slice(self.entry.as_slice());
    }

    fn post<L: Ledger>(&self, edge: u32, from: &[i128], out: &mut [i128], steps: &mut Steps<L>) {
        steps.tick();
        out.copy_from_slice(from);
        if is_reached(out) {
            post_edge(&self.works, edge as usize - 1, out);
        }
    }

    ghost flows = { λ s. flows_by (plain_program s.program.now) s.graph.now s.works (lists_of s.thresholds.now) s.held };
}
