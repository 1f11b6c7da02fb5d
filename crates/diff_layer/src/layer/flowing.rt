//! The graph of a program as a system over rows of matrices.
ghost use Rattle.cob_program.specs.ActView.{plain_program};
ghost use Rattle.diff_bounds.specs.PackRows.{lists_of};
ghost use Rattle.pack_laws.specs.Layer.{diff_flow};
ghost use Rattle.pack_laws.specs.Packs.{packs_of};
ghost use Rattle.diff_layer.specs.LayerLaws.{flows_by};

use crate::layer::diff_layer::DiffLayer;
use crate::layer::edges::passes_edge;
use crate::layer::graph::PackWorks;
use cell_layer::{edge_with, is_marked};
use diff_bounds::set_least;
use dom_laws::{Rows, Steps, System};
use std::sync::ledger::Ledger;

impl<'a, R: Rows> System for DiffLayer<'a, R> {
    ghost flow = { λ s. diff_flow (plain_program s.program.now) s.graph.now
        (packs_of (plain_program s.program.now) s.packs.now)
        (R.row_at s.facts.now) };

    fn nodes(&self) -> u32 {
        self.graph.nodes.get().len() as u32
    }

    fn edges(&self) -> u32 {
        self.graph.edges.get().len() as u32
    }

    fn source(&self, edge: u32) -> u32 {
        edge_with(self.graph.edges.get(), edge).from
    }

    fn target(&self, edge: u32) -> u32 {
        edge_with(self.graph.edges.get(), edge).to
    }

    fn is_head(&self, node: u32) -> bool {
        is_marked(self.heads.as_slice(), node)
    }

    fn entry(&self, out: &mut [i128]) {
        out.copy_from_slice(self.entry.as_slice());
    }

    fn post<L: Ledger>(&self, edge: u32, from: &[i128], out: &mut [i128], steps: &mut Steps<L>) {
        steps.tick();
        out.copy_from_slice(from);
        let source = edge_with(self.graph.edges.get(), edge).from;
        let edges = PackWorks {
            works: &self.works,
            plans: self.plans.as_slice(),
        };
        let passes = passes_edge(&edges, edge as usize - 1, self.facts.row(source), out);
        if !passes {
            set_least(self.sizes.as_slice(), self.thresholds, out);
        }
    }

    ghost flows = { λ s. flows_by (plain_program s.program.now) s.graph.now s.works s.held s.packs.now s.cells
        s.thresholds.now s.listed (R.row_at s.facts.now) s.known };
}
