//! The layer of a program and its graph.
ghost use Rattle.std.specs.Prelude.{◌≡◌, ◌≤◌, Some, length, IfOk};
ghost use Rattle.std.specs.List.{All};
ghost use Rattle.cob_program.specs.ActView.{plain_program};
ghost use Rattle.graph_runs.specs.Sources.{IsSourceGraph};
ghost use Rattle.interval_domain.specs.Elements.{AreThresholds};
ghost use Rattle.interval_domain.specs.Rows.{lists_of};
ghost use Rattle.cell_steps.specs.OwnRanges.{owns};
ghost use Rattle.cell_laws.specs.Entry.{entry_cells};
ghost use Rattle.cell_laws.specs.Layer.{row_for};
ghost use Rattle.cell_layer.specs.Heads.{heads_of};
ghost use Rattle.cell_layer.specs.Held.{IsHeld};
ghost use Rattle.cob_graph.specs.Limits.{most_cells, most_nodes};

use crate::layer::entry::entry_row;
use crate::layer::heads::heads_of;
use crate::layer::works::EdgeWorks;
use cob_graph::Graph;
use cob_program::Program;
use std::alloc::{AllocError, Global};

/// What is known of a program's cells along its graph, with a list of thresholds for each cell.
#[derive(Drop)]
pub struct CellLayer<'a> {
    pub program: &'a Program,
    pub graph: &'a Graph,
    pub thresholds: &'a [Vec<i64>],
    pub(crate) works: EdgeWorks<'a>,
    // whether an edge goes back to a node, for each node
    pub(crate) heads: Vec<bool>,
    pub(crate) entry: Vec<i128>,
    ghost held: { ∥ IsHeld (plain_program program.now) graph.now works ∥₁ },
    ghost ends: { ∥ AreThresholds (owns (plain_program program.now)) (lists_of thresholds.now) ∥₁ },
    ghost marked: { heads.items ≡ heads_of (length graph.now.nodes) graph.now.edges },
    ghost begun: { entry.items ≡ row_for (plain_program program.now) (Some (entry_cells (plain_program program.now))) },
    ghost owned: { length (owns (plain_program program.now)) ≡ length thresholds.now },
    ghost cells: { length thresholds.now ≤ most_cells },
    ghost nodes: { length graph.now.nodes ≤ most_nodes },
    ghost edges: { length graph.now.edges ≤ 12288 },
    ghost lists: { All (λ list. length list.items ≤ 128) thresholds.now },
}

impl<'a> CellLayer<'a> {
    /// The layer over a program's graph. Each cell has a list of thresholds, with the ends of its own range; the lists of
    /// a layer that widens are sorted.
    pub fn new(
        alloc: Global,
        program: &'a Program,
        graph: &'a Graph,
        thresholds: &'a [Vec<i64>],
    ) -> Result<CellLayer<'a>, AllocError>
        requires source { ∥ IsSourceGraph (plain_program program.now) graph.now ∥₁ }
        requires cells { length graph.now.cells ≤ most_cells }
        requires nodes { length graph.now.nodes ≤ most_nodes }
        requires ends { AreThresholds (owns (plain_program program.now)) (lists_of thresholds.now) }
        requires lists { All (λ list. length list.items ≤ 128) thresholds.now }
        ensures program { IfOk result (λ layer. layer.program.now ≡ program.now) }
        ensures graph { IfOk result (λ layer. layer.graph.now ≡ graph.now) }
        ensures thresholds { IfOk result (λ layer. layer.thresholds.now ≡ thresholds.now) }
    {
        let works = EdgeWorks::new(alloc, program, graph)?;
        let heads = heads_of(alloc, graph.nodes.get().len() as u32, graph.edges.get())?;
        let entry = entry_row(alloc, program, graph.cells.get())?;
        Ok(CellLayer {
            program,
            graph,
            thresholds,
            works,
            heads,
            entry,
        })
    }
}
