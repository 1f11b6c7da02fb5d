//! The layer of a program, its graph and packs of its cells.
ghost use Rattle.std.specs.Prelude.{◌≡◌, ◌≤◌, ℕ, length, IfOk};
ghost use Rattle.std.specs.List.{AllByRecursion};
ghost use Rattle.cob_program.specs.ActView.{plain_program};
ghost use Rattle.graph_runs.specs.Sources.{IsSourceGraph};
ghost use Rattle.cell_laws.specs.Entry.{entry_cells};
ghost use Rattle.cell_layer.specs.Heads.{heads_of};
ghost use Rattle.cell_layer.specs.Held.{IsHeld};
ghost use Rattle.diff_bounds.specs.Widening.{AreThresholds};
ghost use Rattle.diff_steps.specs.Edges.{entry_packs};
ghost use Rattle.diff_bounds.specs.PackRows.{row_of, lists_of};
ghost use Rattle.diff_layer.specs.Plans.{plain_plans};
ghost use Rattle.pack_laws.specs.Layer.{AreFacts, sizes_of};
ghost use Rattle.pack_laws.specs.Packs.{packs_of, ArePacksOfCells};
ghost use Rattle.diff_layer.specs.Planning.{HaveUnits};
ghost use Rattle.cob_graph.specs.Limits.{most_cells, most_nodes};

use crate::layer::entry::entry_words;
use crate::layer::planning::{plans_of, sizes_of};
use crate::pack::plans::PackPlan;
use cell_layer::{EdgeWorks, heads_of};
use cob_graph::Graph;
use cob_program::Program;
use diff_bounds::Pack;
use dom_laws::Rows;
use std::alloc::{AllocError, Global};

/// What is known of differences of a program's cells along its graph, in packs, each with a list of thresholds, beside the
/// first layer's row of each node.
#[derive(Drop)]
pub struct DiffLayer<'a, R: Rows> {
    pub program: &'a Program,
    pub graph: &'a Graph,
    pub packs: &'a [Pack],
    pub thresholds: &'a [Vec<i128>],
    pub facts: &'a R,
    pub(crate) works: EdgeWorks<'a>,
    // each pack's cells, and how many it has
    pub(crate) plans: Vec<PackPlan>,
    pub(crate) sizes: Vec<usize>,
    // whether an edge goes back to a node, for each node
    pub(crate) heads: Vec<bool>,
    pub(crate) entry: Vec<i128>,
    ghost held: { ∥ IsHeld (plain_program program.now) graph.now works ∥₁ },
    ghost cells: { ∥ ArePacksOfCells (length graph.now.cells) packs.now ∥₁ },
    ghost ends: { ∥ AllByRecursion AreThresholds (lists_of thresholds.now) ∥₁ },
    ghost lists: { ∥ AllByRecursion (λ list. length list.items ≤ 2048) thresholds.now ∥₁ },
    ghost listed: { length thresholds.now ≡ length packs.now },
    ghost known: { ∥ AreFacts (plain_program program.now) graph.now (R.row_at facts.now) ∥₁ },
    ghost counted: { R.count facts.now ≡ length graph.now.nodes },
    ghost planned: { plain_plans plans.items ≡ packs_of (plain_program program.now) packs.now },
    ghost units: { ∥ HaveUnits (plain_program program.now).layout plans.items ∥₁ },
    ghost sized: { sizes.items ≡ sizes_of (packs_of (plain_program program.now) packs.now) },
    ghost marked: { heads.items ≡ heads_of (length graph.now.nodes) graph.now.edges },
    ghost begun: { entry.items ≡ row_of (entry_packs (plain_program program.now)
        (packs_of (plain_program program.now) packs.now)
        (entry_cells (plain_program program.now))) },
    ghost few: { length packs.now ≤ 32 },
    ghost words: { length graph.now.cells ≤ most_cells },
    ghost nodes: { length graph.now.nodes ≤ most_nodes },
    ghost edges: { length graph.now.edges ≤ 12288 },
}

impl<'a, R: Rows> DiffLayer<'a, R> {
    /// The layer over a program's graph, beside rows of the first layer for its nodes. Each pack has at most 8 cells, by
    /// their numbers from 1 in rising order, and a list of thresholds.
    pub fn new(
        alloc: Global,
        program: &'a Program,
        graph: &'a Graph,
        packs: &'a [Pack],
        thresholds: &'a [Vec<i128>],
        facts: &'a R,
    ) -> Result<DiffLayer<'a, R>, AllocError>
        requires source { ∥ IsSourceGraph (plain_program program.now) graph.now ∥₁ }
        requires cells { length graph.now.cells ≤ most_cells }
        requires nodes { length graph.now.nodes ≤ most_nodes }
        requires few { length packs.now ≤ 32 }
        requires packs { ArePacksOfCells (length graph.now.cells) packs.now }
        requires listed { length thresholds.now ≡ length packs.now }
        requires ends { AllByRecursion AreThresholds (lists_of thresholds.now) }
        requires lists { AllByRecursion (λ list. length list.items ≤ 2048) thresholds.now }
        requires count { R.count facts.now ≡ length graph.now.nodes }
        requires facts { AreFacts (plain_program program.now) graph.now (R.row_at facts.now) }
        ensures program { IfOk result (λ layer. layer.program.now ≡ program.now) }
        ensures graph { IfOk result (λ layer. layer.graph.now ≡ graph.now) }
        ensures packs { IfOk result (λ layer. layer.packs.now ≡ packs.now) }
        ensures thresholds { IfOk result (λ layer. layer.thresholds.now ≡ thresholds.now) }
        ensures facts { IfOk result (λ layer. layer.facts.now ≡ facts.now) }
    {
        let works = EdgeWorks::new(alloc, program, graph)?;
        let statements = program.statements(alloc)?;
        let plans = plans_of(alloc, program, statements.as_slice(), packs)?;
        let sizes = sizes_of(alloc, packs)?;
        let heads = heads_of(alloc, graph.nodes.get().len() as u32, graph.edges.get())?;
        let entry = entry_words(
            alloc,
            program,
            graph.cells.get(),
            plans.as_slice(),
            sizes.as_slice(),
            thresholds,
        )?;
        Ok(DiffLayer {
            program,
            graph,
            packs,
            thresholds,
            facts,
            works,
            plans,
            sizes,
            heads,
            entry,
        })
    }
}
