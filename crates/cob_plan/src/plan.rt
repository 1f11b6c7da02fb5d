//! A program and its graph as the interpreter walks them.
ghost use Rattle.std.specs.Prelude.{◌≡◌, true, slice_get, is_some, Contains, IfSome, IfOk};
ghost use Rattle.std.specs.List.{All};
ghost use Rattle.std.specs.Option.{option_copied};
ghost use Rattle.cob_program.specs.Act as act;
ghost use Rattle.cob_program.specs.ActView.{plain_program};
ghost use Rattle.cob_graph.specs.declared.graph.Graph as declared_graph;
ghost use Rattle.cob_graph.specs.Graphs.{IsGraph};
ghost use Rattle.cob_graph.specs.WellFormed.{IsWellFormed};
ghost use Rattle.cob_world.specs.Doing.{CanDoProgram};
ghost use Rattle.cob_plan.specs.Plan.{ArePlanNodes, IsPlanNode, IsStatement};
ghost use Rattle.cob_graph.specs.Lookup.{node_at};
ghost use Rattle.cob_plan.specs.Stepping.{IsListed, HasSteps};
ghost use Rattle.cob_plan.specs.Listing.{plain_statements, listed};

use crate::listing::statements_of;
use crate::node::PlanNode;
use crate::nodes::nodes_of;
use crate::statement::Statement;
use cob_graph::Graph;
use cob_program::Program;
use std::alloc::{AllocError, Global};

/// What is done at each node of a program's graph, and the statements, each before those of its own lists.
#[derive(Drop)]
pub struct Plan<'a> {
    pub nodes: Vec<PlanNode>,
    pub statements: Vec<Statement<'a>>,
}

fn node_at_place(nodes: &[PlanNode], place: usize) -> Option<&PlanNode>
    ensures { option_copied result ≡ slice_get nodes.now place }
{
    nodes.get(place)
}

// The statement with a number, wherever it stands.
fn statement_among<'a, 'b>(
    statements: &'a [Statement<'b>],
    number: u32,
) -> Option<&'a Statement<'b>>
    ensures found { IfSome result (λ s. s.now.number ≡ number) }
    ensures among { IfSome result (λ s. Contains statements.now s.now) }
    ensures listed { IsListed statements.now number → is_some result ≡ true }
{
    for place in 0..statements.len() {
        if statements[place].number == number {
            return Some(&statements[place]);
        }
    }
    None
}

impl<'a> Plan<'a> {
    /// The plan of a program and its graph.
    pub fn of(alloc: Global, program: &'a Program, graph: &Graph) -> Result<Plan<'a>, AllocError>
        requires graph { IsGraph (plain_program program.now) graph.now }
        requires whole { IsWellFormed (plain_program program.now) }
        requires able { CanDoProgram (plain_program program.now) }
        ensures nodes { IfOk result (λ plan. ArePlanNodes graph.now plan.nodes.items) }
        ensures statements { IfOk result (λ plan. All (IsStatement (plain_program program.now))
            plan.statements.items) }
        ensures steps { IfOk result (λ plan. HasSteps (plain_program program.now) plan.nodes.items
            plan.statements.items) }
        ensures listed { IfOk result (λ plan. plain_statements plan.statements.items
            ≡ listed (plain_program program.now)) }
    {
        let nodes = nodes_of(alloc, graph)?;
        let statements = statements_of(alloc, program)?;
        Ok(Plan { nodes, statements })
    }

    /// The node with a number, which counts from 1.
    pub fn node(&self, number: u32) -> Option<&PlanNode>
        ensures is { (g : declared_graph.Graph) → ArePlanNodes g self.now.nodes.items
            → IfSome result (λ s. IsPlanNode g number s.now) }
        ensures at { option_copied result ≡ node_at self.now.nodes.items number }
    {
        if number == 0 {
            return None;
        }
        node_at_place(&self.nodes, number as usize - 1)
    }

    /// The statement with a number: the one at that place, as a source has it, or wherever it stands.
    pub fn statement(&self, number: u32) -> Option<&Statement<'a>>
        ensures found { IfSome result (λ s. s.now.number ≡ number) }
        ensures listed { IsListed self.now.statements.items number → is_some result ≡ true }
        ensures sound { (p : act.Program) → All (IsStatement p) self.now.statements.items
            → IfSome result (λ s. IsStatement p s.now) }
    {
        let statements = self.statements.as_slice();
        match statements.get((number as usize).saturating_sub(1)) {
            Some(statement) if statement.number == number => Some(statement),
            _ => statement_among(statements, number),
        }
    }
}
