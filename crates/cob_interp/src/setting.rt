//! A program that is run, with its plan and the paths of its files.
ghost use Rattle.std.specs.Prelude.{◌≡◌, ◌==◌, ◌<◌, ◌≤◌, ℕ, false, Some, None, IfSome, length};
ghost use Rattle.cob_graph.specs.declared.graph.Node.{Node};
ghost use Rattle.cob_graph.specs.Lookup.{node_at, final_in};
ghost use Rattle.cob_plan.specs.Stepping.{rests};
ghost use Rattle.cob_interp.specs.Setting.{IsReady, IsPlace, FitsPlace};
ghost use Rattle.cob_interp.specs.Readying.{IsDeclared, IsPath, IsSize};

use cob_graph::Graph;
use cob_plan::{Plan, PlanNode, Statement};
use cob_program::Program;

/// A program, its graph, what is done at each node, and the path of each file in the order of their SELECT entries.
#[derive(Drop)]
pub struct Setting<'a> {
    pub program: &'a Program,
    pub graph: &'a Graph,
    pub plan: Plan<'a>,
    pub paths: &'a [String],
}

/// A node with its statement.
#[derive(Drop)]
pub struct Standing<'a, 'b> {
    pub plan_node: &'a PlanNode,
    pub statement: &'a Statement<'b>,
}

impl<'b> Setting<'b> {
    /// Whether a node is the last one.
    pub fn is_final(&self, node: u32) -> bool
        ensures { result ≡ (node == final_in self.now.graph.now) }
    {
        node as usize == self.graph.nodes.get().len()
    }

    /// Whether no step goes on at a node: one begins there, or the run has ended, or there is no such node.
    pub fn rests_at(&self, node: u32) -> bool
        requires { IsReady self.now }
        ensures same { result ≡ rests self.now.plan.nodes.items node }
        ensures graph { result ≡ false → (x : Node) → node_at self.now.graph.now.nodes node ≡ Some x → x.starts ≡ false }
    {
        match self.plan.node(node) {
            None => true,
            Some(plan_node) => plan_node.starts || node as usize == self.plan.nodes.len(),
        }
    }

    /// A node that isn't the last one, with its statement.
    pub fn place(&self, node: u32) -> Standing<'_, 'b>
        requires ready { IsReady self.now }
        requires above { 1 ≤ node }
        requires below { node < length self.now.plan.nodes.items }
        ensures is { IsPlace self.now node result }
        ensures fits { FitsPlace self.now node result }
    {
        match self.plan.node(node) {
            None => unreachable!(),
            Some(plan_node) => match self.plan.statement(plan_node.statement) {
                None => unreachable!(),
                Some(statement) => Standing {
                    plan_node,
                    statement,
                },
            },
        }
    }

    /// How many bytes a record of the file at a place has.
    pub fn size(&self, place: usize) -> Option<u32>
        ensures some { IfSome result (λ size. IsSize self.now place size) }
        ensures none { result ≡ None → IsDeclared self.now place → ⊥ }
    {
        match self.program.layout.files.get().get(place) {
            None => None,
            Some(decl) => Some(decl.length),
        }
    }

    /// How many bytes a record of the file at a place has, which is declared.
    pub fn size_at(&self, place: usize) -> u32
        requires { IsDeclared self.now place }
        ensures { IsSize self.now place result }
    {
        match self.size(place) {
            Some(size) => size,
            None => unreachable!(),
        }
    }

    /// The path of the file at a place, which is declared.
    pub fn path(&self, place: usize) -> &str
        requires ready { IsReady self.now }
        requires declared { IsDeclared self.now place }
        ensures { IsPath self.now place result.now }
    {
        match self.paths.get(place) {
            Some(path) => path.as_str(),
            None => unreachable!(),
        }
    }
}
