//! Which nodes an edge goes back to.
ghost use Rattle.std.specs.Prelude.{◌≡◌, ◌≤◌, ◌-◌, true, length, slice_set, nat_le, if◌then◌else◌, [], IfOk};
ghost use Rattle.std.specs.List.{All};
ghost use Rattle.cell_layer.specs.Heads.{heads_of};

use cob_graph::Edge;
use std::alloc::{AllocError, Global};

// marks the target of an edge that goes back
fn mark(heads: &mut [bool], edge: Edge)
    requires first { 1 ≤ edge.to }
    requires last { edge.to ≤ length heads.old }
    ensures { heads.new ≡ (if nat_le edge.to edge.from then slice_set heads.old (edge.to - 1) true else heads.old) }
{
    if edge.to <= edge.from {
        heads[edge.to as usize - 1] = true;
    }
}

// marks the targets of all edges that go back
fn mark_all(heads: &mut [bool], edges: &[Edge])
    requires none { heads.old ≡ heads_of (length heads.old) [] }
    requires first { All (λ x. 1 ≤ x.to) edges.now }
    requires last { All (λ x. x.to ≤ length heads.old) edges.now }
    ensures { heads.new ≡ heads_of (length heads.old) edges.now }
{
    for edge in edges {
        mark(heads, *edge);
    }
}

/// Whether an edge goes back to a node, for each node in turn.
#[tactic(auto, using(crate::proofs::Marks::none_marked))]
pub fn heads_of(alloc: Global, nodes: u32, edges: &[Edge]) -> Result<Vec<bool>, AllocError>
    requires first { All (λ x. 1 ≤ x.to) edges.now }
    requires last { All (λ x. x.to ≤ nodes) edges.now }
    ensures { IfOk result (λ heads. heads.items ≡ heads_of nodes edges.now) }
{
    let mut heads = vec![in alloc; false; nodes as usize]?;
    mark_all(heads.as_mut_slice(), edges);
    Ok(heads)
}
