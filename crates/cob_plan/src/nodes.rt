//! What is done at the nodes of a graph, from the edges that leave them.
ghost use Rattle.std.specs.Prelude.{◌≡◌, ◌≤◌, ◌+◌, List, ◌∷◌, [], length, map, take, drop, Contains, IfOk};
ghost use Rattle.std.specs.List.{All};
ghost use Rattle.cob_graph.specs.Nodes.{Noded};
ghost use Rattle.cob_plan.specs.Plan.{op_edges, ArePlanNodes};
ghost use Rattle.cob_plan.specs.Nodes.{way, at_front, Leave, IsAlone, ArePair, AreThree, AreOfOne, IsLaidOut, AreNoded};

use crate::node::{Op, PlanNode};
use cob_graph::{Edge, Graph, Node};
use cob_runs::Action;
use std::alloc::{AllocError, Global};

// A node with one edge.
fn op_of_one(edge: Edge) -> Op
    requires { IsAlone edge.action }
    ensures { op_edges result ≡ way edge ∷ [] }
{
    let to = edge.to;
    match edge.action {
        Action::Skip => Op::Skip { to },
        Action::Assign => Op::Assign { to },
        Action::Show => Op::Show { to },
        Action::SetCount => Op::SetCount { to },
        Action::Down => Op::CountDown { to },
        Action::Done => Op::Compute {
            fine: to,
            size: None,
        },
        _ => unreachable!(),
    }
}

// A node with two edges.
fn op_of_two(first: Edge, second: Edge) -> Op
    requires { ArePair first.action second.action }
    ensures { op_edges result ≡ way first ∷ way second ∷ [] }
{
    match first.action {
        Action::Done => Op::Compute {
            fine: first.to,
            size: Some(second.to),
        },
        Action::True(test) => Op::Test {
            test,
            held: first.to,
            other: second.to,
        },
        Action::Open(file) => Op::Open {
            file,
            fine: first.to,
            bad: second.to,
        },
        Action::Close(file) => Op::Close {
            file,
            fine: first.to,
            bad: second.to,
        },
        Action::Write => Op::Write {
            fine: first.to,
            bad: second.to,
        },
        _ => unreachable!(),
    }
}

// A node with three edges, which are those of a READ.
fn op_of_three(first: Edge, second: Edge, third: Edge) -> Op
    requires { AreThree first.action second.action third.action }
    ensures { op_edges result ≡ way first ∷ way second ∷ way third ∷ [] }
{
    Op::Read {
        found: first.to,
        end: second.to,
        bad: third.to,
    }
}

/// What is done at a node that these edges leave.
fn op_of(edges: &[Edge]) -> Op
    requires { AreOfOne (map way edges.now) }
    ensures { op_edges result ≡ map way edges.now }
{
    match edges {
        [] => Op::Final,
        [edge] => op_of_one(*edge),
        [first, second] => op_of_two(*first, *second),
        [first, second, third] => op_of_three(*first, *second, *third),
        _ => unreachable!(),
    }
}

// How many edges leave a node, up to the first that doesn't.
fn leaving(edges: &[Edge], number: usize) -> usize
    ensures within { result ≤ length edges.now }
    ensures leave { Leave number (take result edges.now) }
    ensures all { result ≡ at_front number edges.now }
{
    for count in 0..edges.len() {
        if edges[count].from as usize != number {
            return count;
        }
    }
    edges.len()
}

// The edges from a place on that leave a node, up to the first that doesn't.
fn out_of(edges: &[Edge], place: usize, number: usize) -> &[Edge]
    requires { place ≤ length edges.now }
    ensures leave { Leave number result.now }
    ensures among { All (Contains edges.now) result.now }
    ensures within { place + length result.now ≤ length edges.now }
    ensures front { result.now ≡ take (at_front number (drop place edges.now)) (drop place edges.now) }
{
    let rest = &edges[place..];
    &rest[..leaving(rest, number)]
}

fn node_of(node: &Node, edges: &[Edge]) -> PlanNode
    requires { AreOfOne (map way edges.now) }
    ensures statement { result.statement ≡ node.now.statement }
    ensures starts { result.starts ≡ node.now.starts }
    ensures edges { op_edges result.op ≡ map way edges.now }
{
    PlanNode {
        statement: node.statement,
        starts: node.starts,
        op: op_of(edges),
    }
}

/// What is done at each node, in their order.
pub fn nodes_of(alloc: Global, graph: &Graph) -> Result<Vec<PlanNode>, AllocError>
    requires { (ns : List Noded) × IsLaidOut graph.now ns }
    ensures nodes { IfOk result (λ nodes. ArePlanNodes graph.now nodes.items) }
    ensures laid { (ns : List Noded) → IsLaidOut graph.now ns → IfOk result (λ nodes. AreNoded ns nodes.items) }
{
    let mut nodes = Vec::new(alloc);
    let edges = graph.edges.get();
    let mut place = 0;
    let mut number: usize = 0;
    for node in graph.nodes.get() {
        number += 1;
        let out = out_of(edges, place, number);
        nodes.push(node_of(node, out))?;
        place += out.len();
    }
    Ok(nodes)
}
