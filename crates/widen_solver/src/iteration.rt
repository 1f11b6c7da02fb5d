//! Takes the edges in the order of their sources, and goes back to a head that grew.
ghost use Rattle.std.specs.Prelude.{◌≡◌, ℕ, ◌+◌, ◌*◌, ◌<◌, ◌≤◌, length, Some, true, false};
ghost use Rattle.block_store.specs.BlocksLends.{words_at};
ghost use Rattle.dom_laws.specs.Lattice.{IsElement};
ghost use Rattle.dom_laws.specs.Flow.{IsNode, IsEdge};
ghost use Rattle.widen_solver.specs.Stored.{row_at};
ghost use Rattle.widen_solver.specs.RowsHeld.{shown_rows, with_transfer, IsReady, ArrivesAt};
ghost use Rattle.widen_solver.specs.Solving.{
  Arrives,
  IsUnderWay,
  IsSettled,
  TakesEdge,
  AreSettled,
  Advances,
  head_ranks,
};

use super::node_rows::NodeRows;
use dom_laws::{Domain, Steps, System};
use std::sync::ledger::Ledger;

/// Puts the entry at node 1 and the least row at each other node.
pub fn start<S: System>(system: &S, rows: &mut NodeRows)
    requires words { rows.old.words ≡ (S.lattice system.now).width }
    requires nodes { length rows.old.rows ≡ (S.flow system.now).nodes }
    ensures under_way { IsUnderWay (S.lattice system.now) (S.flow system.now) (shown_rows rows.new) }
    ensures words { rows.new.words ≡ rows.old.words }
    ensures transfer { rows.new.transfer ≡ rows.old.transfer }
{
    rows.set_bottom(system);
    for index in 0..system.nodes() {
        rows.release(index as usize);
    }
    rows.reach(0);
    system.entry(rows.row_mut(0));
}

// makes the edge's transfer out of the row at its source
fn post_edge<S: System, L: Ledger>(system: &S, edge: u32, rows: &mut NodeRows, steps: &mut Steps<L>)
    requires edge { IsEdge (S.flow system.now) edge }
    requires rows { IsUnderWay (S.lattice system.now) (S.flow system.now) (shown_rows rows.old) }
    requires ready { IsReady (S.lattice system.now) rows.old }
    ensures posted { let f = S.flow system.now in
        rows.new ≡ with_transfer rows.old
        (Some (f.post edge (row_at (shown_rows rows.old) (f.source edge)))) }
    ensures counted { steps.new ≡ steps.old + 1 }
{
    let from = system.source(edge);
    let (out, row) = rows.transfer_beside(from as usize - 1);
    system.post(edge, row, out, steps);
}

// takes in what comes to a node, and tells whether the row of a head grew
fn take_in<S: System>(system: &S, node: u32, row: &mut [i128], more: &[i128]) -> bool
    requires node { IsNode (S.flow system.now) node }
    requires row { IsElement (S.lattice system.now) row.old }
    requires more { IsElement (S.lattice system.now) more.now }
    ensures { Arrives (S.lattice system.now) (S.flow system.now) node row.old more.now row.new result }
{
    if system.is_head(node) {
        return system.widen(row, more);
    }
    system.join(row, more);
    false
}

// the transfer comes to a node
fn arrive<S: System>(system: &S, node: u32, rows: &mut NodeRows) -> bool
    requires node { IsNode (S.flow system.now) node }
    requires rows { IsUnderWay (S.lattice system.now) (S.flow system.now) (shown_rows rows.old) }
    requires ready { IsReady (S.lattice system.now) rows.old }
    requires more { IsElement (S.lattice system.now) (words_at rows.old.transfer) }
    ensures { ArrivesAt (S.lattice system.now) (S.flow system.now) node rows.old rows.new result }
{
    let index = node as usize - 1;
    rows.reach(index);
    let (row, more) = rows.row_beside_transfer(index);
    take_in(system, node, row, more)
}

// takes one edge, and tells whether it goes back and its head grew
fn take_edge<S: System, L: Ledger>(
    system: &S,
    edge: u32,
    rows: &mut NodeRows,
    steps: &mut Steps<L>,
) -> bool
    requires edge { IsEdge (S.flow system.now) edge }
    requires rows { IsUnderWay (S.lattice system.now) (S.flow system.now) (shown_rows rows.old) }
    requires ready { IsReady (S.lattice system.now) rows.old }
    ensures taken { TakesEdge (S.lattice system.now) (S.flow system.now) edge
        (shown_rows rows.old) (shown_rows rows.new) result }
    ensures ready { IsReady (S.lattice system.now) rows.new }
    ensures counted { steps.new ≡ steps.old + 1 }
{
    let from = system.source(edge);
    let to = system.target(edge);
    post_edge(system, edge, rows, steps);
    let grew = arrive(system, to, rows);
    grew && to <= from
}

// whether the last of the first edges has the node or a later one as its source
fn is_behind<S: System>(system: &S, count: u32, node: u32) -> bool
    requires { count ≤ (S.flow system.now).edges }
    ensures some { result ≡ true → 1 ≤ count }
    ensures last { result ≡ false → 1 ≤ count → (S.flow system.now).source count < node }
{
    count > 0 && system.source(count) >= node
}

// how many of the first edges have a source before the node
fn count_before<S: System>(system: &S, count: u32, node: u32) -> u32
    requires { count ≤ (S.flow system.now).edges }
    ensures within { result ≤ count }
    ensures before { (edge : ℕ) → IsEdge (S.flow system.now) edge → edge ≤ result
        → (S.flow system.now).source edge < node }
{
    let mut before = count;
    'back: while is_behind(system, before, node) {
        before -= 1;
    }
    before
}

// takes an edge behind settled ones, and tells how many edges are settled then
fn advance<S: System, L: Ledger>(
    system: &S,
    edge: u32,
    rows: &mut NodeRows,
    steps: &mut Steps<L>,
) -> u32
    requires edge { IsEdge (S.flow system.now) edge }
    requires rows { IsUnderWay (S.lattice system.now) (S.flow system.now) (shown_rows rows.old) }
    requires ready { IsReady (S.lattice system.now) rows.old }
    requires settled { AreSettled (S.lattice system.now) (S.flow system.now) (shown_rows rows.old) edge }
    ensures advances { Advances (S.lattice system.now) (S.flow system.now) edge
        (shown_rows rows.old) (shown_rows rows.new) (result + 1) }
    ensures ready { IsReady (S.lattice system.now) rows.new }
    ensures counted { steps.new ≡ steps.old + 1 }
{
    if take_edge(system, edge, rows, steps) {
        return count_before(system, edge - 1, system.target(edge));
    }
    edge
}

/// Takes edges until none adds anything: one behind the other, and from a head on again where it
/// grew by an edge that goes back.
pub fn settle<S: System, L: Ledger>(system: &S, rows: &mut NodeRows, steps: &mut Steps<L>)
    requires rows { IsUnderWay (S.lattice system.now) (S.flow system.now) (shown_rows rows.old) }
    requires ready { IsReady (S.lattice system.now) rows.old }
    ensures under_way { IsUnderWay (S.lattice system.now) (S.flow system.now) (shown_rows rows.new) }
    ensures settled { (edge : ℕ) → IsEdge (S.flow system.now) edge
        → IsSettled (S.lattice system.now) (S.flow system.now) (shown_rows rows.new) edge }
    ensures ready { IsReady (S.lattice system.now) rows.new }
    ensures at_least { steps.old + (S.flow system.now).edges ≤ steps.new }
    ensures at_most { let l = S.lattice system.now in let f = S.flow system.now in
        steps.new ≤ steps.old + f.edges * (head_ranks l f (shown_rows rows.old) + 1) }
{
    let edges = system.edges();
    let mut settled = 0;
    'edges: while settled < edges {
        settled = advance(system, settled + 1, rows, steps);
    }
}
