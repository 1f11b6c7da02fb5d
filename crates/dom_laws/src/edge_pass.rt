//! The pass over the edges.
ghost use Rattle.std.specs.Prelude.{◌≡◌, ℕ, ◌+◌, ◌<◌, ◌≤◌, ◌↔◌, length, IsTrue, IsNone, IfSome};
ghost use Rattle.dom_laws.specs.Lattice.{IsElement};
ghost use Rattle.dom_laws.specs.Flow.{IsNode, IsEdge, IsInductive};
ghost use Rattle.dom_laws.specs.Leaks.{HasElements, Keeps, IsFirstLeak};

use crate::counter::Steps;
use crate::traits::{Domain, Rows, System};
use std::marker::Brand;
use std::sync::ledger::{Blank, Ledger};

// whether the edge keeps the rows
fn keeps_edge<S: System, R: Rows, L: Ledger>(
    system: &S,
    rows: &R,
    edge: u32,
    out: &mut [i128],
    steps: &mut Steps<L>,
) -> bool
    requires edge { IsEdge (S.flow system.now) edge }
    requires count { (S.flow system.now).nodes ≤ R.count rows.now }
    requires rows { HasElements (S.lattice system.now) (S.flow system.now) (R.row_at rows.now) }
    requires out { length out.old ≡ (S.lattice system.now).width }
    ensures kept { IsTrue result
        ↔ Keeps (S.lattice system.now) (S.flow system.now) (R.row_at rows.now) edge }
    ensures out { length out.new ≡ (S.lattice system.now).width }
{
    system.post(edge, rows.row(system.source(edge)), out, steps);
    system.leq(out, rows.row(system.target(edge)))
}

// whether the entry keeps the rows
fn keeps_entry<S: System, R: Rows>(system: &S, rows: &R, out: &mut [i128]) -> bool
    requires count { (S.flow system.now).nodes ≤ R.count rows.now }
    requires rows { HasElements (S.lattice system.now) (S.flow system.now) (R.row_at rows.now) }
    requires out { length out.old ≡ (S.lattice system.now).width }
    ensures kept { IsTrue result
        ↔ Keeps (S.lattice system.now) (S.flow system.now) (R.row_at rows.now) 0 }
    ensures out { length out.new ≡ (S.lattice system.now).width }
{
    system.entry(out);
    system.leq(out, rows.row(1))
}

// the pass with a counter of its own, which nobody reads
fn pass_counted<S: System, R: Rows, L: Ledger>(
    system: &S,
    rows: &R,
    out: &mut [i128],
    blank: Blank,
) -> Option<u32>
    requires name { blank.name ≡ L.name }
    requires parts { blank.parts ≡ L.parts }
    requires some { 0 < L.parts }
    requires count { (S.flow system.now).nodes ≤ R.count rows.now }
    requires rows { HasElements (S.lattice system.now) (S.flow system.now) (R.row_at rows.now) }
    requires out { length out.old ≡ (S.lattice system.now).width }
    ensures none { IsNone result
        ↔ IsInductive (S.lattice system.now) (S.flow system.now) (R.row_at rows.now) }
    ensures first { IfSome result
        (IsFirstLeak (S.lattice system.now) (S.flow system.now) (R.row_at rows.now)) }
{
    let mut steps = Steps::<L>::open(blank);
    if !keeps_entry(system, rows, out) {
        return Some(0);
    }
    for index in 0..system.edges() {
        if !keeps_edge(system, rows, index + 1, out, &mut steps) {
            return Some(index + 1);
        }
    }
    None
}

/// Whether the rows are inductive: None exactly where they are. Otherwise it is 0 where the entry
/// doesn't keep node 1's row, and else the first edge that doesn't keep the rows. Takes no memory:
/// an edge's result is put into `out`, whatever that holds.
pub fn pass<S: System, R: Rows>(system: &S, rows: &R, out: &mut [i128]) -> Option<u32>
    requires count { (S.flow system.now).nodes ≤ R.count rows.now }
    requires rows { HasElements (S.lattice system.now) (S.flow system.now) (R.row_at rows.now) }
    requires out { length out.old ≡ (S.lattice system.now).width }
    ensures none { IsNone result
        ↔ IsInductive (S.lattice system.now) (S.flow system.now) (R.row_at rows.now) }
    ensures first { IfSome result
        (IsFirstLeak (S.lattice system.now) (S.flow system.now) (R.row_at rows.now)) }
{
    pass_counted::<S, R, Brand>(system, rows, out, Blank::new(1))
}
