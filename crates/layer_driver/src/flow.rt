//! What an edge of a system makes of a row.
ghost use Rattle.std.specs.Prelude.{◌≡◌, ◌<◌, length};
ghost use Rattle.dom_laws.specs.Lattice.{IsElement};
ghost use Rattle.dom_laws.specs.Flow.{IsEdge};

use dom_laws::{Steps, System};
use std::marker::Brand;
use std::sync::ledger::{Blank, Ledger};

// The post with a counter of its own, which nobody reads.
fn post_counted<S: System, L: Ledger>(
    system: &S,
    edge: u32,
    from: &[i128],
    out: &mut [i128],
    turns: u32,
    blank: Blank,
)
    requires name { blank.name ≡ L.name }
    requires parts { blank.parts ≡ L.parts }
    requires some { 0 < L.parts }
    requires edge { IsEdge (S.flow system.now) edge }
    requires from { IsElement (S.lattice system.now) from.now }
    requires out { length out.old ≡ (S.lattice system.now).width }
{
    let mut steps = Steps::<L>::open(blank);
    for _ in 0..turns {
        system.post(edge, from, out, &mut steps);
    }
}

/// Makes what the edge makes of the row at its source, so often.
pub fn post<S: System>(system: &S, edge: u32, from: &[i128], out: &mut [i128], turns: u32)
    requires edge { IsEdge (S.flow system.now) edge }
    requires from { IsElement (S.lattice system.now) from.now }
    requires out { length out.old ≡ (S.lattice system.now).width }
{
    post_counted::<S, Brand>(system, edge, from, out, turns, Blank::new(1));
}
