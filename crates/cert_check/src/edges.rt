//! Where edges of a system lead, and what comes along them.
ghost use Rattle.std.specs.Prelude.{◌≡◌, ◌≤◌, ◌<◌, length};
ghost use Rattle.dom_laws.specs.Lattice.{IsElement};
ghost use Rattle.dom_laws.specs.Flow.{IsNode};
ghost use Rattle.dom_laws.specs.Leaks.{HasElements};
ghost use Rattle.cert_check.specs.Along.{arrives, led_to};

use dom_laws::{Rows, Steps, System};
use std::marker::Brand;
use std::sync::ledger::{Blank, Ledger};

/// Where an edge leads. Edge 0 is the entry.
pub(crate) fn led_to<S: System>(system: &S, edge: u32) -> u32
    requires { edge ≤ (S.flow system.now).edges }
    ensures value { result ≡ led_to (S.flow system.now) edge }
    ensures node { IsNode (S.flow system.now) result }
{
    if edge == 0 { 1 } else { system.target(edge) }
}

// Arrives with a counter of its own, which nobody reads.
fn arrive_counted<S: System, R: Rows, L: Ledger>(
    system: &S,
    rows: &R,
    edge: u32,
    out: &mut [i128],
    blank: Blank,
)
    requires name { blank.name ≡ L.name }
    requires parts { blank.parts ≡ L.parts }
    requires some { 0 < L.parts }
    requires edge { edge ≤ (S.flow system.now).edges }
    requires count { (S.flow system.now).nodes ≤ R.count rows.now }
    requires rows { HasElements (S.lattice system.now) (S.flow system.now) (R.row_at rows.now) }
    requires out { length out.old ≡ (S.lattice system.now).width }
    ensures row { out.new ≡ arrives (S.flow system.now) (R.row_at rows.now) edge }
    ensures element { IsElement (S.lattice system.now) out.new }
{
    if edge == 0 {
        system.entry(out);
        return;
    }
    let mut steps = Steps::<L>::open(blank);
    system.post(edge, rows.row(system.source(edge)), out, &mut steps);
}

/// Makes what comes along an edge. Edge 0 is the entry.
pub(crate) fn arrive<S: System, R: Rows>(system: &S, rows: &R, edge: u32, out: &mut [i128])
    requires edge { edge ≤ (S.flow system.now).edges }
    requires count { (S.flow system.now).nodes ≤ R.count rows.now }
    requires rows { HasElements (S.lattice system.now) (S.flow system.now) (R.row_at rows.now) }
    requires out { length out.old ≡ (S.lattice system.now).width }
    ensures row { out.new ≡ arrives (S.flow system.now) (R.row_at rows.now) edge }
    ensures element { IsElement (S.lattice system.now) out.new }
{
    arrive_counted::<S, R, Brand>(system, rows, edge, out, Blank::new(1))
}
