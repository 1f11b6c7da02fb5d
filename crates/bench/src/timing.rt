//! What is timed, over any system.
ghost use Rattle.std.specs.Prelude.{◌≡◌, ◌<◌, length};
ghost use Rattle.dom_laws.specs.Lattice.{IsElement};
ghost use Rattle.dom_laws.specs.Flow.{IsEdge};

use dom_laws::{Steps, System};
use std::io;
use std::sync::ledger::{Blank, Ledger};
use std::time::CpuClock;

fn post_often<S: System, L: Ledger>(
    system: &S,
    from: &[i128],
    out: &mut [i128],
    turns: u32,
    steps: &mut Steps<L>,
)
    requires edge { IsEdge (S.flow system.now) 1 }
    requires from { IsElement (S.lattice system.now) from.now }
    requires out { length out.old ≡ (S.lattice system.now).width }
{
    for _ in 0..turns {
        system.post(1, from, out, steps);
    }
}

// Copies there and back, half as often.
fn copy_often(from: &mut [i128], out: &mut [i128], turns: u32)
    requires { length from.old ≡ length out.old }
{
    for _ in 0..turns / 2 {
        out.copy_from_slice(from);
        from.copy_from_slice(out);
    }
}

fn time_posts<S: System, L: Ledger>(
    rt: &HostRuntime,
    system: &S,
    from: &[i128],
    out: &mut [i128],
    turns: u32,
    steps: &mut Steps<L>,
) -> io::Result<()>
    requires edge { IsEdge (S.flow system.now) 1 }
    requires from { IsElement (S.lattice system.now) from.now }
    requires out { length out.old ≡ (S.lattice system.now).width }
{
    let start = rt.process_cpu_time()?;
    post_often(system, from, out, turns, steps);
    let taken = rt.process_cpu_time()?.saturating_sub(start).as_nanos();
    eprintln!(rt; "{taken}")
}

fn time_copies(rt: &HostRuntime, from: &mut [i128], out: &mut [i128], turns: u32) -> io::Result<()>
    requires { length from.old ≡ length out.old }
{
    let start = rt.process_cpu_time()?;
    copy_often(from, out, turns);
    let taken = rt.process_cpu_time()?.saturating_sub(start).as_nanos();
    eprintln!(rt; "{taken}")
}

fn last_word(row: &[i128]) -> i128 {
    row.last().copied().unwrap_or(0)
}

/// Makes what the first edge makes of the row at the entry, so often, and copies rows as often.
pub fn time_first_edge<S: System, L: Ledger>(
    rt: &HostRuntime,
    system: &S,
    turns: u32,
    blank: Blank,
) -> io::Result<()>
    requires name { blank.name ≡ L.name }
    requires parts { blank.parts ≡ L.parts }
    requires some { 0 < L.parts }
{
    if system.edges() == 0 {
        return println!(rt; "no edge");
    }
    let mut steps = Steps::<L>::open(blank);
    let mut from = vec![in rt.alloc(); 0; system.words()]?;
    let mut out = vec![in rt.alloc(); 0; system.words()]?;
    system.entry(from.as_mut_slice());
    time_posts(
        rt,
        system,
        from.as_slice(),
        out.as_mut_slice(),
        turns,
        &mut steps,
    )?;
    println!(rt; "words {} last {}", out.len(), last_word(out.as_slice()))?;
    let mut back = vec![in rt.alloc(); 0; out.len()]?;
    time_copies(rt, out.as_mut_slice(), back.as_mut_slice(), turns)
}
