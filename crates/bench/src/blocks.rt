//! Solves a chain of 4,000 nodes with rows of 600 words, and passes over the rows, for bench/blocks. The
//! number is how often; the levels go to standard output, and the times to standard error.

ghost use Rattle.std.specs.Prelude.{◌≡◌, ◌<◌, ◌≤◌};

use crate::chain::Chain;
use crate::solving::{is_kept, level_at, solved};
use dom_laws::Steps;
use std::io;
use std::marker::Brand;
use std::sync::ledger::{Blank, Ledger};
use std::time::CpuClock;

// solves the chain once, and shows what comes to its last node and whether the rows are kept
fn solve_once<L: Ledger>(rt: &HostRuntime, chain: &Chain, steps: &mut Steps<L>) -> io::Result<()>
    requires { chain.now.nodes ≤ 4000 }
{
    let start = rt.process_cpu_time()?;
    let store = solved(rt.alloc(), chain, steps)?;
    let taken = rt.process_cpu_time()?.saturating_sub(start).as_nanos();
    let level = level_at(chain, &store, chain.nodes);
    let kept = is_kept(rt.alloc(), chain, &store)?;
    println!(rt; "{level} {kept}")?;
    eprintln!(rt; "{taken}")
}

fn solve_often<L: Ledger>(rt: &HostRuntime, turns: u32, blank: Blank) -> io::Result<()>
    requires name { blank.name ≡ L.name }
    requires parts { blank.parts ≡ L.parts }
    requires some { 0 < L.parts }
{
    let mut steps = Steps::<L>::open(blank);
    let chain = Chain { nodes: 4000 };
    for _ in 0..turns {
        solve_once(rt, &chain, &mut steps)?;
    }
    Ok(())
}

/// Solves so often, and passes over the rows.
pub(super) fn time_blocks(rt: &HostRuntime, turns: u32) -> io::Result<()> {
    solve_often::<Brand>(rt, turns, Blank::new(1))
}
