//! Counts the nodes of the control graph of the source in a file, or prints why it has none. Where it is timed, prints
//! how many microseconds the rules on nesting and the graph took instead.

use cob_front::program_in;
use cob_graph_build::{graph_of, nested};
use cob_program::Program;
use std::rt::Clock;
use std::time::Instant;
use std::{fs, io};

fn measure(
    rt: &(impl Print + AllocGlobal + Clock),
    program: &Program,
    timed: bool,
) -> io::Result<()> {
    let before = Instant::now(rt)?;
    if let Err(end) = nested(rt.alloc(), program) {
        return println!(rt; "{end:?}");
    }
    let between = Instant::now(rt)?;
    match graph_of(rt.alloc(), program) {
        Ok(graph) => {
            let after = Instant::now(rt)?;
            if timed {
                let nesting = between.saturating_duration_since(before).as_micros();
                let laying = after.saturating_duration_since(between).as_micros();
                println!(rt;
                    "nesting {nesting} graph {laying} nodes {}",
                    graph.nodes.get().len()
                )
            } else {
                println!(rt; "nodes {}", graph.nodes.get().len())
            }
        }
        Err(end) => println!(rt; "{end:?}"),
    }
}

/// Lays the graph of the source in a file, and shows its count of nodes or the times.
pub(super) fn time_graph(rt: &HostRuntime, path: &str, timed: bool) -> io::Result<()> {
    let bytes = fs::read(rt, path)?;
    match program_in(rt.alloc(), bytes.as_slice()) {
        Ok(program) => measure(rt, &program, timed),
        Err(end) => println!(rt; "{end:?}"),
    }
}
