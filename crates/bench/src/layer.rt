//! Times what the first edge of a source's graph makes of the row at its entry, and copies of a row, for bench/layer. Given
//! are the source's path and how often. How many words a row has, and the last one behind the edge, go to standard
//! output, and the times in nanoseconds of the processor, first of the edges and then of the copies, to standard error.

ghost use Rattle.std.specs.Prelude.{◌≡◌, ◌<◌, map};
ghost use Rattle.cob_program.specs.ActView.{plain_program};
ghost use Rattle.cob_graph.specs.declared.graph.Graph.{Graph as AnyGraph};
ghost use Rattle.cob_graph.specs.Graphs.{IsGraph};
ghost use Rattle.cob_graph_build.specs.Limits.{IsWithinLimits};
ghost use Rattle.graph_runs.specs.Sources.{IsSourceGraph};
ghost use Rattle.interval_domain.specs.Rows.{lists_of};
ghost use Rattle.cell_steps.specs.OwnRanges.{owns};
ghost use Rattle.cell_ranges.specs.Ranges.{ends_of};

use crate::timing::time_first_edge;
use cell_layer::CellLayer;
use cell_ranges::{all_ends, own_ranges};
use cob_front::program_in;
use cob_graph::Graph;
use cob_graph_build::{graph_of, nested};
use cob_program::Program;
use interval_domain::Interval;
use source_facts::sources_have_source_graphs;
use std::marker::Brand;
use std::sync::ledger::Blank;
use std::{fs, io};

// Over the layer with the ends of the own ranges, which are all the thresholds.
fn time_over_ranges(
    rt: &HostRuntime,
    program: &Program,
    graph: &Graph,
    ranges: &[Interval],
    ends: &[Vec<i64>],
    turns: u32,
) -> io::Result<()>
    requires source { ∥ IsSourceGraph (plain_program program.now) graph.now ∥₁ }
    requires limits { IsWithinLimits graph.now }
    requires ranges { ranges.now ≡ owns (plain_program program.now) }
    requires ends { lists_of ends.now ≡ map ends_of ranges.now }
{
    let layer = CellLayer::new(rt.alloc(), program, graph, ends)?;
    time_first_edge::<CellLayer, Brand>(rt, &layer, turns, Blank::new(1))
}

fn time_over_graph(rt: &HostRuntime, program: &Program, graph: &Graph, turns: u32) -> io::Result<()>
    requires source { ∥ IsSourceGraph (plain_program program.now) graph.now ∥₁ }
    requires limits { IsWithinLimits graph.now }
{
    let ranges = own_ranges(rt.alloc(), graph.cells.get())?;
    let ends = all_ends(rt.alloc(), ranges.as_slice())?;
    time_over_ranges(
        rt,
        program,
        graph,
        ranges.as_slice(),
        ends.as_slice(),
        turns,
    )
}

fn time_program(rt: &HostRuntime, program: &Program, turns: u32) -> io::Result<()>
    requires { (g : AnyGraph) → IsGraph (plain_program program.now) g → IsSourceGraph (plain_program program.now) g }
{
    if let Err(end) = nested(rt.alloc(), program) {
        return println!(rt; "{end:?}");
    }
    match graph_of(rt.alloc(), program) {
        Ok(graph) => time_over_graph(rt, program, &graph, turns),
        Err(end) => println!(rt; "{end:?}"),
    }
}

/// Times the first edge of the source in a file, and copies of a row, so often.
pub(super) fn time_layer(rt: &HostRuntime, path: &str, turns: u32) -> io::Result<()> {
    let source = fs::read(rt, path)?;
    sources_have_source_graphs();
    match program_in(rt.alloc(), source.as_slice()) {
        Ok(program) => time_program(rt, &program, turns),
        Err(end) => println!(rt; "{end:?}"),
    }
}
