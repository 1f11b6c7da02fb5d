//! Shows a source's control graph with its cells and the parts of its edges, and answers what edges make of rows, and
//! which faults rows show not to be met, by the layer over cells or by the one over packs of cells. tests/edges.py and
//! tests/diffs.py work out what must come. The word is the source's path; each line of the standard input is `show`,
//! which is answered by a line each for items, cells, nodes, edges and parts of edges, and `end`; or a case:
//!
//! - `CASE | ROW`, by what is known of the cells.
//! - `CASE | PACKS | ROW | WORDS`, by the matrices of packs beside it, the row being the same at each node.
//!
//! Cases are:
//!
//! - `post EDGE`: what the edge makes of the row or of the matrices, or `unreached`.
//! - `posts TURNS EDGE`: the same, made so often, for bench/posts.
//! - `clears NODE KIND`: whether the row, or row and matrices, show that the node meets no fault of the kind.
//! - `entry`: the row or the matrices where a run begins, whatever is given.
//! - `part EDGE PART`, by what is known of the cells: what a part makes of the row behind those of the edge, or
//!   `unreached`. It is a part of a subscript, which no edge has: `subscript LAST ITEM`, or `index LAST ITEM COUNT`.
//! - `spared EDGE KIND PART`, likewise: whether the row shows that the part meets no fault of the kind.
//! - `close TURNS`, of matrices: their closures, whatever the row is, made so often; `none` where a cycle is negative.
//!
//! A row has two words for each cell: the ends of its interval, or `- -` where nothing is known of it. Each interval is
//! met with the cell's own range first. A pack is the numbers of its cells, at most 8, which count from 1, in rising
//! order and with a point between them; there are at most 32 packs. Words are those of the packs' matrices, row by row
//! and one matrix behind the other, each a number of at most 10^37 in absolute value, or `-` where there is no bound; so
//! it is of those left out at the end. Those of a diagonal say nothing.
#![tactic(auto)]

mod answers;
mod cases;
mod closing;
mod facts;
mod flow;
mod graph_text;
mod matrices;
mod packs;
mod part_text;
mod rows;
mod shown;
mod subscripts;
mod words;

use cases::answer_for_program;
use cob_front::program_in;
use source_facts::sources_have_source_graphs;
use std::{env, fs, io};

fn main(rt: HostRuntime) -> io::Result<()> {
    let Some(path) = env::args(&rt)?.nth(1) else {
        return println!(rt; "usage: layer_driver SOURCE");
    };
    let source = fs::read(&rt, path.as_str())?;
    sources_have_source_graphs();
    match program_in(rt.alloc(), source.as_slice()) {
        Ok(program) => answer_for_program(&rt, &program),
        Err(end) => println!(rt; "{end:?}"),
    }
}
