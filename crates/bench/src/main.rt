//! What the scripts in `bench/` time, and what tests read certificates by: the first word names the measure.
//!
//! `blocks`, `decimals` and `matrices` make their inputs; their word is how often these are gone through. The others
//! read the file that is named: `layer` so often as the word behind it says, `lines` with the tokens where a word stands
//! there, `certificate` and `graph` with times.
#![tactic(auto)]

mod blocks;
mod certificate;
mod chain;
mod decimal_inputs;
mod decimals;
mod graph;
mod layer;
mod lines;
mod matrices;
mod matrix_inputs;
mod solving;
mod timing;

use blocks::time_blocks;
use certificate::time_certificate;
use decimals::time_decimals;
use graph::time_graph;
use layer::time_layer;
use lines::count_lines;
use matrices::time_matrices;
use std::{env, io};

// how often: once where no number is given
fn number_in(word: Option<String>) -> u32 {
    word.and_then(|w| w.as_str().parse::<u32>().ok())
        .unwrap_or(1)
}

// The measures of a file.
fn measured_on(
    rt: &HostRuntime,
    measure: &str,
    path: &str,
    more: Option<String>,
) -> io::Result<()> {
    match measure {
        "certificate" => time_certificate(rt, path, more.is_some()),
        "graph" => time_graph(rt, path, more.is_some()),
        "layer" => time_layer(rt, path, number_in(more)),
        "lines" => count_lines(rt, path, more.is_some()),
        _ => println!(rt; "no measure {measure}"),
    }
}

fn measured(
    rt: &HostRuntime,
    measure: &str,
    word: Option<String>,
    more: Option<String>,
) -> io::Result<()> {
    match measure {
        "blocks" => time_blocks(rt, number_in(word)),
        "decimals" => time_decimals(rt, number_in(word)),
        "matrices" => time_matrices(rt, number_in(word)),
        _ => match word {
            Some(path) => measured_on(rt, measure, path.as_str(), more),
            None => println!(rt; "usage: bench MEASURE FILE [WORD]"),
        },
    }
}

fn main(rt: HostRuntime) -> io::Result<()> {
    let mut words = env::args(&rt)?;
    let _program = words.next();
    let Some(measure) = words.next() else {
        return println!(rt; "usage: bench MEASURE [WORD..]");
    };
    let word = words.next();
    let more = words.next();
    measured(&rt, measure.as_str(), word, more)
}
