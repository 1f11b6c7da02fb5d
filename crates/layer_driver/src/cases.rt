//! The cases of a source, over the layers of its graph.
ghost use Rattle.std.specs.Prelude.{◌≡◌, ◌≤◌, List, length, map, ℤ};
ghost use Rattle.cob_program.specs.ActView.{plain_program};
ghost use Rattle.cob_graph.specs.declared.graph.Graph.{Graph as AnyGraph};
ghost use Rattle.cob_graph.specs.Graphs.{IsGraph};
ghost use Rattle.cob_graph_build.specs.Limits.{IsWithinLimits};
ghost use Rattle.graph_runs.specs.Sources.{IsSourceGraph};
ghost use Rattle.dom_laws.specs.Lattice.{IsElement};
ghost use Rattle.interval_domain.specs.Rows.{IsRow, cells_lattice, lists_of as cell_lists};
ghost use Rattle.cell_steps.specs.OwnRanges.{owns};
ghost use Rattle.cell_ranges.specs.Ranges.{ends_of};
ghost use Rattle.diff_bounds.specs.PackRows.{lists_of};
ghost use Rattle.cert_text.specs.MatrixClaims.{cells_in, sizes_of};
ghost use Rattle.pack_laws.specs.Packs.{ArePacksOfCells};
ghost use Rattle.layer_driver.specs.Rows.{no_thresholds, rows_of_packs};

use crate::answers::answer_to;
use crate::closing::close_case;
use crate::facts::SameRow;
use crate::graph_text::show_graph;
use crate::matrices::row_with;
use crate::packs::{no_thresholds, packs_of};
use crate::rows::row_in;
use crate::shown::RowKind;
use crate::subscripts::{part_case, spared_case};
use case_words::words_of;
use cell_layer::CellLayer;
use cell_ranges::{all_ends, own_ranges};
use cob_graph::Graph;
use cob_graph_build::{graph_of, nested};
use cob_program::Program;
use diff_bounds::Pack;
use diff_layer::DiffLayer;
use dom_laws::Domain;
use interval_domain::Interval;
use std::alloc::{AllocError, Global};
use std::io;

/// What a case that can't be read is answered.
const NO_CASE: &str = "no case";

// ---- packs

// Answers a case by the layer over packs, or by its matrices alone.
fn answer_in_row(
    alloc: Global,
    layer: &DiffLayer<SameRow>,
    case: &[&str],
    row: &[i128],
) -> Result<Option<String>, AllocError>
    requires thresholds { lists_of layer.now.thresholds.now ≡ no_thresholds (sizes_of (cells_in layer.now.packs.now)) }
    requires row { IsElement (rows_of_packs layer.now.packs.now) row.now }
{
    match case {
        ["close", turns] => close_case(alloc, layer.packs, turns, row),
        _ => answer_to(alloc, layer, RowKind::Packs, case, row),
    }
}

// Answers a case by the layer over packs, with its row.
fn answer_by_layer(
    alloc: Global,
    layer: &DiffLayer<SameRow>,
    case: &[&str],
    words: &[&str],
) -> Result<Option<String>, AllocError>
    requires { lists_of layer.now.thresholds.now ≡ no_thresholds (sizes_of (cells_in layer.now.packs.now)) }
{
    match row_with(alloc, layer.packs, words, layer.words())? {
        Some(row) => answer_in_row(alloc, layer, case, row.as_slice()),
        None => Ok(None),
    }
}

// Answers a case beside what is known of the cells, the same at each node.
fn answer_beside(
    alloc: Global,
    program: &Program,
    graph: &Graph,
    packs: &[Pack],
    row: &[i128],
    case: &[&str],
    words: &[&str],
) -> Result<Option<String>, AllocError>
    requires source { ∥ IsSourceGraph (plain_program program.now) graph.now ∥₁ }
    requires limits { IsWithinLimits graph.now }
    requires few { length packs.now ≤ 32 }
    requires packs { ArePacksOfCells (length graph.now.cells) packs.now }
    requires row { IsRow (owns (plain_program program.now)) row.now }
{
    let facts = SameRow {
        row,
        nodes: graph.nodes.get().len() as u32,
    };
    let thresholds = no_thresholds(alloc, packs)?;
    let layer = DiffLayer::new(alloc, program, graph, packs, thresholds.as_slice(), &facts)?;
    answer_by_layer(alloc, &layer, case, words)
}

// Answers a case by the words of packs, of cells and of matrices.
fn answer_in_packs(
    alloc: Global,
    layer: &CellLayer,
    ranges: &[Interval],
    case: &[&str],
    packs: &[&str],
    row: &[&str],
    words: &[&str],
) -> Result<Option<String>, AllocError>
    requires source { ∥ IsSourceGraph (plain_program layer.now.program.now) layer.now.graph.now ∥₁ }
    requires limits { IsWithinLimits layer.now.graph.now }
    requires ranges { ranges.now ≡ owns (plain_program layer.now.program.now) }
{
    let cells = layer.graph.cells.get().len() as u32;
    let Some(packs) = packs_of(alloc, packs, cells)? else {
        return Ok(None);
    };
    let Some(row) = row_in(alloc, ranges, row)? else {
        return Ok(None);
    };
    answer_beside(
        alloc,
        layer.program,
        layer.graph,
        packs.as_slice(),
        row.as_slice(),
        case,
        words,
    )
}

// ---- cells

// Answers a case by the layer over cells, or by a part of a subscript.
fn answer_with_cells(
    alloc: Global,
    layer: &CellLayer,
    case: &[&str],
    row: &mut [i128],
) -> Result<Option<String>, AllocError>
    requires source { ∥ IsSourceGraph (plain_program layer.now.program.now) layer.now.graph.now ∥₁ }
    requires row { (thresholds : List (List ℤ)) →
        IsElement (cells_lattice (owns (plain_program layer.now.program.now)) thresholds) row.old }
{
    match case {
        ["part", edge, part @ ..] => part_case(alloc, layer, edge, part, row),
        ["spared", edge, kind, part @ ..] => spared_case(alloc, layer, edge, kind, part, row),
        _ => answer_to(alloc, layer, RowKind::Cells, case, row),
    }
}

// Answers a case by the words of cells.
fn answer_by_cells(
    alloc: Global,
    layer: &CellLayer,
    ranges: &[Interval],
    case: &[&str],
    row: &[&str],
) -> Result<Option<String>, AllocError>
    requires source { ∥ IsSourceGraph (plain_program layer.now.program.now) layer.now.graph.now ∥₁ }
    requires ranges { ranges.now ≡ owns (plain_program layer.now.program.now) }
{
    match row_in(alloc, ranges, row)? {
        Some(mut row) => answer_with_cells(alloc, layer, case, row.as_mut_slice()),
        None => Ok(None),
    }
}

// ---- lines

// Answers a case by the layer that its sections ask.
fn answer_in_sections(
    alloc: Global,
    layer: &CellLayer,
    ranges: &[Interval],
    sections: &[Vec<&str>],
) -> Result<Option<String>, AllocError>
    requires source { ∥ IsSourceGraph (plain_program layer.now.program.now) layer.now.graph.now ∥₁ }
    requires limits { IsWithinLimits layer.now.graph.now }
    requires ranges { ranges.now ≡ owns (plain_program layer.now.program.now) }
{
    match sections {
        [case, row] => answer_by_cells(alloc, layer, ranges, case.as_slice(), row.as_slice()),
        [case, packs, row, words] => answer_in_packs(
            alloc,
            layer,
            ranges,
            case.as_slice(),
            packs.as_slice(),
            row.as_slice(),
            words.as_slice(),
        ),
        _ => Ok(None),
    }
}

fn answer_line(
    rt: &HostRuntime,
    layer: &CellLayer,
    ranges: &[Interval],
    line: &str,
) -> io::Result<()>
    requires source { ∥ IsSourceGraph (plain_program layer.now.program.now) layer.now.graph.now ∥₁ }
    requires limits { IsWithinLimits layer.now.graph.now }
    requires ranges { ranges.now ≡ owns (plain_program layer.now.program.now) }
{
    if line == "show" {
        return show_graph(rt, layer.program, layer.graph);
    }
    let mut sections = Vec::new(rt.alloc());
    for section in line.split('|') {
        sections.push(words_of(rt.alloc(), section)?)?;
    }
    match answer_in_sections(rt.alloc(), layer, ranges, sections.as_slice())? {
        Some(answer) => println!(rt; "{answer}"),
        None => println!(rt; "{NO_CASE}"),
    }
}

fn answer_lines(rt: &HostRuntime, layer: &CellLayer, ranges: &[Interval]) -> io::Result<()>
    requires source { ∥ IsSourceGraph (plain_program layer.now.program.now) layer.now.graph.now ∥₁ }
    requires limits { IsWithinLimits layer.now.graph.now }
    requires ranges { ranges.now ≡ owns (plain_program layer.now.program.now) }
{
    for line in rt.lines(rt.alloc()) {
        answer_line(rt, layer, ranges, line?.as_str())?;
    }
    Ok(())
}

// ---- the program

// Answers the cases by the own ranges of the cells, and their ends, which are all the thresholds over cells.
fn answer_by_ranges(
    rt: &HostRuntime,
    program: &Program,
    graph: &Graph,
    ranges: &[Interval],
    ends: &[Vec<i64>],
) -> io::Result<()>
    requires source { ∥ IsSourceGraph (plain_program program.now) graph.now ∥₁ }
    requires limits { IsWithinLimits graph.now }
    requires ranges { ranges.now ≡ owns (plain_program program.now) }
    requires ends { cell_lists ends.now ≡ map ends_of ranges.now }
{
    let layer = CellLayer::new(rt.alloc(), program, graph, ends)?;
    answer_lines(rt, &layer, ranges)
}

fn answer_over_graph(rt: &HostRuntime, program: &Program, graph: &Graph) -> io::Result<()>
    requires source { ∥ IsSourceGraph (plain_program program.now) graph.now ∥₁ }
    requires limits { IsWithinLimits graph.now }
{
    let ranges = own_ranges(rt.alloc(), graph.cells.get())?;
    let ends = all_ends(rt.alloc(), ranges.as_slice())?;
    answer_by_ranges(rt, program, graph, ranges.as_slice(), ends.as_slice())
}

/// Answers the cases of the standard input for a program, or says why it has no graph.
pub fn answer_for_program(rt: &HostRuntime, program: &Program) -> io::Result<()>
    requires { (g : AnyGraph) → IsGraph (plain_program program.now) g → IsSourceGraph (plain_program program.now) g }
{
    if let Err(end) = nested(rt.alloc(), program) {
        return println!(rt; "{end:?}");
    }
    match graph_of(rt.alloc(), program) {
        Ok(graph) => answer_over_graph(rt, program, &graph),
        Err(end) => println!(rt; "{end:?}"),
    }
}
