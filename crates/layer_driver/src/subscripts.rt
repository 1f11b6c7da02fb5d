//! Parts of subscripts, tried behind the parts of an edge, since no edge has them yet.
ghost use Rattle.std.specs.Prelude.{◌≡◌, ◌<◌, [], true, length, IfSome};
ghost use Rattle.std.specs.List.{AllByRecursion};
ghost use Rattle.cob_program.specs.Act.{Act as AnyAct};
ghost use Rattle.cob_program.specs.ActView.{plain_program};
ghost use Rattle.cob_runs.specs.declared.action.Action.{Action as AnyAction};
ghost use Rattle.edge_parts.specs.PartView.{plain_part};
ghost use Rattle.graph_runs.specs.Sources.{IsSourceGraph};
ghost use Rattle.dom_laws.specs.Lattice.{IsElement};
ghost use Rattle.interval_domain.specs.Elements.{CellsFit};
ghost use Rattle.interval_domain.specs.Rows.{IsReached, cells_lattice, cells_of};
ghost use Rattle.cell_steps.specs.OwnRanges.{owns};
ghost use Rattle.cell_laws.specs.Sizes.{IsSmallPart};
ghost use Rattle.cell_layer.specs.Edges.{CanWalk};
ghost use Rattle.cell_layer.specs.Forgetting.{AreMarks};
ghost use Rattle.cell_layer.specs.Kept.{seen};
ghost use Rattle.cell_layer.specs.ProgramRows.{IsRowOf};
ghost use Rattle.cell_layer.specs.SmallCells.{has_small_cells};
ghost use Rattle.cell_layer.specs.Walks.{CanStep};
ghost use Rattle.cell_layer.specs.Works.{act_of, parts_in, program_of, statement_of};

use crate::shown::{RowKind, shown_row};
use crate::words::kind_of;
use case_words::place_of;
use cell_layer::{CellLayer, EdgeWorks, Kept, cleared_by_part, is_small_item, walk_part};
use cob_graph::Graph;
use cob_program::Program;
use cob_runs::Cell;
use cob_tree::Kinds;
use edge_parts::{EdgePart, EdgeWork};
use interval_domain::is_reached;
use std::alloc::{AllocError, Global};

/// What came of a part: the kinds of faults that it clears, and whether a run passes it.
#[derive(Clone, Copy)]
struct Outcome {
    cleared: Kinds,
    passes: bool,
}

fn unreached() -> Outcome {
    Outcome {
        cleared: Kinds::all(),
        passes: false,
    }
}

// ---- the part

fn flag_of(word: &str) -> Option<bool> {
    match word {
        "true" => Some(true),
        "false" => Some(false),
        _ => None,
    }
}

// The part of a subscript that is written so.
fn part_of(words: &[&str]) -> Option<EdgePart<'static>> {
    match words {
        ["subscript", last, item] => Some(EdgePart::Subscript {
            last: flag_of(last)?,
            item: place_of(item)?,
        }),
        ["index", last, item, count] => Some(EdgePart::Index {
            last: flag_of(last)?,
            item: place_of(item)?,
            count: count.parse::<u32>().ok()?,
        }),
        _ => None,
    }
}

// Whether the arithmetic works with the numbers of a subscript's item.
fn is_small_subscript(program: &Program, part: EdgePart) -> bool
    ensures { result ≡ true → (a : AnyAct) (x : AnyAction) → IsSmallPart (plain_program program.now) a x (plain_part part.entry) }
{
    match part {
        EdgePart::Subscript { .. } => true,
        EdgePart::Index { item, .. } => is_small_item(&program.layout, item),
        _ => false,
    }
}

// ---- behind an edge

// Leads a row over the parts of an edge; answers false where no run passes them.
fn walk_parts(
    cells: &[Cell],
    marks: &[Vec<bool>],
    work: &EdgeWork,
    row: &mut [i128],
    kept: &mut Kept,
) -> bool
    requires row { IsRowOf (program_of work.now) cells.now row.old }
    requires marks { AreMarks (program_of work.now) cells.now marks.now }
    requires small_cells { has_small_cells (program_of work.now) ≡ true }
    requires small { AllByRecursion (IsSmallPart (program_of work.now) (act_of work.now) work.now.action) (parts_in work.now) }
    requires can { CanStep (program_of work.now) (act_of work.now) work.now.action (seen row.old kept.old) }
    ensures row { IsRowOf (program_of work.now) cells.now row.new }
    ensures can { result ≡ true → CanStep (program_of work.now) (act_of work.now) work.now.action (seen row.new kept.new) }
{
    for part in work.parts.as_slice() {
        if !walk_part(cells, marks, work, *part, row, kept) {
            return false;
        }
    }
    true
}

// What comes of one part more.
fn outcome_behind(
    cells: &[Cell],
    marks: &[Vec<bool>],
    work: &EdgeWork,
    part: EdgePart,
    row: &mut [i128],
) -> Outcome
    requires marks { AreMarks (program_of work.now) cells.now marks.now }
    requires can { CanWalk (program_of work.now) cells.now (statement_of work.now) work.now.action row.old }
    requires small { IsSmallPart (program_of work.now) (act_of work.now) work.now.action (plain_part part) }
{
    let mut kept = Kept::new();
    if !walk_parts(cells, marks, work, row, &mut kept) {
        return unreached();
    }
    let cleared = cleared_by_part(cells, work, part, row, &kept);
    let passes = walk_part(cells, marks, work, part, row, &mut kept);
    Outcome { cleared, passes }
}

fn outcome_if_small(
    cells: &[Cell],
    marks: &[Vec<bool>],
    work: &EdgeWork,
    part: EdgePart,
    row: &mut [i128],
) -> Option<Outcome>
    requires marks { AreMarks (program_of work.now) cells.now marks.now }
    requires can { CanWalk (program_of work.now) cells.now (statement_of work.now) work.now.action row.old }
{
    if !is_small_subscript(work.program, part) {
        return None;
    }
    Some(outcome_behind(cells, marks, work, part, row))
}

// By the edge's number, which counts from 0.
fn outcome_at(works: &EdgeWorks, at: usize, part: EdgePart, row: &mut [i128]) -> Option<Outcome>
    requires edge { at < length works.now.graph.now.edges }
    requires source { ∥ IsSourceGraph (plain_program works.now.program.now) works.now.graph.now ∥₁ }
    requires reached { IsReached row.old }
    requires fits { CellsFit (owns (plain_program works.now.program.now)) (cells_of row.old) }
{
    match works.at(at) {
        None => None,
        Some(work) => outcome_if_small(
            works.graph.cells.get(),
            works.marks.as_slice(),
            work,
            part,
            row,
        ),
    }
}

fn outcome_of(
    alloc: Global,
    layer: &CellLayer,
    at: usize,
    part: EdgePart,
    row: &mut [i128],
) -> Result<Option<Outcome>, AllocError>
    requires source { ∥ IsSourceGraph (plain_program layer.now.program.now) layer.now.graph.now ∥₁ }
    requires edge { at < length layer.now.graph.now.edges }
    requires row { IsElement (cells_lattice (owns (plain_program layer.now.program.now)) []) row.old }
{
    if !is_reached(row) {
        return Ok(Some(unreached()));
    }
    let works = EdgeWorks::new(alloc, layer.program, layer.graph)?;
    Ok(outcome_at(&works, at, part, row))
}

// ---- cases

// The edge that a word is, counted from 0.
fn edge_of(graph: &Graph, word: &str) -> Option<usize>
    ensures { IfSome result (λ at. at < length graph.now.edges) }
{
    let at = word.parse::<usize>().ok()?.checked_sub(1)?;
    if at < graph.edges.get().len() {
        Some(at)
    } else {
        None
    }
}

// What comes of the part that words are, behind the edge that a word is.
fn outcome_by_words(
    alloc: Global,
    layer: &CellLayer,
    edge: &str,
    words: &[&str],
    row: &mut [i128],
) -> Result<Option<Outcome>, AllocError>
    requires source { ∥ IsSourceGraph (plain_program layer.now.program.now) layer.now.graph.now ∥₁ }
    requires row { IsElement (cells_lattice (owns (plain_program layer.now.program.now)) []) row.old }
{
    let (Some(at), Some(part)) = (edge_of(layer.graph, edge), part_of(words)) else {
        return Ok(None);
    };
    outcome_of(alloc, layer, at, part, row)
}

/// What the part makes of the row behind the edge.
pub fn part_case(
    alloc: Global,
    layer: &CellLayer,
    edge: &str,
    words: &[&str],
    row: &mut [i128],
) -> Result<Option<String>, AllocError>
    requires source { ∥ IsSourceGraph (plain_program layer.now.program.now) layer.now.graph.now ∥₁ }
    requires row { IsElement (cells_lattice (owns (plain_program layer.now.program.now)) []) row.old }
{
    let Some(outcome) = outcome_by_words(alloc, layer, edge, words, row)? else {
        return Ok(None);
    };
    let shown: &[i128] = if outcome.passes { row } else { &[] };
    Ok(Some(shown_row(alloc, RowKind::Cells, shown)?))
}

/// Whether the row shows that the part meets no fault of a kind behind the edge.
pub fn spared_case(
    alloc: Global,
    layer: &CellLayer,
    edge: &str,
    kind: &str,
    words: &[&str],
    row: &mut [i128],
) -> Result<Option<String>, AllocError>
    requires source { ∥ IsSourceGraph (plain_program layer.now.program.now) layer.now.graph.now ∥₁ }
    requires row { IsElement (cells_lattice (owns (plain_program layer.now.program.now)) []) row.old }
{
    let Some(kind) = kind_of(kind) else {
        return Ok(None);
    };
    match outcome_by_words(alloc, layer, edge, words, row)? {
        None => Ok(None),
        Some(outcome) => Ok(Some(format!(in alloc; "{}", outcome.cleared.has(kind))?)),
    }
}
