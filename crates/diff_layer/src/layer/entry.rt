//! The row of what is known of differences where a run begins.
ghost use Rattle.std.specs.Prelude.{◌≡◌, ◌≤◌, length, map, IfOk};
ghost use Rattle.std.specs.List.{AllByRecursion};
ghost use Rattle.cob_program.specs.ActView.{plain_program};
ghost use Rattle.cob_graph.specs.Graphs.{cells_of};
ghost use Rattle.cob_graph.specs.Limits.{most_cells};
ghost use Rattle.cob_store.specs.WellFormed.{HasWellFormedItems};
ghost use Rattle.interval_domain.specs.Elements.{CellsFit};
ghost use Rattle.interval_domain.specs.Rows.{row_of as known_row};
ghost use Rattle.cell_steps.specs.OwnRanges.{owns};
ghost use Rattle.cell_laws.specs.Entry.{entry_cells};
ghost use Rattle.diff_steps.specs.Packs.{size_of};
ghost use Rattle.diff_steps.specs.Edges.{no_bounds, entry_packs};
ghost use Rattle.diff_bounds.specs.PackRows.{words_of, width_of, row_of};
ghost use Rattle.diff_layer.specs.Plans.{plain_plans, ArePlansOf};
ghost use Rattle.diff_layer.specs.Edges.{free_word};
ghost use Rattle.diff_layer.specs.Views.{program_of};

use crate::pack::closing::close_all;
use crate::pack::plans::PackPlan;
use cell_layer::{KnownItems, entry_row};
use cob_program::Program;
use cob_runs::Cell;
use diff_bounds::{NONE, set_least, width_of, words_of};
use std::alloc::{AllocError, Global};

// a word of the matrix that bounds nothing
fn free_word(size: usize, at: usize) -> i128
    requires { size ≤ 8 }
    ensures { result ≡ free_word size at }
{
    if at / (size + 1) == at % (size + 1) {
        0
    } else {
        NONE
    }
}

fn set_free_matrix(size: usize, m: &mut [i128])
    requires size { size ≤ 8 }
    requires width { length m.old ≡ words_of size }
    ensures { m.new ≡ no_bounds size }
{
    for at in 0..m.len() {
        m[at] = free_word(size, at);
    }
}

// makes the row that bounds nothing
fn set_free(sizes: &[usize], row: &mut [i128])
    requires small { AllByRecursion (λ n. n ≤ 8) sizes.now }
    requires width { length row.old ≡ width_of sizes.now }
    ensures { row.new ≡ row_of (map no_bounds sizes.now) }
{
    match sizes {
        [] => {}
        [size, sizes @ ..] => {
            let (first, rest) = row.split_at_mut(words_of(*size));
            set_free_matrix(*size, first);
            set_free(sizes, rest);
        }
    }
}

// lowers the row that bounds nothing to what is known of cells where a run begins
fn set_entry(
    items: &KnownItems,
    plans: &[PackPlan],
    sizes: &[usize],
    thresholds: &[Vec<i128>],
    out: &mut [i128],
)
    requires row { items.now.row.now ≡ known_row (entry_cells (program_of items.now)) }
    requires fits { CellsFit (owns (program_of items.now)) (entry_cells (program_of items.now)) }
    requires plans { ArePlansOf (program_of items.now) plans.now }
    requires sizes { sizes.now ≡ map size_of (plain_plans plans.now) }
    requires listed { length thresholds.now ≡ length plans.now }
    requires width { length out.old ≡ width_of sizes.now }
    ensures { out.new ≡ row_of (entry_packs (program_of items.now) (plain_plans plans.now)
        (entry_cells (program_of items.now))) }
{
    set_free(sizes, out);
    if !close_all(items.program, items.cells, plans, items.row, out) {
        set_least(sizes, thresholds, out);
    }
}

/// The row of what is known of differences where a run begins.
pub fn entry_words(
    alloc: Global,
    program: &Program,
    cells: &[Cell],
    plans: &[PackPlan],
    sizes: &[usize],
    thresholds: &[Vec<i128>],
) -> Result<Vec<i128>, AllocError>
    requires sound { HasWellFormedItems program.now.layout }
    requires cells { cells.now ≡ cells_of (plain_program program.now) }
    requires few { length cells.now ≤ most_cells }
    requires fits { CellsFit (owns (plain_program program.now)) (entry_cells (plain_program program.now)) }
    requires plans { ArePlansOf (plain_program program.now) plans.now }
    requires packs { length plans.now ≤ 32 }
    requires sizes { sizes.now ≡ map size_of (plain_plans plans.now) }
    requires listed { length thresholds.now ≡ length plans.now }
    ensures { IfOk result (λ words. words.items ≡ row_of
        (entry_packs (plain_program program.now) (plain_plans plans.now)
        (entry_cells (plain_program program.now)))) }
{
    let row = entry_row(alloc, program, cells)?;
    let mut words = vec![in alloc; 0; width_of(sizes)]?;
    let items = KnownItems {
        program,
        cells,
        row: row.as_slice(),
    };
    set_entry(&items, plans, sizes, thresholds, words.as_mut_slice());
    Ok(words)
}
