//! The cells that have bytes of an item, as rows of marks that are worked out once.
ghost use Rattle.std.specs.Prelude.{◌≡◌, ◌<◌, Some, [], length, slice_index_or, IfOk, IfSome};
ghost use Rattle.std.specs.List.{All};
ghost use Rattle.cob_data.specs.declared.layout.Item as declared_item;
ghost use Rattle.cob_data.specs.Occurrences.{extent_of};
ghost use Rattle.cob_program.specs.ActView.{plain_program};
ghost use Rattle.cob_runs.specs.Contents.{item_at};
ghost use Rattle.cob_graph.specs.Graphs.{cells_of as program_cells};
ghost use Rattle.cell_layer.specs.Forgetting.{marks_of, cell_marks, all_marks, lists_in, AreMarks};

use crate::row::forgetting::has_bytes;
use cob_data::{Extent, Item};
use cob_graph::cell_of;
use cob_program::Program;
use cob_runs::Cell;
use std::alloc::{AllocError, Global};

// ---- rows in the making

fn marks_of(
    alloc: Global,
    items: &[Item],
    cells: &[Cell],
    extent: &Extent,
) -> Result<Vec<bool>, AllocError>
    requires within { All (λ c. IfSome c.item (λ place. place < length items.now)) cells.now }
    ensures { IfOk result (λ marks. marks.items ≡ marks_of items.now extent.now cells.now) }
{
    let mut marks = Vec::with_capacity(alloc, cells.len())?;
    for cell in cells {
        marks.push(has_bytes(items, extent, cell.item))?;
    }
    Ok(marks)
}

fn cell_marks(
    alloc: Global,
    items: &[Item],
    cells: &[Cell],
    item: Option<u32>,
) -> Result<Vec<bool>, AllocError>
    requires within { All (λ c. IfSome c.item (λ place. place < length items.now)) cells.now }
    requires item { IfSome item (λ place. place < length items.now) }
    ensures { IfOk result (λ marks. marks.items ≡ cell_marks items.now cells.now item) }
{
    match item {
        None => Ok(Vec::new(alloc)),
        Some(place) => marks_of(alloc, items, cells, &items[place as usize].extent()),
    }
}

fn all_marks(alloc: Global, items: &[Item], cells: &[Cell]) -> Result<Vec<Vec<bool>>, AllocError>
    requires within { All (λ c. IfSome c.item (λ place. place < length items.now)) cells.now }
    ensures { IfOk result (λ rows. lists_in rows.items ≡ all_marks items.now cells.now) }
{
    let mut rows = Vec::with_capacity(alloc, cells.len())?;
    for cell in cells {
        let row = cell_marks(alloc, items, cells, cell.item)?;
        rows.push(row)?;
    }
    Ok(rows)
}

/// For each cell of a program the cells that have bytes of its item, in whichever of their occurrences.
pub fn marks_of_cells(
    alloc: Global,
    program: &Program,
    cells: &[Cell],
) -> Result<Vec<Vec<bool>>, AllocError>
    requires { cells.now ≡ program_cells (plain_program program.now) }
    ensures { IfOk result (λ rows. AreMarks (plain_program program.now) cells.now rows.items) }
{
    all_marks(alloc, program.layout.items.get(), cells)
}

// ---- a row

fn row_at(rows: &[Vec<bool>], k: usize) -> &[bool]
    requires { k < length rows.now }
    ensures { result.now ≡ slice_index_or (lists_in rows.now) k [] }
{
    rows[k].as_slice()
}

/// The cells that have bytes of an item, if it has a cell.
pub(crate) fn item_marks<'a>(
    program: &Program,
    cells: &[Cell],
    rows: &'a [Vec<bool>],
    place: u32,
) -> Option<&'a [bool]>
    requires cells { cells.now ≡ program_cells (plain_program program.now) }
    requires marks { AreMarks (plain_program program.now) cells.now rows.now }
    ensures { IfSome result (λ marks. (i : declared_item.Item) → item_at program.now.layout place ≡ Some i
        → marks.now ≡ marks_of program.now.layout.items (extent_of i) cells.now) }
{
    match cell_of(cells, place) {
        None => None,
        Some(k) => Some(row_at(rows, k)),
    }
}
