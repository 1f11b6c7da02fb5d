//! What is known of items that have bytes of an extent is forgotten.
ghost use Rattle.std.specs.Prelude.{◌≡◌, ◌<◌, length, IfSome};
ghost use Rattle.std.specs.List.{All};
ghost use Rattle.cob_program.specs.ActView.{plain_program};
ghost use Rattle.cob_graph.specs.Numbers.{items_of};
ghost use Rattle.cob_graph.specs.Homes.{homes_of};
ghost use Rattle.interval_domain.specs.Rows.{IsReached, cells_of};
ghost use Rattle.cell_steps.specs.Cells.{forgotten, bytes_from, is_in_extent, is_beside};
ghost use Rattle.cell_layer.specs.ProgramRows.{IsRowOf};
ghost use Rattle.cell_layer.specs.Forgetting.{has_bytes, forgotten_at, forgotten_by, AreMarks};

use crate::row::beside::item_marks;
use crate::row::pictures::item_at;
use cob_data::{Extent, Item, share_extents};
use cob_program::Program;
use cob_runs::Cell;
use interval_domain::set_known;

/// Whether the item at a place has bytes of an extent.
pub(crate) fn has_bytes(items: &[Item], extent: &Extent, item: Option<u32>) -> bool
    requires { IfSome item (λ place. place < length items.now) }
    ensures { result ≡ has_bytes items.now extent.now item }
{
    match item {
        None => false,
        Some(place) => share_extents(extent, &items[place as usize].extent()),
    }
}

fn forget_if(row: &mut [i128], k: usize, gone: bool)
    requires reached { IsReached row.old }
    requires within { k < length (cells_of row.old) }
    ensures cells { cells_of row.new ≡ forgotten_at (cells_of row.old) k gone }
    ensures reached { IsReached row.new }
{
    if gone {
        set_known(row, k, None);
    }
}

fn forget(items: &[Item], cells: &[Cell], row: &mut [i128], extent: &Extent)
    requires reached { IsReached row.old }
    requires whole { length (cells_of row.old) ≡ length cells.now }
    requires within { All (λ c. IfSome c.item (λ place. place < length items.now)) cells.now }
    ensures cells { cells_of row.new ≡ forgotten_by (has_bytes items.now extent.now) (items_of cells.now) (cells_of row.old) }
    ensures reached { IsReached row.new }
{
    for k in 0..cells.len() {
        let gone = has_bytes(items, extent, cells[k].item);
        forget_if(row, k, gone);
    }
}

/// Forgets what is known of each item that has bytes of an extent.
pub(crate) fn forget_extent(program: &Program, cells: &[Cell], row: &mut [i128], extent: &Extent)
    requires { IsRowOf (plain_program program.now) cells.now row.old }
    ensures cells { cells_of row.new ≡ forgotten (is_in_extent program.now.layout extent.now) (homes_of (plain_program program.now)) (cells_of row.old) }
    ensures row { IsRowOf (plain_program program.now) cells.now row.new }
{
    forget(program.layout.items.get(), cells, row, extent);
}

/// A range of bytes, by its offset and its length.
pub fn bytes_from(offset: u32, count: u32) -> Extent
    ensures { result ≡ bytes_from offset count }
{
    Extent {
        offset,
        length: count,
        times: 1,
        stride: 0,
    }
}

fn forget_marked(marks: &[bool], row: &mut [i128])
    requires reached { IsReached row.old }
    requires whole { length (cells_of row.old) ≡ length marks.now }
    ensures cells { cells_of row.new ≡ forgotten_by (λ gone. gone) marks.now (cells_of row.old) }
    ensures reached { IsReached row.new }
{
    for k in 0..marks.len() {
        forget_if(row, k, marks[k]);
    }
}

/// Forgets what is known of each item that has bytes of another one, itself among them, in whichever of their occurrences.
pub(crate) fn forget_beside(
    program: &Program,
    cells: &[Cell],
    marks: &[Vec<bool>],
    row: &mut [i128],
    place: u32,
)
    requires row { IsRowOf (plain_program program.now) cells.now row.old }
    requires marks { AreMarks (plain_program program.now) cells.now marks.now }
    ensures cells { cells_of row.new ≡ forgotten (is_beside program.now.layout place) (homes_of (plain_program program.now)) (cells_of row.old) }
    ensures row { IsRowOf (plain_program program.now) cells.now row.new }
{
    match item_at(&program.layout, place) {
        None => {}
        Some(item) => match item_marks(program, cells, marks, place) {
            None => forget_extent(program, cells, row, &item.extent()),
            Some(marked) => forget_marked(marked, row),
        },
    }
}
