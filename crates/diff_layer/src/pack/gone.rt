//! Cells that a part leaves nothing known of.
ghost use Rattle.std.specs.Prelude.{◌≡◌, ◌≤◌, length, map};
ghost use Rattle.std.specs.Option.{option_copied};
ghost use Rattle.cob_data.specs.Extents.{share_extents};
ghost use Rattle.cob_runs.specs.Contents.{item_at};
ghost use Rattle.diff_bounds.specs.Matrix.{IsMatrix};
ghost use Rattle.cob_graph.specs.declared.homes.Home.TheVariants.{Item as of_item};
ghost use Rattle.cob_graph.specs.Homes.{is_home};
ghost use Rattle.cell_steps.specs.Cells.{is_in_extent, is_beside};
ghost use Rattle.diff_steps.specs.Stores.{forgotten_cells};
ghost use Rattle.diff_layer.specs.Gone.{is_gone};

use crate::pack::matrix_forgetting::forget_cells;
use cob_data::{Extent, Item, Layout, share_extents};
use cob_graph::Home;

/// Which cells are forgotten.
#[derive(Clone, Copy)]
pub(crate) enum Gone {
    /// The items that have bytes of this item, itself left out.
    Others(u32),
    /// An item, and what has bytes of it.
    Lost(u32),
    /// What has some of these bytes.
    Bytes(Extent),
}

/// The item at a place, if there is one.
pub(crate) fn item_at(layout: &Layout, place: u32) -> Option<&Item>
    ensures { option_copied result ≡ item_at layout.now place }
{
    layout.items.get().get(place as usize)
}

// Whether two extents share bytes, by the occurrences of the first. A pack's cell has one.
fn share_bytes(cell: &Extent, extent: &Extent) -> bool
    ensures { result ≡ share_extents extent.now cell.now }
{
    share_extents(cell, extent)
}

fn has_bytes(layout: &Layout, extent: &Extent, place: u32) -> bool
    ensures { result ≡ is_in_extent layout.now extent.now (of_item place) }
{
    match item_at(layout, place) {
        None => false,
        Some(item) => share_bytes(&item.extent(), extent),
    }
}

// whether a cell has some of these bytes
fn is_in_extent(layout: &Layout, extent: &Extent, cell: Home) -> bool
    ensures { result ≡ is_in_extent layout.now extent.now cell }
{
    match cell {
        Home::Item(place) => has_bytes(layout, extent, place),
        Home::Count(_) => false,
    }
}

// whether a cell has bytes of the item at a place
fn is_beside(layout: &Layout, place: u32, cell: Home) -> bool
    ensures { result ≡ is_beside layout.now place cell }
{
    match item_at(layout, place) {
        None => false,
        Some(item) => is_in_extent(layout, &item.extent(), cell),
    }
}

fn is_item(place: u32, cell: Home) -> bool
    ensures { result ≡ is_home cell (of_item place) }
{
    match cell {
        Home::Item(own) => own == place,
        Home::Count(_) => false,
    }
}

fn is_gone(layout: &Layout, gone: Gone, cell: Home) -> bool
    ensures { result ≡ is_gone layout.now gone cell }
{
    match gone {
        Gone::Others(place) => is_beside(layout, place, cell) && !is_item(place, cell),
        Gone::Lost(place) => is_item(place, cell) || is_beside(layout, place, cell),
        Gone::Bytes(extent) => is_in_extent(layout, &extent, cell),
    }
}

fn mark(layout: &Layout, gone: Gone, cells: &[Home], marks: &mut [bool])
    requires { length marks.old ≡ length cells.now }
    ensures { marks.new ≡ map (is_gone layout.now gone) cells.now }
{
    for k in 0..marks.len() {
        marks[k] = is_gone(layout, gone, cells[k]);
    }
}

/// Leaves nothing that the matrix of a pack says of some cells.
pub(crate) fn forget(layout: &Layout, gone: Gone, cells: &[Home], m: &mut [i128])
    requires few { length cells.now ≤ 8 }
    requires m { IsMatrix (length cells.now) m.old }
    ensures value { m.new ≡ forgotten_cells (length cells.now) (is_gone layout.now gone) 1 cells.now m.old }
    ensures matrix { IsMatrix (length cells.now) m.new }
{
    let mut room = [false; 8];
    let marks = &mut room[..cells.len()];
    mark(layout, gone, cells, marks);
    forget_cells(cells.len(), m, marks);
}
