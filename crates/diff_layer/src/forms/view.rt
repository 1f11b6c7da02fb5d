//! Where the cells of a pack stand.
ghost use Rattle.std.specs.Prelude.{◌≡◌, ◌<◌, ◌≤◌, length, IfSome};
ghost use Rattle.cob_graph.specs.declared.homes.Home.TheVariants.{Item as of_item};
ghost use Rattle.diff_steps.specs.Packs.{cell_of};

use crate::forms::cells::is_same;
use cob_graph::Home;
use sum_forms::PackCells;

/// A pack: its cells in turn, at most eight, and the decimals of its unit.
#[derive(Drop)]
pub struct PackView<'a> {
    pub cells: &'a [Home],
    pub decimals: u32,
    pub ghost few: { length cells.now ≤ 8 },
    pub ghost small: { decimals ≤ 37 },
}

// the place from 0 on of the first cell that is of the same item or counter
fn place_of(cells: &[Home], sought: Home) -> Option<usize>
    ensures value { result ≡ cell_of cells.now sought }
    ensures within { IfSome result (λ k. k < length cells.now) }
{
    for k in 0..cells.len() {
        if is_same(cells[k], sought) {
            return Some(k);
        }
    }
    None
}

/// The place of the pack's cell that is of the same item or counter, cells counted from 0.
pub fn cell_in(pack: &PackView, sought: Home) -> Option<usize>
    ensures value { result ≡ cell_of pack.now.cells.now sought }
    ensures within { IfSome result (λ k. k < length pack.now.cells.now) }
    ensures few { IfSome result (λ k. k < 8) }
{
    place_of(pack.cells, sought)
}

impl<'a> PackCells for PackView<'a> {
    ghost cell_at = { λ pack place. cell_of pack.cells.now (of_item place) };

    ghost decimals_of = { λ pack. pack.decimals };

    fn cell(&self, place: u32) -> Option<usize> {
        cell_in(self, Home::Item(place))
    }

    fn decimals(&self) -> u32 {
        self.decimals
    }
}
