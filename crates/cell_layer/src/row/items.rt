//! What a row tells of items.
ghost use Rattle.std.specs.Prelude.{◌≡◌, ◌≤◌, true, is_some};
ghost use Rattle.cob_program.specs.ActView.{plain_program};
ghost use Rattle.cob_program.specs.Bounds.{of_digits, is_small};
ghost use Rattle.cob_calc.specs.Contents.{bound_at};
ghost use Rattle.sum_ranges.specs.Ranged.{ranged};
ghost use Rattle.interval_domain.specs.Rows.{cells_of};
ghost use Rattle.cell_steps.specs.OwnRanges.{picture_range};
ghost use Rattle.cob_graph.specs.Homes.{homes_of};
ghost use Rattle.cell_steps.specs.Cells.{known_or, is_numeric};
ghost use Rattle.cell_steps.specs.Stores.{range_at};
ghost use Rattle.cell_layer.specs.ProgramRows.{IsRowOf};
ghost use Rattle.cell_layer.specs.ShortRanges.{if_small, short_range_at};

use crate::row::knowing::known_of_item;
use crate::row::pictures::{Picture, is_small, picture_at, picture_range};
use cob_program::Program;
use cob_runs::Cell;
use interval_domain::Interval;
use sum_ranges::{Ranged, Ranges, point};
use transfer_ranges::Items;

/// What a row of a program's cells tells of its items. An item with more digits than the arithmetic works with is said to
/// be 0, so that its range must not be asked for.
#[derive(Drop)]
pub struct KnownItems<'a> {
    pub program: &'a Program,
    pub cells: &'a [Cell],
    pub row: &'a [i128],
    pub ghost row_of: { IsRowOf (plain_program program.now) cells.now row.now },
}

fn known_or(own: Picture, known: Option<Interval>) -> Interval
    requires { own.digits ≤ 37 }
    ensures { result ≡ known_or (picture_range own.digits own.signed) known }
{
    match known {
        None => picture_range(own.digits, own.signed),
        Some(units) => units,
    }
}

#[tactic(auto, using(crate::proofs::Digits::few_digits))]
fn range_by(own: Picture, known: Option<Interval>) -> Ranged
    ensures { result ≡ if_small (is_small (of_digits own.digits own.scale)) (ranged (known_or (picture_range own.digits own.signed) known) own.scale) }
{
    if is_small(own.digits, own.scale) {
        Ranged {
            units: known_or(own, known),
            scale: own.scale,
        }
    } else {
        point(0, own.scale)
    }
}

impl<'a> Ranges for KnownItems<'a> {
    ghost range_at = { λ k. short_range_at (plain_program k.program.now) (cells_of k.row.now) };

    ghost bound_at = { λ k. bound_at k.program.now.layout };

    fn range(&self, place: u32) -> Ranged {
        let own = picture_at(&self.program.layout, place);
        range_by(
            own,
            known_of_item(self.program, self.cells, self.row, place),
        )
    }
}

impl<'a> Items for KnownItems<'a> {
    ghost numeric_at = { λ k. is_numeric k.program.now.layout (homes_of (plain_program k.program.now)) (cells_of k.row.now) };

    fn is_numeric(&self, place: u32) -> bool {
        known_of_item(self.program, self.cells, self.row, place).is_some()
    }
}

/// The range of an item that the arithmetic works with.
pub fn item_range(program: &Program, cells: &[Cell], row: &[i128], place: u32) -> Ranged
    requires row { IsRowOf (plain_program program.now) cells.now row.now }
    requires small { is_small (bound_at program.now.layout place) ≡ true }
    ensures { result ≡ range_at (plain_program program.now) (cells_of row.now) place }
{
    let items = KnownItems {
        program,
        cells,
        row,
    };
    items.range(place)
}

/// Whether an item is known to be numeric.
pub fn item_is_numeric(program: &Program, cells: &[Cell], row: &[i128], place: u32) -> bool
    requires row { IsRowOf (plain_program program.now) cells.now row.now }
    ensures { result ≡ is_numeric program.now.layout (homes_of (plain_program program.now)) (cells_of row.now) place }
{
    known_of_item(program, cells, row, place).is_some()
}
