//! What subscripts make of a row.
ghost use Rattle.std.specs.Prelude.{◌≡◌, true, false, Some, None};
ghost use Rattle.cob_program.specs.Bounds.{is_small};
ghost use Rattle.cob_calc.specs.Contents.{bound_at};
ghost use Rattle.cell_steps.specs.Steps.{shows_nothing, after_subscript, after_index};
ghost use Rattle.cell_layer.specs.SmallCells.{has_small_cells};
ghost use Rattle.cell_layer.specs.RowWalks.{program_in, moment, latest_in, CanGoOn, GoesOn};

use crate::edge::row_walk::Walk;
use crate::row::pictures::is_table;
use crate::row::reads::read_item;
use crate::row::subscripts::index_item;

impl<'a> Walk<'a> {
    // A turn that may not come shows nothing, and neither would one occurrence of a table's item.
    fn shows_nothing(&self, last: bool, item: u32) -> bool
        ensures { result ≡ shows_nothing (program_in self.now) last item (moment self.now) }
    {
        (self.kept.may_zero || (last && self.kept.any_fail)) || is_table(&self.program.layout, item)
    }

    /// A subscript's item is read.
    pub(crate) fn subscript(&mut self, last: bool, item: u32)
        requires can { CanGoOn self.old }
        requires small_cells { has_small_cells (program_in self.old) ≡ true }
        ensures goes_on { GoesOn self.old self.new }
        ensures same { after_subscript (program_in self.old) last item (moment self.old) ≡ moment self.new }
        ensures latest { latest_in self.new ≡ latest_in self.old }
    {
        if self.shows_nothing(last, item) {
            return;
        }
        read_item(self.program, self.cells, self.row, item);
    }

    /// Its number is that of an occurrence of a table. Answers false where none of its numbers is.
    pub(crate) fn index(&mut self, last: bool, item: u32, count: u32) -> bool
        requires can { CanGoOn self.old }
        requires small { is_small (bound_at (program_in self.old).layout item) ≡ true }
        ensures goes_on { GoesOn self.old self.new }
        ensures on { result ≡ true → after_index (program_in self.old) last item count (moment self.old) ≡ Some (moment self.new) }
        ensures off { result ≡ false → after_index (program_in self.old) last item count (moment self.old) ≡ None }
        ensures latest { latest_in self.new ≡ latest_in self.old }
    {
        if self.shows_nothing(last, item) {
            return true;
        }
        index_item(self.program, self.cells, self.row, item, count)
    }
}
