//! What a part makes of a row.
ghost use Rattle.std.specs.Prelude.{◌≡◌, true, false, Some, None};
ghost use Rattle.cob_program.specs.LogicView.{plain_test};
ghost use Rattle.cob_calc.specs.Contents.{bound_at};
ghost use Rattle.cob_edge_parts.specs.Parts as part;
ghost use Rattle.edge_parts.specs.PartView.{plain_part};
ghost use Rattle.transfer_ranges.specs.AmountView.{plain_amount};
ghost use Rattle.transfer_ranges.specs.Small.{is_small_test};
ghost use Rattle.transfer_ranges.specs.SmallAmounts.{has_small_sum};
ghost use Rattle.interval_domain.specs.Rows.{cells_of};
ghost use Rattle.cob_graph.specs.declared.homes.Home.TheVariants.{Count as of_count};
ghost use Rattle.cell_steps.specs.Seen.{with_cells};
ghost use Rattle.cell_steps.specs.Steps.{after_count, after_down, after_read, counted_cells, read_cells, guarded_cells, with_cells_if};
ghost use Rattle.cell_laws.specs.Sizes.{IsSmallPart, IsSmallStore};
ghost use Rattle.cell_layer.specs.SmallCells.{has_small_cells};
ghost use Rattle.cell_layer.specs.Latest.{latest_behind};
ghost use Rattle.cell_layer.specs.Kept.{seen, latest_of};
ghost use Rattle.cell_layer.specs.Walks.{with_taken_small, step_small, CanStep};
ghost use Rattle.cell_layer.specs.RowWalks.{program_in, act_done, moment, latest_in, CanGoOn, GoesOn};

use crate::edge::kept::{Kept, taken};
use crate::edge::row_walk::Walk;
use crate::row::counters;
use crate::row::forgetting::{bytes_from, forget_extent};
use crate::row::pictures::is_table;
use crate::row::reads::read_item;
use crate::row::tests_of::guard_row;
use cob_program::Test;
use dec_num::Mode;
use edge_parts::EdgePart;
use transfer_ranges::Amount;

impl<'a> Walk<'a> {
    // what is kept once operands are taken, before the first part that writes
    fn with_operands(&self) -> Kept
        requires sum { has_small_sum (bound_at (program_in self.now).layout) (act_done self.now) ≡ true }
        requires can { CanGoOn self.now }
        ensures same { seen self.now.row.now result ≡ with_taken_small (program_in self.now) (act_done self.now) self.now.action (moment self.now) }
        ensures written { result.written ≡ true }
        ensures latest { latest_of result ≡ latest_in self.now }
        ensures can { CanStep (program_in self.now) (act_done self.now) self.now.action (seen self.now.row.now result) }
    {
        taken(
            self.program,
            self.cells,
            self.row,
            self.act,
            self.action,
            self.kept,
        )
    }

    // An item is read. Behind a divisor that may have been 0 it may not have been; of a table one occurrence alone is.
    fn read(&mut self, place: u32)
        requires can { CanGoOn self.old }
        requires small_cells { has_small_cells (program_in self.old) ≡ true }
        ensures goes_on { GoesOn self.old self.new }
        ensures same { after_read (program_in self.old) place (moment self.old) ≡ moment self.new }
        ensures latest { latest_in self.new ≡ latest_in self.old }
    {
        if self.kept.may_zero || is_table(&self.program.layout, place) {
            return;
        }
        read_item(self.program, self.cells, self.row, place);
    }

    fn read_count(&mut self, statement: u32)
        requires can { CanGoOn self.old }
        ensures goes_on { GoesOn self.old self.new }
        ensures same { with_cells (moment self.old) (read_cells (program_in self.old) (of_count statement) (cells_of self.old.row.now)) ≡ moment self.new }
        ensures latest { latest_in self.new ≡ latest_in self.old }
    {
        counters::read_count(self.program, self.cells, self.row, statement);
    }

    fn guard(&mut self, test: &Test, holds: bool) -> bool
        requires can { CanGoOn self.old }
        requires small { is_small_test (bound_at (program_in self.old).layout) (program_in self.old).layout (plain_test test.now) ≡ true }
        requires small_cells { has_small_cells (program_in self.old) ≡ true }
        ensures goes_on { GoesOn self.old self.new }
        ensures on { result ≡ true → with_cells_if (moment self.old) (guarded_cells (program_in self.old) (plain_test test.now) holds (cells_of self.old.row.now))
            ≡ Some (moment self.new) }
        ensures off { result ≡ false → with_cells_if (moment self.old) (guarded_cells (program_in self.old) (plain_test test.now) holds (cells_of self.old.row.now))
            ≡ None }
        ensures latest { latest_in self.new ≡ latest_in self.old }
    {
        guard_row(self.program, self.cells, self.row, test, holds)
    }

    fn bytes(&mut self, offset: u32, length: u32)
        requires sum { has_small_sum (bound_at (program_in self.old).layout) (act_done self.old) ≡ true }
        requires can { CanGoOn self.old }
        ensures goes_on { GoesOn self.old self.new }
        ensures same { step_small (program_in self.old) (act_done self.old) self.old.action (part.bytes_in offset length) (moment self.old)
            ≡ Some (moment self.new) }
        ensures latest { latest_in self.new ≡ latest_in self.old }
    {
        self.kept = self.with_operands();
        forget_extent(
            self.program,
            self.cells,
            self.row,
            &bytes_from(offset, length),
        );
    }

    fn put(&mut self, place: u32, mode: Mode, amount: Amount) -> bool
        requires small { IsSmallStore (program_in self.old) (act_done self.old) self.old.action place (plain_amount amount) }
        requires can { CanGoOn self.old }
        ensures goes_on { GoesOn self.old self.new }
        ensures on { result ≡ true → step_small (program_in self.old) (act_done self.old) self.old.action (part.store place mode (plain_amount amount.entry)) (moment self.old)
            ≡ Some (moment self.new) }
        ensures off { result ≡ false → step_small (program_in self.old) (act_done self.old) self.old.action (part.store place mode (plain_amount amount.entry)) (moment self.old)
            ≡ None }
        ensures latest { latest_in self.new ≡ latest_behind (program_in self.old) (act_done self.old) self.old.action (part.store place mode (plain_amount amount.entry))
            (moment self.old) (latest_in self.old) }
    {
        self.kept = self.with_operands();
        self.store(place, mode, amount)
    }

    fn set_count(&mut self, statement: u32) -> bool
        requires sum { has_small_sum (bound_at (program_in self.old).layout) (act_done self.old) ≡ true }
        requires can { CanGoOn self.old }
        ensures goes_on { GoesOn self.old self.new }
        ensures on { result ≡ true → after_count (program_in self.old) statement (with_taken_small (program_in self.old) (act_done self.old) self.old.action (moment self.old))
            ≡ Some (moment self.new) }
        ensures off { result ≡ false → after_count (program_in self.old) statement (with_taken_small (program_in self.old) (act_done self.old) self.old.action (moment self.old))
            ≡ None }
        ensures latest { latest_in self.new ≡ latest_in self.old }
    {
        self.kept = self.with_operands();
        match self.kept.common {
            None => false,
            Some(taken) => counters::set_count(
                self.program,
                self.cells,
                self.row,
                statement,
                taken.top.units,
            ),
        }
    }

    fn count_down(&mut self, statement: u32) -> bool
        requires can { CanGoOn self.old }
        ensures goes_on { GoesOn self.old self.new }
        ensures on { result ≡ true → after_down (program_in self.old) statement (moment self.old) ≡ Some (moment self.new) }
        ensures off { result ≡ false → after_down (program_in self.old) statement (moment self.old) ≡ None }
        ensures latest { latest_in self.new ≡ latest_in self.old }
    {
        counters::count_down(self.program, self.cells, self.row, statement)
    }

    // whether any rounds are left
    fn guard_count(&mut self, statement: u32, left: bool) -> bool
        requires can { CanGoOn self.old }
        ensures goes_on { GoesOn self.old self.new }
        ensures on { result ≡ true → with_cells_if (moment self.old) (counted_cells (program_in self.old) statement left (cells_of self.old.row.now))
            ≡ Some (moment self.new) }
        ensures off { result ≡ false → with_cells_if (moment self.old) (counted_cells (program_in self.old) statement left (cells_of self.old.row.now))
            ≡ None }
        ensures latest { latest_in self.new ≡ latest_in self.old }
    {
        counters::guard_count(self.program, self.cells, self.row, statement, left)
    }

    fn step(&mut self, part: EdgePart) -> bool
        requires small { IsSmallPart (program_in self.old) (act_done self.old) self.old.action (plain_part part) }
        requires can { CanGoOn self.old }
        requires small_cells { has_small_cells (program_in self.old) ≡ true }
        ensures goes_on { GoesOn self.old self.new }
        ensures on { result ≡ true → step_small (program_in self.old) (act_done self.old) self.old.action (plain_part part.entry) (moment self.old)
            ≡ Some (moment self.new) }
        ensures off { result ≡ false → step_small (program_in self.old) (act_done self.old) self.old.action (plain_part part.entry) (moment self.old)
            ≡ None }
        ensures latest { latest_in self.new ≡ latest_behind (program_in self.old) (act_done self.old) self.old.action (plain_part part.entry) (moment self.old) (latest_in self.old) }
    {
        match part {
            EdgePart::Read(place) => {
                self.read(place);
                true
            }
            EdgePart::Unread => false,
            EdgePart::Subscript { last, item } => {
                self.subscript(last, item);
                true
            }
            EdgePart::Index { last, item, count } => self.index(last, item, count),
            EdgePart::Divide(divisor) => self.divide(divisor),
            EdgePart::Store { item, mode, amount } => self.put(item, mode, amount),
            EdgePart::Bytes { offset, length } => {
                self.bytes(offset, length);
                true
            }
            EdgePart::Guard { test, holds } => self.guard(test, holds),
            EdgePart::ReadCount(number) => {
                self.read_count(number);
                true
            }
            EdgePart::SetCount { number, .. } => self.set_count(number),
            EdgePart::CountDown(number) => self.count_down(number),
            EdgePart::GuardCount { number, left } => self.guard_count(number, left),
        }
    }

    /// Passes a part. Answers false where no run passes it; what is left of the row then isn't told.
    pub fn pass(&mut self, part: EdgePart) -> bool
        requires small { IsSmallPart (program_in self.old) (act_done self.old) self.old.action (plain_part part) }
        requires can { CanGoOn self.old }
        requires small_cells { has_small_cells (program_in self.old) ≡ true }
        ensures goes_on { GoesOn self.old self.new }
        ensures on { result ≡ true → step_small (program_in self.old) (act_done self.old) self.old.action (plain_part part.entry) (moment self.old)
            ≡ Some (moment self.new) }
        ensures off { result ≡ false → step_small (program_in self.old) (act_done self.old) self.old.action (plain_part part.entry) (moment self.old)
            ≡ None }
        ensures latest { latest_in self.new ≡ latest_behind (program_in self.old) (act_done self.old) self.old.action (plain_part part.entry) (moment self.old) (latest_in self.old) }
        ensures can { result ≡ true → CanStep (program_in self.old) (act_done self.old) self.old.action (moment self.new) }
    {
        self.step(part)
    }
}
