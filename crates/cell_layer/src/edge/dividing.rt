//! Divisors.
ghost use Rattle.std.specs.Prelude.{◌≡◌, ◌||◌, not, true, false, Some, None};
ghost use Rattle.cob_program.specs.ActView.{plain_act, plain_program};
ghost use Rattle.cob_program.specs.Bounds.{is_small_atom};
ghost use Rattle.cob_calc.specs.Contents.{bound_at};
ghost use Rattle.cob_edge_parts.specs.Parts.{has_phrase};
ghost use Rattle.sum_ranges.specs.SumRanges.{atom_range};
ghost use Rattle.sum_ranges.specs.Vanishing.{holds_zero, may_be_zero};
ghost use Rattle.edge_parts.specs.PartView.{plain_divisor};
ghost use Rattle.interval_domain.specs.Elements.{CellsFit};
ghost use Rattle.interval_domain.specs.Rows.{cells_of};
ghost use Rattle.cell_steps.specs.OwnRanges.{owns};
ghost use Rattle.cell_steps.specs.Steps.{can_divide, after_divide};
ghost use Rattle.cell_steps.specs.Stores.{range_at};
ghost use Rattle.cell_layer.specs.ProgramRows.{IsRowOf};
ghost use Rattle.cell_layer.specs.RowWalks.{program_in, act_done, moment, latest_in, CanGoOn, GoesOn};

use crate::edge::row_walk::Walk;
use crate::row::sums::{divisor_range, holds_zero, may_be_zero};
use cob_program::{Act, Program};
use cob_runs::Cell;
use edge_parts::{Divisor, has_phrase, is_handled};
use sum_ranges::Ranged;

// Whether a divisor has numbers other than 0.
fn can_divide(range: Option<Ranged>) -> bool
    ensures { result ≡ can_divide range }
{
    match range {
        None => false,
        Some(range) => !(0 <= range.units.low && range.units.high <= 0),
    }
}

impl<'a> Walk<'a> {
    // the range of a divisor; nothing where one in it is 0 alone
    fn range_of(&self, divisor: Divisor) -> Option<Ranged>
        requires can { CanGoOn self.now }
        requires small { is_small_atom (bound_at (program_in self.now).layout) (plain_divisor divisor) ≡ true }
        ensures { result ≡ atom_range (range_at (program_in self.now) (cells_of self.now.row.now)) (plain_divisor divisor.entry) }
    {
        divisor_range(self.program, self.cells, self.row, divisor)
    }

    // whether a divisor may be 0, or one that stands in it
    fn may_vanish(&self, divisor: Divisor) -> bool
        requires can { CanGoOn self.now }
        requires small { is_small_atom (bound_at (program_in self.now).layout) (plain_divisor divisor) ≡ true }
        ensures { result ≡ may_be_zero (range_at (program_in self.now) (cells_of self.now.row.now)) (plain_divisor divisor.entry) }
    {
        may_be_zero(self.program, self.cells, self.row, divisor)
    }

    /// Divides: on an edge of size errors the divisor may be 0, on others it isn't.
    pub fn divide(&mut self, divisor: Divisor) -> bool
        requires can { CanGoOn self.old }
        requires small { is_small_atom (bound_at (program_in self.old).layout) (plain_divisor divisor) ≡ true }
        ensures goes_on { GoesOn self.old self.new }
        ensures on { result ≡ true → after_divide (program_in self.old) (act_done self.old) self.old.action (plain_divisor divisor.entry) (moment self.old)
            ≡ Some (moment self.new) }
        ensures off { result ≡ false → after_divide (program_in self.old) (act_done self.old) self.old.action (plain_divisor divisor.entry) (moment self.old)
            ≡ None }
        ensures latest { latest_in self.new ≡ latest_in self.old }
    {
        if is_handled(self.act, self.action) {
            let vanishes = self.may_vanish(divisor);
            self.kept.may_zero = self.kept.may_zero || vanishes;
            true
        } else {
            can_divide(self.range_of(divisor))
        }
    }
}

/// Whether the divisor isn't 0, or the statement has the phrase for it.
pub(crate) fn divisor_clears(
    program: &Program,
    cells: &[Cell],
    row: &[i128],
    act: &Act,
    divisor: Divisor,
) -> bool
    requires row { IsRowOf (plain_program program.now) cells.now row.now }
    requires fits { CellsFit (owns (plain_program program.now)) (cells_of row.now) }
    requires small { is_small_atom (bound_at program.now.layout) (plain_divisor divisor) ≡ true }
    ensures { result ≡ (has_phrase (plain_act act.now)
        || not (holds_zero (atom_range (range_at (plain_program program.now) (cells_of row.now)) (plain_divisor divisor.entry)))) }
{
    has_phrase(act) || !holds_zero(divisor_range(program, cells, row, divisor))
}
