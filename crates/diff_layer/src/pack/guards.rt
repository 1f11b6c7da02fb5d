//! Tests of numbers, over the cells of a pack.
ghost use Rattle.std.specs.Prelude.{◌≡◌, ◌≤◌, true, length, Option};
ghost use Rattle.cob_program.specs.LogicView.{plain_test};
ghost use Rattle.cob_program.specs.SumView.{plain_sum};
ghost use Rattle.cob_program.specs.Bounds.{is_small_sum};
ghost use Rattle.cob_calc.specs.Contents.{bound_at};
ghost use Rattle.diff_bounds.specs.Matrix.{IsMatrix};
ghost use Rattle.transfer_ranges.specs.Small.{is_small_test};
ghost use Rattle.transfer_ranges.specs.declared.amounts.Taken.{Taken};
ghost use Rattle.interval_domain.specs.Elements.{CellsFit};
ghost use Rattle.cell_steps.specs.OwnRanges.{owns};
ghost use Rattle.cell_steps.specs.Stores.{range_at};
ghost use Rattle.diff_steps.specs.Guards as guards;
ghost use Rattle.diff_layer.specs.Views.{plain_pack, item_cell, HasUnit, program_of, known_in};
ghost use Rattle.diff_layer.specs.Changes.{guard_changed};

use crate::forms::sides::{are_fine, difference_form};
use crate::forms::view::PackView;
use crate::pack::matrix_orders::Outcome;
use cell_layer::KnownItems;
use cob_program::{Sum, Test};

fn relate(
    items: &KnownItems,
    pack: &PackView,
    m: &mut [i128],
    left: &Sum,
    right: &Sum,
    outcome: Outcome,
)
    requires m { IsMatrix (length pack.now.cells.now) m.old }
    requires unit { HasUnit (program_of items.now).layout pack.now }
    requires fits { CellsFit (owns (program_of items.now)) (known_in items.now) }
    requires left { is_small_sum (bound_at (program_of items.now).layout) (plain_sum left.now) ≡ true }
    requires right { is_small_sum (bound_at (program_of items.now).layout) (plain_sum right.now) ≡ true }
    ensures value { m.new ≡ guards.related pack.now.decimals (item_cell pack.now)
        (range_at (program_of items.now) (known_in items.now))
        (length pack.now.cells.now) (plain_sum left.now) outcome.rel (plain_sum right.now) outcome.holds m.old }
    ensures matrix { IsMatrix (length pack.now.cells.now) m.new }
{
    let fine = are_fine(items, pack, left, right);
    let form = difference_form(items, pack, left, right);
    crate::pack::matrix_orders::relate(pack.cells.len(), m, fine, form, outcome);
}

/// Makes of a pack's matrix what a test with such an outcome leaves of it.
pub(crate) fn guard(items: &KnownItems, pack: &PackView, m: &mut [i128], test: &Test, wanted: bool)
    requires m { IsMatrix (length pack.now.cells.now) m.old }
    requires unit { HasUnit (program_of items.now).layout pack.now }
    requires fits { CellsFit (owns (program_of items.now)) (known_in items.now) }
    requires small { is_small_test (bound_at (program_of items.now).layout) (program_of items.now).layout
        (plain_test test.now) ≡ true }
    ensures value { (common : Option Taken) → m.new ≡ guard_changed (program_of items.now) (known_in items.now) common
        (plain_pack pack.now) (length pack.now.cells.now) pack.now.decimals (plain_test test.now) wanted m.old }
    ensures matrix { IsMatrix (length pack.now.cells.now) m.new }
{
    match test {
        Test::Number { left, rel, right } => {
            let outcome = Outcome {
                rel: *rel,
                holds: wanted,
            };
            relate(items, pack, m, left, right, outcome)
        }
        Test::Text { .. } | Test::Member { .. } | Test::Numeric(_) | Test::Always => {}
    }
}
