//! Stores of amounts at the cells of a pack.
ghost use Rattle.std.specs.Prelude.{◌≡◌, ◌+◌, ◌-◌, ◌^◌, ◌≤◌, true, length, List, IfSome};
ghost use Rattle.cob_data.specs.declared.extent.Extent.{Extent};
ghost use Rattle.cob_program.specs.Bounds.{is_small};
ghost use Rattle.cob_runs.specs.Contents.{form_at};
ghost use Rattle.cob_calc.specs.Contents.{bound_at};
ghost use Rattle.transfer_ranges.specs.AmountView.{plain_amount};
ghost use Rattle.diff_bounds.specs.Matrix.{IsMatrix};
ghost use Rattle.transfer_ranges.specs.Receivers.{receiver_of};
ghost use Rattle.transfer_ranges.specs.SmallAmounts.{is_small_amount};
ghost use Rattle.transfer_ranges.specs.Working.{CanWork};
ghost use Rattle.cob_graph.specs.declared.homes.Home.TheVariants.{Item as of_item};
ghost use Rattle.cell_steps.specs.Stores.{range_at};
ghost use Rattle.cell_layer.specs.Kept.{latest_of};
ghost use Rattle.diff_steps.specs.Forms as forms;
ghost use Rattle.diff_steps.specs.Packs.{cell_of, decimals_of};
ghost use Rattle.diff_layer.specs.Sizes.{HasSmallTop};
ghost use Rattle.diff_layer.specs.PackWriting.{amount_items, are_written};
ghost use Rattle.diff_layer.specs.Changes.{decimal_in, cell_stored, fitting_stored, store_changed};
ghost use Rattle.diff_layer.specs.Moments.{program_at, known_at};
ghost use Rattle.diff_layer.specs.Views.{plain_pack, HasUnit, taken_at};

use crate::forms::amounts::amount_form;
use crate::forms::cells::unit_of;
use crate::forms::operands::has_operands;
use crate::forms::view::{PackView, cell_in};
use crate::pack::gone::{Gone, forget};
use crate::pack::matrix_storing::{Target, store_at};
use crate::pack::moment::{Moment, Slot};
use cob_graph::Home;
use dec_num::Mode;
use diff_bounds::set_least_matrix;
use transfer_ranges::{Amount, AmountRange, Taken, receiver_at};

// the range of an amount that is a decimal, by what it is worked out of
fn decimal_in(worked: Option<Taken>) -> Option<AmountRange>
    ensures { result ≡ decimal_in worked }
{
    match worked {
        Some(Taken { top, under: None }) => Some(AmountRange::Decimal(top)),
        _ => None,
    }
}

// what the receiver's cell gets
fn store_cell(
    moment: &Moment,
    pack: &PackView,
    m: &mut [i128],
    place: u32,
    mode: Mode,
    amount: Amount,
)
    requires m { IsMatrix (length pack.now.cells.now) m.old }
    requires unit { HasUnit (program_at moment.now).layout pack.now }
    requires own { is_small (bound_at (program_at moment.now).layout place) ≡ true }
    requires sum { is_small_amount (bound_at (program_at moment.now).layout) (plain_amount amount) ≡ true }
    requires top { IfSome moment.now.kept.common HasSmallTop }
    requires can { IfSome moment.now.kept.common (CanWork (plain_amount amount)
        (range_at (program_at moment.now) (known_at moment.now) place)) }
    ensures value { (wrote : List Extent) → moment.now.written ≡ are_written (program_at moment.now).layout wrote
        (amount_items (plain_amount amount.entry))
        → m.new ≡ cell_stored (length pack.now.cells.now) (receiver_of (form_at (program_at moment.now).layout place))
        mode
        (10 ^ (pack.now.decimals - decimals_of (program_at moment.now).layout (of_item place)))
        (decimal_in moment.now.kept.result)
        (forms.amount_form (program_at moment.now) (plain_pack pack.now)
        (taken_at (known_at moment.now) moment.now.kept.common) wrote place (plain_amount amount.entry))
        (cell_of (plain_pack pack.now) (of_item place)) m.old }
    ensures matrix { IsMatrix (length pack.now.cells.now) m.new }
{
    match cell_in(pack, Home::Item(place)) {
        None => {}
        Some(cell) => {
            let form = amount_form(
                &moment.items,
                pack,
                place,
                amount,
                moment.kept.common,
                moment.written,
            );
            let receiver = receiver_at(&moment.items.program.layout, place);
            let unit = unit_of(
                &moment.items.program.layout,
                pack.decimals,
                Home::Item(place),
            );
            let target = Target {
                place: cell + 1,
                unit,
            };
            store_at(
                pack.cells.len(),
                m,
                target,
                form,
                Slot { mode, receiver },
                decimal_in(moment.kept.result),
            );
        }
    }
}

// ---- packs

fn store_fitting(
    moment: &Moment,
    pack: &PackView,
    m: &mut [i128],
    place: u32,
    mode: Mode,
    amount: Amount,
)
    requires m { IsMatrix (length pack.now.cells.now) m.old }
    requires unit { HasUnit (program_at moment.now).layout pack.now }
    requires own { is_small (bound_at (program_at moment.now).layout place) ≡ true }
    requires sum { is_small_amount (bound_at (program_at moment.now).layout) (plain_amount amount) ≡ true }
    requires top { IfSome moment.now.kept.common HasSmallTop }
    requires can { IfSome moment.now.kept.common (CanWork (plain_amount amount)
        (range_at (program_at moment.now) (known_at moment.now) place)) }
    ensures value { (wrote : List Extent) → moment.now.written ≡ are_written (program_at moment.now).layout wrote
        (amount_items (plain_amount amount.entry))
        → m.new ≡ fitting_stored (program_at moment.now) (known_at moment.now) moment.now.kept.common
        (decimal_in moment.now.kept.result) wrote
        (plain_pack pack.now) (length pack.now.cells.now) pack.now.decimals place mode (plain_amount amount.entry)
        m.old }
    ensures matrix { IsMatrix (length pack.now.cells.now) m.new }
{
    if has_operands(&moment.items, amount, moment.written) {
        store_cell(moment, pack, m, place, mode, amount);
        forget(
            &moment.items.program.layout,
            Gone::Others(place),
            pack.cells,
            m,
        );
    } else {
        set_least_matrix(pack.cells.len(), m);
    }
}

/// Makes of a pack's matrix what a store makes of it, where operands are taken and what the store may do is kept.
pub(crate) fn store(
    moment: &Moment,
    pack: &PackView,
    m: &mut [i128],
    place: u32,
    mode: Mode,
    amount: Amount,
)
    requires m { IsMatrix (length pack.now.cells.now) m.old }
    requires unit { HasUnit (program_at moment.now).layout pack.now }
    requires own { is_small (bound_at (program_at moment.now).layout place) ≡ true }
    requires sum { is_small_amount (bound_at (program_at moment.now).layout) (plain_amount amount) ≡ true }
    requires top { IfSome moment.now.kept.common HasSmallTop }
    requires can { IfSome moment.now.kept.common (CanWork (plain_amount amount)
        (range_at (program_at moment.now) (known_at moment.now) place)) }
    ensures value { (wrote : List Extent) → moment.now.written ≡ are_written (program_at moment.now).layout wrote
        (amount_items (plain_amount amount.entry))
        → m.new ≡ store_changed (program_at moment.now) (known_at moment.now) moment.now.kept.common
        (latest_of moment.now.kept) wrote
        (plain_pack pack.now) (length pack.now.cells.now) pack.now.decimals place mode (plain_amount amount.entry)
        m.old }
    ensures matrix { IsMatrix (length pack.now.cells.now) m.new }
{
    if !moment.kept.may_fail {
        store_fitting(moment, pack, m, place, mode, amount);
    } else if moment.kept.may_fit {
        forget(
            &moment.items.program.layout,
            Gone::Lost(place),
            pack.cells,
            m,
        );
    }
}
