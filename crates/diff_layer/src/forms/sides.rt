//! Forms of what is compared with 0: the difference of two sums, and a divisor.
ghost use Rattle.std.specs.Prelude.{◌≡◌, length, true, IfSome};
ghost use Rattle.cob_program.specs.Bounds.{is_small_sum, is_small_atom};
ghost use Rattle.cob_program.specs.SumView.{plain_sum};
ghost use Rattle.cob_calc.specs.Contents.{bound_at};
ghost use Rattle.edge_parts.specs.PartView.{plain_divisor};
ghost use Rattle.sum_ranges.specs.SumRanges as ranges;
ghost use Rattle.sum_forms.specs.SumForms.{atom_form};
ghost use Rattle.interval_domain.specs.Elements.{CellsFit};
ghost use Rattle.cell_steps.specs.OwnRanges.{owns};
ghost use Rattle.cell_steps.specs.Stores.{range_at};
ghost use Rattle.diff_steps.specs.Guards as guards;
ghost use Rattle.diff_steps.specs.Guards.{has_decimals};
ghost use Rattle.diff_steps.specs.Packs as packs;
ghost use Rattle.diff_layer.specs.Forms.{IsFormOf};
ghost use Rattle.diff_layer.specs.Views.{plain_pack, item_cell, HasUnit, program_of, known_in};

use crate::forms::small_forms::{added, turned};
use crate::forms::sums::{form_of_divisor, form_of_sum};
use crate::forms::view::PackView;
use cell_layer::KnownItems;
use cob_program::Sum;
use diff_bounds::Lin;
use edge_parts::Divisor;
use sum_ranges::{Ranged, sum_range};

/// The form of a sum less another one, over the pack's cells and in its unit (Miné 2001). None where a sum has none, or
/// where a number of it isn't below 10^37 in absolute value.
pub fn difference_form(items: &KnownItems, pack: &PackView, left: &Sum, right: &Sum) -> Option<Lin>
    requires unit { HasUnit (program_of items.now).layout pack.now }
    requires fits { CellsFit (owns (program_of items.now)) (known_in items.now) }
    requires left { is_small_sum (bound_at (program_of items.now).layout) (plain_sum left.now) ≡ true }
    requires right { is_small_sum (bound_at (program_of items.now).layout) (plain_sum right.now) ≡ true }
    ensures value { result ≡ guards.difference_form
        (packs.pack_decimals (program_of items.now).layout (plain_pack pack.now)) (item_cell pack.now)
        (range_at (program_of items.now) (known_in items.now)) (plain_sum left.now) (plain_sum right.now) }
    ensures of_pack { IfSome result (IsFormOf (length pack.now.cells.now)) }
{
    let more = form_of_sum(items, pack, left);
    let less = form_of_sum(items, pack, right);
    added(more, turned(less))
}

fn range_of_sum(items: &KnownItems, sum: &Sum) -> Option<Ranged>
    requires fits { CellsFit (owns (program_of items.now)) (known_in items.now) }
    requires small { is_small_sum (bound_at (program_of items.now).layout) (plain_sum sum.now) ≡ true }
    ensures { result ≡ ranges.sum_range (range_at (program_of items.now) (known_in items.now)) (plain_sum sum.now) }
{
    sum_range(items, sum)
}

fn is_fine(items: &KnownItems, pack: &PackView, sum: &Sum) -> bool
    requires fits { CellsFit (owns (program_of items.now)) (known_in items.now) }
    requires small { is_small_sum (bound_at (program_of items.now).layout) (plain_sum sum.now) ≡ true }
    ensures { result ≡ has_decimals pack.now.decimals (item_cell pack.now)
        (range_at (program_of items.now) (known_in items.now))
        (ranges.sum_range (range_at (program_of items.now) (known_in items.now)) (plain_sum sum.now)) }
{
    match range_of_sum(items, sum) {
        None => false,
        Some(range) => range.scale <= pack.decimals,
    }
}

/// Whether both sums are whole numbers of the pack's unit: each has a range, of no more decimals than the pack.
pub fn are_fine(items: &KnownItems, pack: &PackView, left: &Sum, right: &Sum) -> bool
    requires unit { HasUnit (program_of items.now).layout pack.now }
    requires fits { CellsFit (owns (program_of items.now)) (known_in items.now) }
    requires left { is_small_sum (bound_at (program_of items.now).layout) (plain_sum left.now) ≡ true }
    requires right { is_small_sum (bound_at (program_of items.now).layout) (plain_sum right.now) ≡ true }
    ensures { result ≡ guards.are_fine (packs.pack_decimals (program_of items.now).layout (plain_pack pack.now))
        (item_cell pack.now)
        (range_at (program_of items.now) (known_in items.now)) (plain_sum left.now) (plain_sum right.now) }
{
    is_fine(items, pack, left) && is_fine(items, pack, right)
}

/// The form of a divisor, over the pack's cells and in its unit. None where it has none, or where a number of it isn't
/// below 10^37 in absolute value.
pub fn divisor_form(items: &KnownItems, pack: &PackView, divisor: Divisor) -> Option<Lin>
    requires unit { HasUnit (program_of items.now).layout pack.now }
    requires fits { CellsFit (owns (program_of items.now)) (known_in items.now) }
    requires small { is_small_atom (bound_at (program_of items.now).layout) (plain_divisor divisor) ≡ true }
    ensures value { result ≡ atom_form (packs.pack_decimals (program_of items.now).layout (plain_pack pack.now))
        (item_cell pack.now)
        (range_at (program_of items.now) (known_in items.now)) (plain_divisor divisor.entry) }
    ensures of_pack { IfSome result (IsFormOf (length pack.now.cells.now)) }
{
    form_of_divisor(items, pack, divisor)
}
