//! Forms of subscripts, and whether bounds of them are those of occurrences.
ghost use Rattle.std.specs.Prelude.{◌≡◌, ◌≤◌, ◌*◌, ◌^◌, pos, int_le, length, true, [], None, IfSome};
ghost use Rattle.cob_program.specs.Bounds.{is_small};
ghost use Rattle.cob_calc.specs.Contents.{bound_at};
ghost use Rattle.interval_domain.specs.Elements.{CellsFit};
ghost use Rattle.cell_steps.specs.OwnRanges.{owns};
ghost use Rattle.diff_steps.specs.Clearing.{high_in_table, low_in_table};
ghost use Rattle.diff_steps.specs.Forms as forms;
ghost use Rattle.diff_layer.specs.Forms.{IsFormOf};
ghost use Rattle.diff_layer.specs.Views.{plain_pack, HasUnit, program_of, known_in, taken_at};

use crate::forms::amounts::own_form;
use crate::forms::cells::item_decimals;
use crate::forms::view::PackView;
use cell_layer::KnownItems;
use dec_num::pow10;
use diff_bounds::Lin;

/// The form of a subscript's item. One with decimals has none.
pub fn subscript_form(items: &KnownItems, pack: &PackView, item: u32) -> Option<Lin>
    requires unit { HasUnit (program_of items.now).layout pack.now }
    requires fits { CellsFit (owns (program_of items.now)) (known_in items.now) }
    requires small { is_small (bound_at (program_of items.now).layout item) ≡ true }
    ensures value { result ≡ forms.subscript_form (program_of items.now) (plain_pack pack.now)
        (taken_at (known_in items.now) None) [] item }
    ensures of_pack { IfSome result (IsFormOf (length pack.now.cells.now)) }
{
    if item_decimals(&items.program.layout, item) == 0 {
        return own_form(items, pack, item);
    }
    None
}

// whether a number is at most a count times a power of ten
fn is_at_most(units: i128, count: u32, power: u32) -> bool
    requires power { power ≤ 18 }
    ensures { result ≡ int_le units (pos (count * 10 ^ power)) }
{
    match i128::from(count).checked_mul(pow10(power)) {
        Some(most) => units <= most,
        None => true,
    }
}

/// Whether a bound of a subscript, in units of so many decimals, is at most the number of a table's last occurrence.
pub fn is_in_table(count: u32, decimals: u32, bound: Option<i128>) -> bool
    requires decimals { decimals ≤ 18 }
    ensures { result ≡ high_in_table count decimals bound }
{
    match bound {
        Some(units) => is_at_most(units, count, decimals),
        None => false,
    }
}

/// Whether a bound of a subscript's negative, in units of so many decimals, is at most that of the first occurrence's
/// number.
pub fn is_above_none(decimals: u32, bound: Option<i128>) -> bool
    requires decimals { decimals ≤ 18 }
    ensures { result ≡ low_in_table decimals bound }
{
    match bound {
        Some(units) => units <= -pow10(decimals),
        None => false,
    }
}
