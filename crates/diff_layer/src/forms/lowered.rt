//! Forms of counters.
ghost use Rattle.std.specs.Prelude.{◌≡◌, length, ◌<◌, ◌^◌, pos, neg_ℤ, List, Option, IfSome};
ghost use Rattle.cob_data.specs.declared.extent.Extent.{Extent};
ghost use Rattle.interval_domain.specs.Corners.{interval};
ghost use Rattle.diff_bounds.specs.Forms.{if_small};
ghost use Rattle.sum_ranges.specs.Ranged.{ranged};
ghost use Rattle.sum_ranges.specs.Sizes.{IsSmallRange};
ghost use Rattle.sum_forms.specs.Constants as constants;
ghost use Rattle.sum_forms.specs.Values.{IsForm};
ghost use Rattle.transfer_ranges.specs.declared.amounts.Taken as declared_taken;
ghost use Rattle.interval_domain.specs.Elements.{CellsFit};
ghost use Rattle.cob_graph.specs.declared.homes.Home.TheVariants.{Count as of_count};
ghost use Rattle.cob_graph.specs.Homes.{homes_of};
ghost use Rattle.cell_steps.specs.OwnRanges.{owns};
ghost use Rattle.cell_steps.specs.Cells.{units_of};
ghost use Rattle.diff_steps.specs.Forms as forms;
ghost use Rattle.diff_steps.specs.Packs.{cell_of};
ghost use Rattle.diff_layer.specs.Forms.{IsFormOf};
ghost use Rattle.diff_layer.specs.Views.{plain_pack, HasUnit, program_of, known_in, taken_at};

use crate::forms::small_forms::added;
use crate::forms::view::{PackView, cell_in};
use cell_layer::{KnownItems, count_units};
use cob_graph::Home;
use diff_bounds::Lin;
use sum_forms::{cell_form, range_form};
use sum_ranges::{Ranged, point};

fn count_range(items: &KnownItems, statement: u32) -> Ranged
    requires fits { CellsFit (owns (program_of items.now)) (known_in items.now) }
    ensures value { result ≡ ranged (units_of (program_of items.now).layout (homes_of (program_of items.now))
        (known_in items.now) (of_count statement)) 0 }
    ensures small { IsSmallRange result }
{
    Ranged {
        units: count_units(items.program, items.cells, items.row, statement),
        scale: 0,
    }
}

fn counter_form(items: &KnownItems, pack: &PackView, statement: u32) -> Option<Lin>
    requires fits { CellsFit (owns (program_of items.now)) (known_in items.now) }
    ensures value { result ≡ constants.item_form pack.now.decimals (cell_of (plain_pack pack.now) (of_count statement))
        (ranged (units_of (program_of items.now).layout (homes_of (program_of items.now)) (known_in items.now)
        (of_count statement)) 0) }
    ensures good { IfSome result IsForm }
{
    match cell_in(pack, Home::Count(statement)) {
        Some(cell) => Some(cell_form(cell)),
        None => range_form(pack.decimals, count_range(items, statement)),
    }
}

// the constant -1
fn one_less(pack: &PackView) -> Option<Lin>
    ensures value { result ≡ if_small (constants.constant_form
        (interval (neg_ℤ (pos (10 ^ pack.now.decimals))) (neg_ℤ (pos (10 ^ pack.now.decimals))))) }
    ensures good { IfSome result IsForm }
{
    range_form(pack.decimals, point(-1, 0))
}

/// The form of a counter's own number less one.
pub fn lowered_form(items: &KnownItems, pack: &PackView, statement: u32) -> Option<Lin>
    requires unit { HasUnit (program_of items.now).layout pack.now }
    requires fits { CellsFit (owns (program_of items.now)) (known_in items.now) }
    ensures value { (common : Option declared_taken.Taken) (wrote : List Extent) →
        result ≡ forms.lowered_form (program_of items.now) (plain_pack pack.now) (taken_at (known_in items.now) common)
        wrote statement }
    ensures of_pack { IfSome result (IsFormOf (length pack.now.cells.now)) }
{
    added(counter_form(items, pack, statement), one_less(pack))
}
