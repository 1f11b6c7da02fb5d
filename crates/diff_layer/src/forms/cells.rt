//! What the cells of a pack are of, and their units.
ghost use Rattle.std.specs.Prelude.{◌≡◌, ◌-◌, ◌^◌, ◌≤◌, pos};
ghost use Rattle.cob_runs.specs.Contents.{form_at, scale_of};
ghost use Rattle.cob_graph.specs.Homes.{is_home};
ghost use Rattle.diff_steps.specs.Packs as packs;
ghost use Rattle.diff_steps.specs.Packs.{decimals_of};

use cob_data::Layout;
use cob_graph::Home;
use dec_num::pow10;
use transfer_ranges::receiver_at;

/// Whether both are of one item, or of one counter.
pub(crate) fn is_same(one: Home, other: Home) -> bool
    ensures { result ≡ is_home one other }
{
    match (one, other) {
        (Home::Item(place), Home::Item(another)) => place == another,
        (Home::Count(statement), Home::Count(another)) => statement == another,
        _ => false,
    }
}

/// The decimals of an item.
#[tactic(auto, using(crate::proofs::Units::receiver_scale))]
pub(crate) fn item_decimals(layout: &Layout, place: u32) -> u32
    ensures { result ≡ scale_of (form_at layout.now place) }
{
    receiver_at(layout, place).scale
}

/// The decimals of a cell's own unit.
fn decimals_of(layout: &Layout, cell: Home) -> u32
    ensures { result ≡ decimals_of layout.now cell }
{
    match cell {
        Home::Item(place) => item_decimals(layout, place),
        Home::Count(_) => 0,
    }
}

/// The decimals of a pack's unit, which is that of its finest cell.
pub fn pack_decimals(layout: &Layout, cells: &[Home]) -> u32
    ensures { result ≡ packs.pack_decimals layout.now cells.now }
{
    let mut most = 0;
    for k in (0..cells.len()).rev() {
        most = decimals_of(layout, cells[k]).max(most);
    }
    most
}

/// How many of the pack's units, which has so many decimals, are one unit of a cell.
pub fn unit_of(layout: &Layout, decimals: u32, cell: Home) -> i128
    requires { decimals ≤ 37 }
    ensures { result ≡ pos (10 ^ (decimals - decimals_of layout.now cell)) }
{
    pow10(decimals.saturating_sub(decimals_of(layout, cell)))
}
