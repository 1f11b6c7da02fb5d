//! Stores into items.
ghost use Rattle.std.specs.Prelude.{◌≡◌, ◌||◌, ◌&&◌, ◌≤ℤ◌, true, false, if◌then◌else◌, Some, None, IfSome};
ghost use Rattle.std.specs.Option.{option_map};
ghost use Rattle.cob_program.specs.ActView.{plain_act, plain_program};
ghost use Rattle.cob_program.specs.Bounds.{is_small};
ghost use Rattle.cob_runs.specs.Contents.{form_at};
ghost use Rattle.cob_calc.specs.Contents.{bound_at};
ghost use Rattle.cob_edge_parts.specs.Parts.{is_handled};
ghost use Rattle.transfer_ranges.specs.AmountView.{plain_amount};
ghost use Rattle.transfer_ranges.specs.Receivers.{receiver_of};
ghost use Rattle.transfer_ranges.specs.Sizes.{IsReceiver, IsSmallAmount};
ghost use Rattle.transfer_ranges.specs.Working.{CanSettleFor, CanWork, amount_from, units_from, exceeds_from, may_vanish};
ghost use Rattle.interval_domain.specs.Elements.{CellsFit};
ghost use Rattle.interval_domain.specs.Known.{IsOrdered, joined_known};
ghost use Rattle.interval_domain.specs.Rows.{cells_of};
ghost use Rattle.cell_steps.specs.OwnRanges.{owns};
ghost use Rattle.cob_graph.specs.Homes.{homes_of};
ghost use Rattle.cob_graph.specs.declared.homes.Home.TheVariants.{Item as of_item};
ghost use Rattle.cell_steps.specs.Storages.{known_of};
ghost use Rattle.transfer_ranges.specs.EdgeOperands.{is_remainder};
ghost use Rattle.cell_steps.specs.Cells.{is_table};
ghost use Rattle.cell_steps.specs.Stores.{range_at, keeps_receiver, stored, stored_known, receiver_known, stored_cells, stored_element};
ghost use Rattle.cell_laws.specs.Sizes.{IsSmallStore};
ghost use Rattle.cell_layer.specs.ProgramRows.{IsRowOf};
ghost use Rattle.cell_layer.specs.Forgetting.{AreMarks};
ghost use Rattle.cell_layer.specs.Kept.{kept_or_new};
ghost use Rattle.cell_layer.specs.Latest.{ranges_of, outcome};
ghost use Rattle.cell_layer.specs.RowWalks.{program_in, act_done, moment, latest_in, CanGoOn, GoesOn};

use crate::edge::kept::Kept;
use crate::edge::row_walk::Walk;
use crate::row::forgetting::forget_beside;
use crate::row::items::item_range;
use crate::row::knowing::{joined_known, known_of_item, set_item};
use crate::row::pictures::item_at;
use cob_data::Layout;
use cob_program::{Act, Program};
use cob_runs::{Action, Cell};
use cob_tree::Form;
use dec_num::Mode;
use edge_parts::{is_handled, keeps_receiver};
use interval_domain::Interval;
use transfer_ranges::{
    Amount, AmountRange, Stored, Taken, amount_from, may_keep, receiver_at, store_range,
};

// ---- the receiver's cell

// One occurrence is new; of a table the others stay.
fn known_by_kind(table: bool, old: Option<Interval>, units: Interval) -> Option<Interval>
    requires old { IsOrdered old }
    requires ordered { units.low ≤ℤ units.high }
    ensures value { result ≡ (if table then joined_known old (Some units) else Some units) }
    ensures ordered { IsOrdered result }
{
    if table {
        joined_known(old, Some(units))
    } else {
        Some(units)
    }
}

fn known_by_form(
    form: &Form,
    table: bool,
    old: Option<Interval>,
    units: Interval,
) -> Option<Interval>
    requires old { IsOrdered old }
    requires ordered { units.low ≤ℤ units.high }
    ensures value { result ≡ stored_known table form.now old units }
    ensures ordered { IsOrdered result }
{
    match form {
        Form::Number { .. } => known_by_kind(table, old, units),
        Form::Group | Form::Text { .. } | Form::Edited { .. } => None,
    }
}

// What is known of an item of which one occurrence got a value.
fn stored_known(
    layout: &Layout,
    place: u32,
    old: Option<Interval>,
    units: Interval,
) -> Option<Interval>
    requires old { IsOrdered old }
    requires ordered { units.low ≤ℤ units.high }
    ensures value { result ≡ stored_known (is_table layout.now place) (form_at layout.now place) old units }
    ensures ordered { IsOrdered result }
{
    match item_at(layout, place) {
        None => None,
        Some(item) => known_by_form(&item.form, item.stride != 0, old, units),
    }
}

fn kept_or_new(keeps: bool, old: Option<Interval>, new: Option<Interval>) -> Option<Interval>
    requires old { IsOrdered old }
    requires new { IsOrdered new }
    ensures value { result ≡ kept_or_new keeps old new }
    ensures ordered { IsOrdered result }
{
    if keeps { joined_known(old, new) } else { new }
}

// What is known of the receiver behind the store.
fn receiver_known(
    program: &Program,
    cells: &[Cell],
    row: &[i128],
    place: u32,
    keeps: bool,
    units: Interval,
) -> Option<Interval>
    requires row { IsRowOf (plain_program program.now) cells.now row.now }
    requires ordered { units.low ≤ℤ units.high }
    ensures value { result ≡ kept_or_new keeps
        (known_of (homes_of (plain_program program.now)) (cells_of row.now) (of_item place))
        (receiver_known (plain_program program.now) place (cells_of row.now) units) }
    ensures ordered { IsOrdered result }
{
    let old = known_of_item(program, cells, row, place);
    kept_or_new(keeps, old, stored_known(&program.layout, place, old, units))
}

// ---- the row

// A value of these units is stored, or the receiver keeps its own.
fn put_units(
    program: &Program,
    cells: &[Cell],
    marks: &[Vec<bool>],
    row: &mut [i128],
    place: u32,
    keeps: bool,
    units: Interval,
)
    requires row { IsRowOf (plain_program program.now) cells.now row.old }
    requires marks { AreMarks (plain_program program.now) cells.now marks.now }
    requires ordered { units.low ≤ℤ units.high }
    ensures cells { stored_element keeps (cells_of row.old) (Some (stored_cells (plain_program program.now) place (cells_of row.old) units))
        ≡ Some (cells_of row.new) }
    ensures row { IsRowOf (plain_program program.now) cells.now row.new }
{
    let known = receiver_known(program, cells, row, place, keeps, units);
    forget_beside(program, cells, marks, row, place);
    set_item(program, cells, row, place, known);
}

fn put(
    program: &Program,
    cells: &[Cell],
    marks: &[Vec<bool>],
    row: &mut [i128],
    place: u32,
    keeps: bool,
    units: Option<Interval>,
) -> bool
    requires row { IsRowOf (plain_program program.now) cells.now row.old }
    requires marks { AreMarks (plain_program program.now) cells.now marks.now }
    requires ordered { IsOrdered units }
    ensures on { result ≡ true → stored_element keeps (cells_of row.old) (option_map (stored_cells (plain_program program.now) place (cells_of row.old)) units)
        ≡ Some (cells_of row.new) }
    ensures off { result ≡ false → stored_element keeps (cells_of row.old) (option_map (stored_cells (plain_program program.now) place (cells_of row.old)) units)
        ≡ None }
    ensures row { IsRowOf (plain_program program.now) cells.now row.new }
{
    match units {
        None => keeps,
        Some(units) => {
            put_units(program, cells, marks, row, place, keeps, units);
            true
        }
    }
}

// ---- what is stored

// What a store of it may do.
fn stored_at(layout: &Layout, place: u32, mode: Mode, amount: Option<AmountRange>) -> Stored
    requires receiver { IsReceiver (receiver_of (form_at layout.now place)) }
    requires small { IfSome amount IsSmallAmount }
    ensures units { result.units ≡ units_from mode (receiver_of (form_at layout.now place)) amount }
    ensures may_fail { result.may_fail ≡ exceeds_from mode (receiver_of (form_at layout.now place)) amount }
{
    store_range(amount, receiver_at(layout, place), mode)
}

fn ranges_of(amount: AmountRange) -> Taken
    ensures { result ≡ ranges_of amount }
{
    match amount {
        AmountRange::Decimal(range) => Taken {
            top: range,
            under: None,
        },
        AmountRange::Quotient { top, under } => Taken {
            top,
            under: Some(under),
        },
        AmountRange::Remainder { top, under, .. } => Taken {
            top,
            under: Some(under),
        },
    }
}

// What the value is worked out of.
fn result_of(amount: Option<AmountRange>) -> Option<Taken>
    ensures { result ≡ option_map ranges_of amount }
{
    match amount {
        None => None,
        Some(amount) => Some(ranges_of(amount)),
    }
}

// Whether the receiver may keep its value.
fn may_keep_own(act: &Act, action: Action, amount: Amount, exceeds: bool, kept: Kept) -> bool
    requires { IfSome kept.common (CanSettleFor (plain_amount amount)) }
    ensures { result ≡ (is_handled (plain_act act.now) action && (exceeds || (kept.may_zero
        || (may_vanish kept.common (plain_amount amount.entry) || (is_remainder (plain_amount amount.entry) && kept.any_fail))))) }
{
    is_handled(act, action) && may_keep(amount, kept.common, exceeds, kept.may_zero, kept.any_fail)
}

// What is stored on the edge: nothing where it keeps its receiver.
fn units_on(act: &Act, action: Action, units: Option<Interval>) -> Option<Interval>
    requires { IsOrdered units }
    ensures value { result ≡ (if keeps_receiver (plain_act act.now) action then None else units) }
    ensures ordered { IsOrdered result }
{
    if keeps_receiver(act, action) {
        None
    } else {
        units
    }
}

impl<'a> Walk<'a> {
    // What the receiver is to get.
    fn amount_for(&self, place: u32, amount: Amount) -> Option<AmountRange>
        requires fits { CellsFit (owns (program_in self.now)) (cells_of self.now.row.now) }
        requires own { is_small (bound_at (program_in self.now).layout place) ≡ true }
        requires can { IfSome self.now.kept.common (CanWork (plain_amount amount) (range_at (program_in self.now) (cells_of self.now.row.now) place)) }
        ensures { result ≡ amount_from self.now.kept.common (plain_amount amount.entry) (range_at (program_in self.now) (cells_of self.now.row.now) place) }
    {
        let own = item_range(self.program, self.cells, self.row, place);
        amount_from(amount, own, self.kept.common)
    }

    /// Stores an amount, once operands are taken.
    pub fn store(&mut self, place: u32, mode: Mode, amount: Amount) -> bool
        requires small { IsSmallStore (program_in self.old) (act_done self.old) self.old.action place (plain_amount amount) }
        requires can { CanGoOn self.old }
        requires written { self.old.kept.written ≡ true }
        ensures goes_on { GoesOn self.old self.new }
        ensures on { result ≡ true → stored (program_in self.old) (act_done self.old) self.old.action (moment self.old) place mode (plain_amount amount.entry)
            ≡ Some (moment self.new) }
        ensures off { result ≡ false → stored (program_in self.old) (act_done self.old) self.old.action (moment self.old) place mode (plain_amount amount.entry)
            ≡ None }
        ensures latest { latest_in self.new ≡ outcome (program_in self.old) (act_done self.old) self.old.action (moment self.old) place mode (plain_amount amount.entry) }
    {
        let kept = self.kept;
        let found = self.amount_for(place, amount);
        let value = stored_at(&self.program.layout, place, mode, found);
        let keeps = may_keep_own(self.act, self.action, amount, value.may_fail, kept);
        let units = units_on(self.act, self.action, value.units);
        self.kept.result = result_of(found);
        self.kept.may_fail = keeps;
        self.kept.may_fit = units.is_some();
        self.kept.any_fail = kept.any_fail || keeps;
        put(
            self.program,
            self.cells,
            self.marks,
            self.row,
            place,
            keeps,
            units,
        )
    }
}
