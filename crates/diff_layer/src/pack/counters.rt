//! Counters of a pack.
ghost use Rattle.std.specs.Prelude.{◌≡◌, ◌≤◌, length, List, Option, IfSome};
ghost use Rattle.cob_data.specs.declared.extent.Extent.{Extent};
ghost use Rattle.diff_bounds.specs.Matrix.{IsMatrix};
ghost use Rattle.transfer_ranges.specs.declared.amounts.Taken.{Taken};
ghost use Rattle.interval_domain.specs.Elements.{CellsFit};
ghost use Rattle.cob_graph.specs.declared.homes.Home.TheVariants.{Count as of_count};
ghost use Rattle.cell_steps.specs.OwnRanges.{owns};
ghost use Rattle.diff_steps.specs.Forms as forms;
ghost use Rattle.diff_steps.specs.Packs.{cell_of};
ghost use Rattle.diff_layer.specs.Forms.{IsFormOf};
ghost use Rattle.diff_layer.specs.Sizes.{HasSmallTop};
ghost use Rattle.diff_layer.specs.PackWriting.{sender_items, are_written};
ghost use Rattle.diff_layer.specs.Changes.{cell_assigned};
ghost use Rattle.diff_layer.specs.Moments.{program_at, known_at};
ghost use Rattle.diff_layer.specs.Views.{plain_pack, HasUnit, program_of, known_in, taken_at};

use crate::forms::lowered::lowered_form;
use crate::forms::senders::set_form;
use crate::forms::view::{PackView, cell_in};
use crate::pack::matrix_images::assign_or_forget;
use crate::pack::moment::Moment;
use cell_layer::KnownItems;
use cob_data::Sender;
use cob_graph::Home;
use diff_bounds::Lin;

// makes the counter's cell, where the pack has it, a form
fn set_cell(pack: &PackView, m: &mut [i128], statement: u32, form: Option<Lin>)
    requires m { IsMatrix (length pack.now.cells.now) m.old }
    requires form { IfSome form (IsFormOf (length pack.now.cells.now)) }
    ensures value { m.new ≡ cell_assigned (length pack.now.cells.now) form
        (cell_of (plain_pack pack.now) (of_count statement)) m.old }
    ensures matrix { IsMatrix (length pack.now.cells.now) m.new }
{
    match cell_in(pack, Home::Count(statement)) {
        None => {}
        Some(cell) => assign_or_forget(pack.cells.len(), m, cell + 1, form),
    }
}

/// Makes of a pack's matrix what the setting of a counter makes of it.
pub(crate) fn set_count(
    moment: &Moment,
    pack: &PackView,
    m: &mut [i128],
    statement: u32,
    sender: &Sender,
)
    requires m { IsMatrix (length pack.now.cells.now) m.old }
    requires unit { HasUnit (program_at moment.now).layout pack.now }
    requires top { IfSome moment.now.kept.common HasSmallTop }
    ensures value { (wrote : List Extent) → moment.now.written ≡ are_written (program_at moment.now).layout wrote
        (sender_items sender.now)
        → m.new ≡ cell_assigned (length pack.now.cells.now)
        (forms.set_form (program_at moment.now) (plain_pack pack.now)
        (taken_at (known_at moment.now) moment.now.kept.common) wrote sender.now)
        (cell_of (plain_pack pack.now) (of_count statement)) m.old }
    ensures matrix { IsMatrix (length pack.now.cells.now) m.new }
{
    let form = set_form(
        &moment.items,
        pack,
        sender,
        moment.kept.common,
        moment.written,
    );
    set_cell(pack, m, statement, form);
}

/// Makes of a pack's matrix what a counter that goes down by one makes of it.
pub(crate) fn count_down(items: &KnownItems, pack: &PackView, m: &mut [i128], statement: u32)
    requires m { IsMatrix (length pack.now.cells.now) m.old }
    requires unit { HasUnit (program_of items.now).layout pack.now }
    requires fits { CellsFit (owns (program_of items.now)) (known_in items.now) }
    ensures value { (common : Option Taken) (wrote : List Extent) → m.new ≡ cell_assigned (length pack.now.cells.now)
        (forms.lowered_form (program_of items.now) (plain_pack pack.now) (taken_at (known_in items.now) common) wrote
        statement)
        (cell_of (plain_pack pack.now) (of_count statement)) m.old }
    ensures matrix { IsMatrix (length pack.now.cells.now) m.new }
{
    let form = lowered_form(items, pack, statement);
    set_cell(pack, m, statement, form);
}
