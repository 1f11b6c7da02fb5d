//! What a part makes of the matrices of packs.
ghost use Rattle.std.specs.Prelude.{◌≡◌, length, List};
ghost use Rattle.cob_data.specs.declared.extent.Extent.{Extent};
ghost use Rattle.edge_parts.specs.PartView.{plain_part};
ghost use Rattle.diff_bounds.specs.Matrix.{IsMatrix};
ghost use Rattle.cell_layer.specs.Kept.{latest_of};
ghost use Rattle.diff_steps.specs.Packs.{size_of};
ghost use Rattle.diff_layer.specs.Changes.{part_changed};
ghost use Rattle.diff_layer.specs.Parts.{CanChange, IsWrittenTo, plan_changed};
ghost use Rattle.diff_layer.specs.Plans.{plain_plan, IsPlanOf};
ghost use Rattle.diff_layer.specs.Moments.{program_at, known_at};
ghost use Rattle.diff_layer.specs.Views.{plain_pack, HasUnit};

use crate::forms::view::PackView;
use crate::pack::counters::{count_down, set_count};
use crate::pack::gone::{Gone, forget};
use crate::pack::guards::guard;
use crate::pack::moment::Moment;
use crate::pack::plans::{PackPlan, view_of};
use crate::pack::stores::store;
use cell_layer::bytes_from;
use edge_parts::EdgePart;

// what a part makes of the matrix of a pack
fn change(moment: &Moment, pack: &PackView, m: &mut [i128], part: EdgePart)
    requires m { IsMatrix (length pack.now.cells.now) m.old }
    requires unit { HasUnit (program_at moment.now).layout pack.now }
    requires can { CanChange (program_at moment.now) (known_at moment.now) moment.now.kept.common (plain_part part) }
    ensures value { (wrote : List Extent) → IsWrittenTo (program_at moment.now).layout wrote moment.now.written
        (plain_part part.entry)
        → m.new ≡ part_changed (program_at moment.now) (known_at moment.now) moment.now.kept.common
        (latest_of moment.now.kept) wrote
        (plain_pack pack.now) (length pack.now.cells.now) pack.now.decimals (plain_part part.entry) m.old }
    ensures matrix { IsMatrix (length pack.now.cells.now) m.new }
{
    match part {
        EdgePart::Store { item, mode, amount } => store(moment, pack, m, item, mode, amount),
        EdgePart::Bytes { offset, length } => forget(
            &moment.items.program.layout,
            Gone::Bytes(bytes_from(offset, length)),
            pack.cells,
            m,
        ),
        EdgePart::Guard { test, holds } => guard(&moment.items, pack, m, test, holds),
        EdgePart::SetCount { number, count } => set_count(moment, pack, m, number, count),
        EdgePart::CountDown(number) => count_down(&moment.items, pack, m, number),
        EdgePart::Read(_)
        | EdgePart::Unread
        | EdgePart::Subscript { .. }
        | EdgePart::Index { .. }
        | EdgePart::Divide(_)
        | EdgePart::ReadCount(_)
        | EdgePart::GuardCount { .. } => {}
    }
}

/// Makes of the matrix of a pack what a part makes of it, by what is known before it and kept behind it.
pub(crate) fn change_plan(moment: &Moment, plan: &PackPlan, m: &mut [i128], part: EdgePart)
    requires plan { IsPlanOf (program_at moment.now) plan.now }
    requires can { CanChange (program_at moment.now) (known_at moment.now) moment.now.kept.common (plain_part part) }
    requires matrix { IsMatrix (size_of (plain_plan plan.now)) m.old }
    ensures value { (wrote : List Extent) → IsWrittenTo (program_at moment.now).layout wrote moment.now.written
        (plain_part part.entry)
        → m.new ≡ plan_changed (program_at moment.now) (known_at moment.now) moment.now.kept.common
        (latest_of moment.now.kept) wrote
        (plain_part part.entry) (plain_plan plan.now) m.old }
    ensures matrix { IsMatrix (size_of (plain_plan plan.now)) m.new }
{
    let pack = view_of(plan);
    change(moment, &pack, m, part);
}
