//! An edge with packs, as it is walked.
ghost use Rattle.std.specs.Prelude.{◌≡◌, true};
ghost use Rattle.std.specs.List.{AllByRecursion};
ghost use Rattle.cell_laws.specs.Sizes.{IsSmallPart};
ghost use Rattle.cell_layer.specs.Forgetting.{AreMarks};
ghost use Rattle.cell_layer.specs.SmallCells.{has_small_cells};
ghost use Rattle.cell_layer.specs.Works.{program_of, act_of};
ghost use Rattle.cell_layer.specs.AtMostOne.{parts_prop};
ghost use Rattle.diff_layer.specs.AtMostOne.{all_of_edge_prop, plans_prop};
ghost use Rattle.diff_layer.specs.Parts.{IsOfEdge};
ghost use Rattle.diff_layer.specs.Plans.{ArePlansOf};
ghost use Rattle.diff_layer.specs.Works.{parts_of_edge};

use crate::pack::plans::PackPlan;
use cell_layer::Kept;
use cob_runs::Cell;
use edge_parts::EdgeWork;

/// What an edge does, beside its program's cells and packs. The marks tell which cells have bytes of each other's items.
#[derive(Drop)]
pub struct PackEdge<'a, 'b, 'c, 'd> {
    pub cells: &'a [Cell],
    pub marks: &'a [Vec<bool>],
    pub work: &'b EdgeWork<'c>,
    pub plans: &'d [PackPlan],
    pub ghost packs: { ArePlansOf (program_of work.now) plans.now } by { plans_prop (program_of work.now) plans.now },
    pub ghost marked: { AreMarks (program_of work.now) cells.now marks.now },
    pub ghost small_cells: { has_small_cells (program_of work.now) ≡ true },
    pub ghost small: { AllByRecursion (IsSmallPart (program_of work.now) (act_of work.now) work.now.action)
        (parts_of_edge work.now) } by { parts_prop (program_of work.now) (act_of work.now) work.now.action
            (parts_of_edge work.now) },
    pub ghost of_edge: { AllByRecursion (IsOfEdge (program_of work.now) (act_of work.now) work.now.action)
        (parts_of_edge work.now) } by { all_of_edge_prop (program_of work.now) (act_of work.now) work.now.action
            (parts_of_edge work.now) },
}

/// What is kept between two parts of an edge.
#[derive(Clone, Copy)]
pub struct PackState {
    pub kept: Kept,
    /// A part has written to bytes of the items of the operands.
    pub written: bool,
}
