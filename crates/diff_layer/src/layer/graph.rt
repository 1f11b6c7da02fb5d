//! The edges of a program's graph with packs, and what is known at its nodes.
ghost use Rattle.cob_program.specs.ActView.{plain_program};
ghost use Rattle.diff_layer.specs.AtMostOne.{plans_prop};
ghost use Rattle.diff_layer.specs.Plans.{ArePlansOf};

use crate::pack::plans::PackPlan;
use cell_layer::EdgeWorks;

/// What the edges of a program's graph do, beside packs of its cells.
#[derive(Drop)]
pub struct PackWorks<'a, 'b, 'c> {
    pub works: &'a EdgeWorks<'b>,
    pub plans: &'c [PackPlan],
    pub ghost packs: { ArePlansOf (plain_program works.now.program.now) plans.now } by { plans_prop (plain_program works.now.program.now) plans.now },
}

/// What is known at a node: the row of cells, and the matrices of all packs.
#[derive(Drop)]
pub struct NodeRows<'a, 'b> {
    pub cells: &'a [i128],
    pub matrices: &'b [i128],
}
