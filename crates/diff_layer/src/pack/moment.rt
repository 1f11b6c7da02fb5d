//! Moments of the walk along an edge.
ghost use Rattle.interval_domain.specs.Elements.{CellsFit};
ghost use Rattle.cell_steps.specs.OwnRanges.{owns};
ghost use Rattle.diff_layer.specs.Views.{program_of, known_in};
ghost use Rattle.diff_layer.specs.AtMostOne.{cells_prop};

use crate::pack::plans::PackPlan;
use cell_layer::{Kept, KnownItems};
use cob_program::Act;
use cob_runs::Action;
use dec_num::Mode;
use transfer_ranges::Receiver;

/// A moment of the walk along an edge: what is known of cells, and what is kept.
#[derive(Drop)]
pub struct Moment<'a, 'b> {
    pub items: KnownItems<'a>,
    pub act: &'b Act,
    pub action: Action,
    pub kept: Kept,
    /// The edge has written to bytes of the items of its operands.
    pub written: bool,
    pub ghost fits: { CellsFit (owns (program_of items)) (known_in items) } by { cells_prop (owns (program_of items)) (known_in items) },
}

/// The matrices of packs that are known at a moment.
#[derive(Drop)]
pub struct Matrices<'a, 'b> {
    pub plans: &'a [PackPlan],
    pub words: &'b [i128],
}

/// A receiver, and how what it gets is cut or rounded.
#[derive(Clone, Copy)]
pub struct Slot {
    pub mode: Mode,
    pub receiver: Receiver,
}
