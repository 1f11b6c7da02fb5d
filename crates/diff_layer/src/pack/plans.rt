//! Packs as they are walked with.
ghost use Rattle.std.specs.Prelude.{◌≡◌, ◌≤◌};
ghost use Rattle.diff_steps.specs.Packs.{size_of};
ghost use Rattle.diff_layer.specs.Views.{plain_pack};
ghost use Rattle.diff_bounds.specs.PackRows.{words_of};
ghost use Rattle.diff_layer.specs.Plans.{plain_plan};

use crate::forms::view::PackView;
use cob_graph::Home;
use diff_bounds::words_of;

/// A pack: its cells in turn, at most eight, and the decimals of its unit.
#[derive(Drop)]
pub struct PackPlan {
    pub cells: Vec<Home>,
    pub decimals: u32,
}

/// The pack as forms are worked out over it.
pub(crate) fn view_of(plan: &PackPlan) -> PackView<'_>
    requires few { size_of (plain_plan plan.now) ≤ 8 }
    requires small { plan.now.decimals ≤ 37 }
    ensures pack { plain_pack result ≡ plain_plan plan.now }
    ensures decimals { result.decimals ≡ plan.now.decimals }
{
    PackView {
        cells: plan.cells.as_slice(),
        decimals: plan.decimals,
    }
}

/// How many words the matrix of a pack has.
pub(crate) fn words_for(plan: &PackPlan) -> usize
    requires { size_of (plain_plan plan.now) ≤ 8 }
    ensures { result ≡ words_of (size_of (plain_plan plan.now)) }
{
    words_of(plan.cells.as_slice().len())
}
