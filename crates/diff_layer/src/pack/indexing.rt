//! Whether the matrices of packs show that a subscript's number is that of an occurrence.
ghost use Rattle.std.specs.Prelude.{◌≡◌, ◌≤◌, true, false, IfSome};
ghost use Rattle.cob_program.specs.Bounds.{is_small};
ghost use Rattle.cob_calc.specs.Contents.{bound_at};
ghost use Rattle.diff_bounds.specs.Matrix.{IsMatrix};
ghost use Rattle.interval_domain.specs.Elements.{CellsFit};
ghost use Rattle.cob_graph.specs.declared.homes.Home.TheVariants.{Item as of_item};
ghost use Rattle.cob_graph.specs.Homes.{homes_of};
ghost use Rattle.cell_steps.specs.Cells.{units_of};
ghost use Rattle.cell_steps.specs.OwnRanges.{owns};
ghost use Rattle.diff_steps.specs.Clearing.{some_pack};
ghost use Rattle.diff_steps.specs.Packs.{size_of};
ghost use Rattle.diff_layer.specs.Forms.{IsFormOf};
ghost use Rattle.diff_layer.specs.Indexes.{index_in_pack, shows_index, high_shown, low_shown, index_shown};
ghost use Rattle.diff_layer.specs.Moments.{packs_in, words_in, AreMatricesOf};
ghost use Rattle.diff_layer.specs.Plans.{plain_plan, plain_plans, IsPlanOf, ArePlansOf, matrices_for, IsRowFor};
ghost use Rattle.diff_layer.specs.Views.{program_of, known_in};

use crate::forms::indexes::{is_above_none, is_in_table, subscript_form};
use crate::pack::matrix_bounds::{bound_if, bound_of_negated_if};
use crate::pack::moment::Matrices;
use crate::pack::plans::{PackPlan, view_of, words_for};
use cell_layer::{KnownItems, item_range};
use diff_bounds::Lin;
use interval_domain::Interval;

/// The item of a subscript, and the count of its table's occurrences.
#[derive(Clone, Copy)]
pub(crate) struct Indexed {
    pub item: u32,
    pub count: u32,
}

fn end_in_table(
    size: usize,
    m: &[i128],
    form: Option<Lin>,
    count: u32,
    decimals: u32,
    low: bool,
) -> bool
    requires size { size ≤ 8 }
    requires m { IsMatrix size m.now }
    requires form { IfSome form (IsFormOf size) }
    requires decimals { decimals ≤ 18 }
    ensures { result ≡ index_in_pack size decimals m.now form count low }
{
    if low {
        is_above_none(decimals, bound_of_negated_if(size, m, form))
    } else {
        is_in_table(count, decimals, bound_if(size, m, form))
    }
}

// whether the matrix of a pack shows that an end of a subscript is an occurrence's
fn pack_shows(items: &KnownItems, plan: &PackPlan, m: &[i128], index: Indexed, low: bool) -> bool
    requires fits { CellsFit (owns (program_of items.now)) (known_in items.now) }
    requires plan { IsPlanOf (program_of items.now) plan.now }
    requires small { is_small (bound_at (program_of items.now).layout index.item) ≡ true }
    requires matrix { IsMatrix (size_of (plain_plan plan.now)) m.now }
    ensures { result ≡ shows_index (program_of items.now) (known_in items.now) index.item index.count low
        (plain_plan plan.now) m.now }
{
    let pack = view_of(plan);
    let form = subscript_form(items, &pack, index.item);
    end_in_table(pack.cells.len(), m, form, index.count, plan.decimals, low)
}

// whether that of some pack does
fn some_pack_shows(
    items: &KnownItems,
    plans: &[PackPlan],
    out: &[i128],
    index: Indexed,
    low: bool,
) -> bool
    requires fits { CellsFit (owns (program_of items.now)) (known_in items.now) }
    requires plans { ArePlansOf (program_of items.now) plans.now }
    requires small { is_small (bound_at (program_of items.now).layout index.item) ≡ true }
    requires matrices { IsRowFor plans.now out.now }
    ensures { result ≡ some_pack (shows_index (program_of items.now) (known_in items.now) index.item index.count low)
        (plain_plans plans.now) (matrices_for plans.now out.now) }
{
    match plans {
        [] => false,
        [plan, plans @ ..] => {
            let (first, rest) = out.split_at(words_for(plan));
            pack_shows(items, plan, first, index, low)
                || some_pack_shows(items, plans, rest, index, low)
        }
    }
}

fn high_is_shown(items: &KnownItems, matrices: &Matrices, index: Indexed, units: Interval) -> bool
    requires fits { CellsFit (owns (program_of items.now)) (known_in items.now) }
    requires matrices { AreMatricesOf (program_of items.now) matrices.now }
    requires small { is_small (bound_at (program_of items.now).layout index.item) ≡ true }
    ensures { result ≡ high_shown (program_of items.now) (known_in items.now) index.item index.count
        (packs_in matrices.now) (words_in matrices.now) units }
{
    units.high <= i128::from(index.count)
        || some_pack_shows(items, matrices.plans, matrices.words, index, false)
}

fn low_is_shown(items: &KnownItems, matrices: &Matrices, index: Indexed, units: Interval) -> bool
    requires fits { CellsFit (owns (program_of items.now)) (known_in items.now) }
    requires matrices { AreMatricesOf (program_of items.now) matrices.now }
    requires small { is_small (bound_at (program_of items.now).layout index.item) ≡ true }
    ensures { result ≡ low_shown (program_of items.now) (known_in items.now) index.item index.count
        (packs_in matrices.now) (words_in matrices.now) units }
{
    1 <= units.low || some_pack_shows(items, matrices.plans, matrices.words, index, true)
}

/// Whether each number of a subscript's item is that of an occurrence, each end by its interval or by a matrix.
pub(crate) fn index_clears(items: &KnownItems, matrices: &Matrices, index: Indexed) -> bool
    requires fits { CellsFit (owns (program_of items.now)) (known_in items.now) }
    requires matrices { AreMatricesOf (program_of items.now) matrices.now }
    requires small { is_small (bound_at (program_of items.now).layout index.item) ≡ true }
    ensures { result ≡ index_shown (program_of items.now) (known_in items.now) index.item index.count
        (packs_in matrices.now) (words_in matrices.now)
        (units_of (program_of items.now).layout (homes_of (program_of items.now)) (known_in items.now) (of_item index.item)) }
{
    let units = item_range(items.program, items.cells, items.row, index.item).units;
    high_is_shown(items, matrices, index, units) && low_is_shown(items, matrices, index, units)
}
