//! Forms of sums whose items hold what they held before the edge wrote.
ghost use Rattle.std.specs.Prelude.{◌≡◌, true, IfSome};
ghost use Rattle.cob_program.specs.Bounds.{is_small_sum, is_small_atom};
ghost use Rattle.cob_program.specs.SumView.{plain_sum, plain_atom};
ghost use Rattle.cob_calc.specs.Contents.{bound_at};
ghost use Rattle.sum_ranges.specs.Taking.{is_small_taken};
ghost use Rattle.sum_forms.specs.SumForms as sums;
ghost use Rattle.sum_forms.specs.Values.{IsForm};
ghost use Rattle.interval_domain.specs.Elements.{CellsFit};
ghost use Rattle.cell_steps.specs.OwnRanges.{owns};
ghost use Rattle.cell_steps.specs.Stores.{range_at};
ghost use Rattle.edge_parts.specs.PartView.{plain_divisor};
ghost use Rattle.diff_layer.specs.Views.{item_cell, program_of, known_in};
ghost use Rattle.diff_layer.specs.Working.{read_by};

use crate::forms::view::PackView;
use cell_layer::KnownItems;
use cob_program::{Atom, Sum};
use diff_bounds::Lin;
use edge_parts::Divisor;
use sum_forms::{atom_form, sum_form};

/// The form of a sum.
pub(crate) fn form_of_sum(items: &KnownItems, pack: &PackView, sum: &Sum) -> Option<Lin>
    requires fits { CellsFit (owns (program_of items.now)) (known_in items.now) }
    requires small { is_small_sum (bound_at (program_of items.now).layout) (plain_sum sum.now) ≡ true }
    ensures value { result ≡ sums.sum_form pack.now.decimals (item_cell pack.now)
        (range_at (program_of items.now) (known_in items.now)) (plain_sum sum.now) }
    ensures good { IfSome result IsForm }
{
    sum_form(items, pack, sum)
}

fn form_of_operand(items: &KnownItems, pack: &PackView, atom: &Atom) -> Option<Lin>
    requires fits { CellsFit (owns (program_of items.now)) (known_in items.now) }
    requires small { is_small_atom (bound_at (program_of items.now).layout) (plain_atom atom.now) ≡ true }
    ensures value { result ≡ sums.atom_form pack.now.decimals (item_cell pack.now)
        (range_at (program_of items.now) (known_in items.now)) (plain_atom atom.now) }
    ensures good { IfSome result IsForm }
{
    atom_form(items, pack, atom)
}

/// The form of a divisor.
pub(crate) fn form_of_divisor(items: &KnownItems, pack: &PackView, divisor: Divisor) -> Option<Lin>
    requires fits { CellsFit (owns (program_of items.now)) (known_in items.now) }
    requires small { is_small_atom (bound_at (program_of items.now).layout) (plain_divisor divisor) ≡ true }
    ensures value { result ≡ sums.atom_form pack.now.decimals (item_cell pack.now)
        (range_at (program_of items.now) (known_in items.now)) (plain_divisor divisor.entry) }
    ensures good { IfSome result IsForm }
{
    match divisor {
        Divisor::Inner(atom) => form_of_operand(items, pack, atom),
        Divisor::Whole(sum) => form_of_sum(items, pack, sum),
    }
}

/// The form of operands to whose bytes the edge hasn't written. `whole` says that the whole sum is stored: a quotient
/// that is its last operation then has none.
#[tactic(auto, using(crate::proofs::Reading::readable))]
pub(crate) fn form_read(items: &KnownItems, pack: &PackView, sum: &Sum, whole: bool) -> Option<Lin>
    requires fits { CellsFit (owns (program_of items.now)) (known_in items.now) }
    requires small { is_small_taken (bound_at (program_of items.now).layout) whole (plain_sum sum.now) ≡ true }
    ensures value { result ≡ read_by pack.now.decimals (item_cell pack.now)
        (range_at (program_of items.now) (known_in items.now)) whole (plain_sum sum.now) }
    ensures good { IfSome result IsForm }
{
    if whole && sum.is_quotient() {
        return None;
    }
    form_of_sum(items, pack, sum)
}
