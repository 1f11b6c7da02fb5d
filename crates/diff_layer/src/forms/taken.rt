//! What operands were when they were taken.
ghost use Rattle.std.specs.Prelude.{◌≡◌, ◌≤◌, None, IfSome};
ghost use Rattle.sum_ranges.specs.SumRanges.{quotient_range};
ghost use Rattle.sum_ranges.specs.Sizes.{IsSmallRange};
ghost use Rattle.sum_ranges.specs.Working.{CanDivideRanges};
ghost use Rattle.sum_forms.specs.Values.{IsForm};
ghost use Rattle.transfer_ranges.specs.EdgeOperands.{settled};
ghost use Rattle.transfer_ranges.specs.Working.{CanSettle};
ghost use Rattle.diff_layer.specs.Sizes.{HasSmallTop};
ghost use Rattle.diff_layer.specs.Working.{settled_if, kept_by};

use diff_bounds::Lin;
use sum_forms::range_form;
use sum_ranges::{Ranged, factor_range};
use transfer_ranges::Taken;

fn alone(top: Ranged) -> Taken
    ensures { result ≡ record { top = top; under = None } }
{
    Taken { top, under: None }
}

#[tactic(auto, using(crate::proofs::Quotients::quotient_small))]
fn quotient(top: Ranged, under: Ranged) -> Option<Ranged>
    requires { CanDivideRanges top under }
    ensures value { result ≡ quotient_range top under }
    ensures small { IfSome result IsSmallRange }
{
    factor_range(true, top, under)
}

/// A quotient that doesn't stay exact; nothing where what divides is 0 alone.
fn settled(taken: Taken) -> Option<Taken>
    requires can { CanSettle taken }
    requires small { HasSmallTop taken }
    ensures value { result ≡ settled taken }
    ensures small { IfSome result HasSmallTop }
{
    match taken.under {
        None => Some(alone(taken.top)),
        Some(under) => match quotient(taken.top, under) {
            None => None,
            Some(top) => Some(alone(top)),
        },
    }
}

/// The operands, their last quotient cut.
pub(crate) fn settled_operands(common: Option<Taken>) -> Option<Taken>
    requires can { IfSome common CanSettle }
    requires small { IfSome common HasSmallTop }
    ensures value { result ≡ settled_if common }
    ensures small { IfSome result HasSmallTop }
{
    match common {
        None => None,
        Some(taken) => settled(taken),
    }
}

/// The constant that operands were; none of a quotient that stays exact.
pub(crate) fn kept_form(decimals: u32, common: Option<Taken>) -> Option<Lin>
    requires decimals { decimals ≤ 37 }
    requires small { IfSome common HasSmallTop }
    ensures value { result ≡ kept_by decimals common }
    ensures good { IfSome result IsForm }
{
    match common {
        None => None,
        Some(taken) => match taken.under {
            Some(_) => None,
            None => range_form(decimals, taken.top),
        },
    }
}
