//! Sums that are one whole number.
ghost use Rattle.std.specs.Prelude.{◌≡◌, true, map};
ghost use Rattle.interval_domain.specs.Bounds.{IsSmall};
ghost use Rattle.cob_program.specs.Sum.{
  MkSum,
  MkPart,
  parts_of,
  factors_of,
  more_parts,
  no_parts,
  more_factors,
  no_factors,
};
ghost use Rattle.cob_program.specs.SumView.{plain_sum, plain_part, plain_factor};
ghost use Rattle.diff_steps.specs.Forms as forms;
ghost use Rattle.diff_steps.specs.Forms.{negated_if};
ghost use Rattle.diff_layer.specs.Sizes.{is_short_whole};

use cob_program::{Factor, Part, Sum};
use sum_forms::whole_factor;

fn negated_if(minus: bool, number: i128) -> i128
    requires { IsSmall number }
    ensures { result ≡ negated_if minus number }
{
    if minus { -number } else { number }
}

fn whole_of_factor(minus: bool, factor: &Factor) -> Option<i128>
    requires { is_short_whole (MkSum (more_parts (MkPart minus (more_factors (plain_factor factor.now) no_factors))
        no_parts)) ≡ true }
    ensures { result ≡ forms.whole_sum (MkSum (more_parts
        (MkPart minus (more_factors (plain_factor factor.now) no_factors)) no_parts)) }
{
    match whole_factor(factor.over, factor.minus, &factor.atom) {
        None => None,
        Some(number) => Some(negated_if(minus, number)),
    }
}

fn whole_of_factors(minus: bool, factors: &[Factor]) -> Option<i128>
    requires { is_short_whole (MkSum (more_parts (MkPart minus (factors_of (map plain_factor factors.now))) no_parts))
        ≡ true }
    ensures { result ≡ forms.whole_sum (MkSum (more_parts (MkPart minus (factors_of (map plain_factor factors.now)))
        no_parts)) }
{
    if factors.len() == 1 {
        whole_of_factor(minus, &factors[0])
    } else {
        None
    }
}

fn whole_of_part(part: &Part) -> Option<i128>
    requires { is_short_whole (MkSum (more_parts (plain_part part.now) no_parts)) ≡ true }
    ensures { result ≡ forms.whole_sum (MkSum (more_parts (plain_part part.now) no_parts)) }
{
    whole_of_factors(part.minus, &part.factors)
}

fn whole_of_parts(parts: &[Part]) -> Option<i128>
    requires { is_short_whole (MkSum (parts_of (map plain_part parts.now))) ≡ true }
    ensures { result ≡ forms.whole_sum (MkSum (parts_of (map plain_part parts.now))) }
{
    if parts.len() == 1 {
        whole_of_part(&parts[0])
    } else {
        None
    }
}

/// The whole number that a sum is, if it is one literal.
pub(crate) fn whole_sum(sum: &Sum) -> Option<i128>
    requires { is_short_whole (plain_sum sum.now) ≡ true }
    ensures { result ≡ forms.whole_sum (plain_sum sum.now) }
{
    whole_of_parts(&sum.parts)
}
