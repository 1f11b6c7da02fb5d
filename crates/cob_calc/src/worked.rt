//! What an arithmetic statement works out before it stores anything.
ghost use Rattle.std.specs.Prelude.{◌≡◌, ◌≤◌, ◌-◌, ◌^◌, not, is_some, pos, unsigned_abs, option_map, IfSome};
ghost use Rattle.std.specs.List.{list_any};
ghost use Rattle.dec_num.specs.Exact.{near};
ghost use Rattle.dec_num.specs.declared.types.Mode.{Mode};
ghost use Rattle.cob_program.specs.Values.{whole_number};
ghost use Rattle.cob_program.specs.Bounds.{IsSmall};
ghost use Rattle.cob_calc.specs.declared.exact.Exact.{Exact};
ghost use Rattle.cob_calc.specs.Exact.{fraction_of, IsSmallQuotient, IsSmallExact};
ghost use Rattle.cob_calc.specs.Receiving.{result_of, is_whole, some_whole, some_part, CanWork, cut_at, rest_at, rest_of, IsSmallRest, HasSmallRest};

use crate::exact::{Exact, decimals};
use crate::numbers::{negated, plus, product, scaled};
use cob_program::{How, Target};
use dec_num::{Mode, Quot, Scaled, quot};

/// What the receivers of an arithmetic statement get, worked out before the first of them changes: what is stored of its
/// sum, and what that is worth to a receiver that is added to, or the like. A part that no receiver asks for stays out.
#[derive(Clone, Copy)]
pub struct Worked {
    pub whole: Option<Exact>,
    pub value: Option<Scaled>,
}

fn is_whole(how: How) -> bool
    ensures { result ≡ is_whole how }
{
    match how {
        How::Whole => true,
        How::Plus | How::Minus | How::Times | How::Under => false,
    }
}

/// Whether a receiver gets the whole.
pub fn some_whole(targets: &[Target]) -> bool
    ensures { result ≡ some_whole targets.now }
{
    for target in targets {
        if is_whole(target.how) {
            return true;
        }
    }
    false
}

/// Whether a receiver gets something else than the whole.
pub fn some_part(targets: &[Target]) -> bool
    ensures { result ≡ some_part targets.now }
{
    for target in targets {
        if !is_whole(target.how) {
            return true;
        }
    }
    false
}

// the quotient cut at a scale
fn cut(top: Scaled, bottom: Scaled, scale: u32) -> Scaled
    requires { IsSmallRest scale top bottom }
    ensures { result ≡ cut_at scale top bottom }
{
    match quot(
        top.units,
        bottom.units,
        decimals(top, bottom, scale),
        Mode::Trunc,
    ) {
        Quot::Is(units) => scaled(units, scale),
        Quot::ZeroDivisor => scaled(0, scale),
        Quot::Over => scaled(0, scale),
    }
}

// what a quotient that is cut at a scale leaves
#[tactic(auto, using(crate::proofs::RestLemmas::small_negated))]
fn rest(top: Scaled, bottom: Scaled, scale: u32) -> Scaled
    requires { IsSmallRest scale top bottom }
    ensures value { result ≡ rest_at scale top bottom }
    ensures small { IsSmall result }
{
    let back = product(bottom, cut(top, bottom, scale));
    plus(top, negated(true, back))
}

impl Worked {
    // whether there is no result for a receiver, since a divisor is 0
    #[tactic(auto, using(crate::proofs::ExactLemmas::quotients))]
    fn lacks(&self, how: How) -> bool
        ensures { result ≡ not (is_some (result_of self.now how (whole_number (pos 0)))) }
    {
        match how {
            How::Whole => self.whole.is_none(),
            How::Plus | How::Minus | How::Times => self.value.is_none(),
            How::Under => match self.value {
                None => true,
                Some(value) => value.units == 0,
            },
        }
    }

    /// Whether a divisor is 0.
    pub fn has_zero_divisor(&self, targets: &[Target]) -> bool
        ensures { result ≡ list_any (λ t. not (is_some (result_of self.now t.how (whole_number
            (pos 0))))) targets.now }
    {
        for target in targets {
            if self.lacks(target.how) {
                return true;
            }
        }
        false
    }

    /// The result for a receiver that is worth so much itself; nothing where a divisor is 0.
    pub fn result(&self, how: How, own: Scaled) -> Option<Exact>
        requires { CanWork self.now how own }
        ensures value { option_map fraction_of result ≡ result_of self.now how own }
        ensures small { IfSome result IsSmallExact }
    {
        match (how, self.value) {
            (How::Whole, _) => self.whole,
            (_, None) => None,
            (How::Plus, Some(value)) => Some(Exact::Number(plus(own, value))),
            (How::Minus, Some(value)) => Some(Exact::Number(plus(own, negated(true, value)))),
            (How::Times, Some(value)) => Some(Exact::Number(product(own, value))),
            (How::Under, Some(value)) => Exact::quotient(own, value),
        }
    }

    /// What is left of the dividend, where the quotient is cut at a scale; nothing where there is no quotient.
    pub fn remainder(&self, scale: u32) -> Option<Scaled>
        requires { HasSmallRest scale self.now.whole }
        ensures value { result ≡ rest_of scale self.now.whole }
        ensures small { IfSome result IsSmall }
    {
        match self.whole {
            Some(Exact::Quotient { top, bottom }) => Some(rest(top, bottom, scale)),
            Some(Exact::Number(_)) => None,
            None => None,
        }
    }
}
