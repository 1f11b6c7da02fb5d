//! Exact values: a decimal, or a quotient that stays exact until it is stored.
ghost use Rattle.std.specs.Prelude.{◌≡◌, ◌+◌, ◌<◌, ◌≤◌, ◌^◌, pos, ◌-ℤ◌, unsigned_abs, IfSome, option_map};
ghost use Rattle.cob_program.specs.Values.{exact_quotient};
ghost use Rattle.cob_program.specs.Bounds.{IsSmall};
ghost use Rattle.cob_calc.specs.Exact.{fraction_of, IsSmallExact, quotient_if, held, units_held};

use crate::numbers::scaled;
use dec_num::{Fit, Mode, Quot, Scaled, fit, quot};

/// A value before it is stored: a number, or a quotient that stays exact.
#[derive(Clone, Copy)]
pub enum Exact {
    Number(Scaled),
    Quotient { top: Scaled, bottom: Scaled },
}

// The units, where so many digits hold them.
#[tactic(auto, using(crate::proofs::ExactLemmas::holding))]
fn held(units: i128, digits: u32) -> Option<i64>
    requires some { 1 ≤ digits }
    requires digits { digits ≤ 18 }
    requires units { unsigned_abs units < 10 ^ 37 }
    ensures { result ≡ held digits units }
{
    match fit(scaled(units, 0), digits, 0, Mode::Trunc) {
        Fit::Stored(units) => Some(units),
        Fit::TooBig => None,
    }
}

/// How many decimals a quotient needs beyond those of its units.
pub fn decimals(top: Scaled, bottom: Scaled, scale: u32) -> i32
    requires top { top.scale ≤ 37 }
    requires bottom { bottom.scale ≤ 37 }
    requires scale { scale ≤ 18 }
    ensures { result ≡ pos (scale + bottom.scale) -ℤ pos top.scale }
{
    (scale + bottom.scale) as i32 - top.scale as i32
}

impl Exact {
    /// A quotient that stays exact; nothing where the divisor is 0.
    #[tactic(auto, using(crate::proofs::ExactLemmas::quotients))]
    pub fn quotient(top: Scaled, bottom: Scaled) -> Option<Exact>
        requires top { IsSmall top }
        requires bottom { IsSmall bottom }
        ensures value { option_map fraction_of result ≡ exact_quotient top bottom }
        ensures exact { result ≡ quotient_if top bottom }
        ensures small { IfSome result IsSmallExact }
    {
        if bottom.units == 0 {
            None
        } else {
            Some(Exact::Quotient { top, bottom })
        }
    }

    /// The value in units of a receiver's scale, cut or rounded; nothing where the receiver has fewer digits.
    #[tactic(auto, using(crate::proofs::ExactLemmas::storing))]
    pub fn units(self, digits: u32, scale: u32, mode: Mode) -> Option<i64>
        requires some { 1 ≤ digits }
        requires digits { digits ≤ 18 }
        requires scale { scale ≤ digits }
        requires small { IsSmallExact self }
        ensures { result ≡ units_held digits scale mode (fraction_of self) }
    {
        match self {
            Exact::Number(value) => match fit(value, digits, scale, mode) {
                Fit::Stored(units) => Some(units),
                Fit::TooBig => None,
            },
            Exact::Quotient { top, bottom } => {
                let up = decimals(top, bottom, scale);
                match quot(top.units, bottom.units, up, mode) {
                    Quot::Is(units) => held(units, digits),
                    Quot::ZeroDivisor => None,
                    Quot::Over => None,
                }
            }
        }
    }
}
