//! Literals among the factors of a product.
ghost use Rattle.std.specs.Prelude.{◌≡◌, ◌<◌, ◌≤◌, ◌^◌, true, pos, ◌*ℤ◌, unsigned_abs, is_some, map, IfSome};
ghost use Rattle.interval_domain.specs.Bounds.{IsSmall};
ghost use Rattle.cob_program.specs.Sum.{factors_of};
ghost use Rattle.cob_program.specs.SumView.{plain_factor, plain_atom};
ghost use Rattle.sum_ranges.specs.Ranged.{decimal};
ghost use Rattle.sum_forms.specs.Literals.{whole_of, literal_in, whole_factor, are_literals, is_short};

use super::constants::floor;
use cob_program::{Atom, Factor};
use dec_num::pow10;
use sum_ranges::{literal_range, turned};

// so many units of a whole number's scale
fn units_of(part: i128, scale: u32) -> i128
    requires scale { scale ≤ 37 }
    requires fits { unsigned_abs (part *ℤ pos (10 ^ scale)) < 10 ^ 38 }
    ensures { result ≡ part *ℤ pos (10 ^ scale) }
{
    part * pow10(scale)
}

// the whole number that so many units of a scale are, if they are one
fn whole_of(units: i128, scale: u32) -> Option<i128>
    requires units { IsSmall units }
    requires scale { scale ≤ 37 }
    ensures value { result ≡ whole_of (decimal units scale) }
    ensures small { IfSome result IsSmall }
{
    let part = floor(units, scale);
    if units <= units_of(part, scale) {
        Some(part)
    } else {
        None
    }
}

/// The whole number that a factor multiplies by, where it is a literal.
pub fn whole_factor(over: bool, minus: bool, atom: &Atom) -> Option<i128>
    requires { is_short (plain_atom atom.now) ≡ true }
    ensures value { result ≡ whole_factor over minus (plain_atom atom.now) }
    ensures small { IfSome result IsSmall }
{
    if over {
        return None;
    }
    match atom {
        Atom::Item(_) => None,
        Atom::Number(number) => {
            let value = turned(minus, literal_range(number));
            whole_of(value.units.low, value.scale)
        }
        Atom::Group(_) => None,
    }
}

// whether the operand is a literal
fn is_literal(atom: &Atom) -> bool
    ensures { result ≡ is_some (literal_in (plain_atom atom.now)) }
{
    match atom {
        Atom::Item(_) => false,
        Atom::Number(_) => true,
        Atom::Group(_) => false,
    }
}

// whether all factors are literals
pub(crate) fn are_literals(factors: &[Factor]) -> bool
    ensures { result ≡ are_literals (factors_of (map plain_factor factors.now)) }
{
    for factor in factors {
        if !is_literal(&factor.atom) {
            return false;
        }
    }
    true
}
