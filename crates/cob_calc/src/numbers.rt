//! Exact decimals as sums use them (ISO 1989:1985, "Arithmetic expressions").
ghost use Rattle.std.specs.Prelude.{◌≡◌, ◌+◌, ◌-◌, ◌^◌, ◌<◌, ◌≤◌, pos, true, length};
ghost use Rattle.cob_program.specs.Values.{negated, plus, product, quotient, with_factor, numeral, literal};
ghost use Rattle.cob_program.specs.Bounds.{is_small, literal_bound, IsSmall};
ghost use Rattle.cob_runs.specs.Contents.{scaled_by};
ghost use Rattle.cob_calc.specs.Working.{CanDivide, CanScale};

use cob_tree::Num;
use dec_num::{Mode, Quot, Scaled, add, mul, quot};

/// So many units of a scale.
pub fn scaled(units: i128, scale: u32) -> Scaled
    ensures { result ≡ scaled_by scale units }
{
    Scaled { units, scale }
}

/// The number, or where `minus` says so the one with the other sign.
pub fn negated(minus: bool, a: Scaled) -> Scaled
    requires { IsSmall a }
    ensures { result ≡ negated minus a }
{
    if minus { scaled(-a.units, a.scale) } else { a }
}

/// The sum of two numbers.
#[tactic(auto, using(crate::proofs::NumberLemmas::sums))]
pub fn plus(a: Scaled, b: Scaled) -> Scaled
    requires left { IsSmall a }
    requires right { IsSmall b }
    requires sum { IsSmall (plus a b) }
    ensures { result ≡ plus a b }
{
    add(a, b)
}

/// The product of two numbers.
#[tactic(auto, using(crate::proofs::NumberLemmas::products))]
pub fn product(a: Scaled, b: Scaled) -> Scaled
    requires { IsSmall (product a b) }
    ensures { result ≡ product a b }
{
    mul(a, b)
}

// How many decimals a quotient of that scale needs beyond those of its units.
fn decimals(a: Scaled, b: Scaled, scale: u32) -> i32
    requires few { scale + b.scale - a.scale ≤ 55 }
    requires fits { scale + b.scale < 2 ^ 32 }
    requires above { a.scale ≤ scale }
    ensures { result ≡ pos (scale + b.scale - a.scale) }
{
    (scale + b.scale - a.scale) as i32
}

/// The quotient of two numbers, cut at its scale; nothing where the divisor is 0.
#[tactic(auto, using(crate::proofs::NumberLemmas::quotients))]
pub fn quotient(a: Scaled, b: Scaled) -> Option<Scaled>
    requires { CanDivide a b }
    ensures { result ≡ quotient a b }
{
    let scale = 6.max(a.scale.max(b.scale));
    if b.units == 0 {
        return None;
    }
    if a.units == 0 {
        return Some(scaled(0, scale));
    }
    match quot(a.units, b.units, decimals(a, b, scale), Mode::Trunc) {
        Quot::Is(units) => Some(scaled(units, scale)),
        Quot::ZeroDivisor => None,
        Quot::Over => None,
    }
}

/// A number with one factor more.
pub fn with_factor(over: bool, a: Scaled, b: Scaled) -> Option<Scaled>
    requires { CanScale over a b }
    ensures { result ≡ with_factor over a b }
{
    if over {
        quotient(a, b)
    } else {
        Some(product(a, b))
    }
}

// The number that digits write.
fn numeral(digits: &[u8]) -> i128
    requires { length digits.now ≤ 37 }
    ensures { result ≡ pos (numeral 0 digits.now) }
{
    if digits.len() <= 18 {
        short_numeral(digits) as i128
    } else {
        long_numeral(digits)
    }
}

// A numeral of few digits.
#[tactic(auto, using(crate::proofs::NumberLemmas::numerals))]
fn short_numeral(digits: &[u8]) -> u64
    requires { length digits.now ≤ 18 }
    ensures { result ≡ numeral 0 digits.now }
{
    let mut value = 0;
    for digit in digits {
        value = 10 * value + u64::from(digit.saturating_sub(48).min(9));
    }
    value
}

#[tactic(auto, using(crate::proofs::NumberLemmas::numerals))]
fn long_numeral(digits: &[u8]) -> i128
    requires { length digits.now ≤ 37 }
    ensures { result ≡ pos (numeral 0 digits.now) }
{
    let mut value: u128 = 0;
    for digit in digits {
        value = 10 * value + u128::from(digit.saturating_sub(48).min(9));
    }
    value as i128
}

/// The number that a literal writes.
#[tactic(auto, using(crate::proofs::NumberLemmas::literals))]
pub fn literal(number: &Num) -> Scaled
    requires { is_small (literal_bound number.now) ≡ true }
    ensures value { result ≡ literal number.now }
    ensures small { IsSmall result }
{
    negated(
        number.sign == b'-',
        scaled(numeral(number.digits.get()), number.scale),
    )
}
