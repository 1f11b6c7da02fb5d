//! The numbers that literals write.
ghost use Rattle.std.specs.Prelude.{◌≡◌, ◌<◌, ◌≤◌, ◌^◌, true, pos, length};
ghost use Rattle.cob_program.specs.Values.{numeral, literal};
ghost use Rattle.cob_program.specs.Bounds.{is_small, literal_bound};
ghost use Rattle.sum_ranges.specs.Ranged.{point};
ghost use Rattle.sum_ranges.specs.Sizes.{IsSmallRange};

use crate::arithmetic::{point, turned};
use crate::ranged::Ranged;
use cob_tree::Num;

// The number that digits write.
#[tactic(auto, using(crate::proofs::Numerals::numerals))]
fn numeral(digits: &[u8]) -> u128
    requires { length digits.now ≤ 37 }
    ensures value { result ≡ numeral 0 digits.now }
    ensures bound { result < 10 ^ 37 }
{
    let mut value: u128 = 0;
    for digit in digits {
        value = 10 * value + u128::from(digit.saturating_sub(48).min(9));
    }
    value
}

/// The number that a literal writes, alone.
pub fn literal_range(number: &Num) -> Ranged
    requires { is_small (literal_bound number.now) ≡ true }
    ensures value { result ≡ point (literal number.now) }
    ensures small { IsSmallRange result }
{
    let units = numeral(number.digits.get()) as i128;
    turned(number.sign == b'-', point(units, number.scale))
}
