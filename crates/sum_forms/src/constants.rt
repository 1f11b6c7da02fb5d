//! Forms that are constants, and those of single cells.
ghost use Rattle.std.specs.Prelude.{◌≡◌, ◌<◌, ◌≤◌, ◌^◌, ℕ, pos, neg_ℤ, ◌*ℤ◌, ◌≤ℤ◌, SomeIff, IfSome};
ghost use Rattle.std.specs.Int.{int_div_euclid};
ghost use Rattle.interval_domain.specs.Bounds.{IsSmall};
ghost use Rattle.interval_domain.specs.Corners.{interval};
ghost use Rattle.diff_bounds.specs.Forms.{IsSmallConstant};
ghost use Rattle.sum_ranges.specs.Ranged.{decimal};
ghost use Rattle.sum_ranges.specs.Sizes.{IsSmallRange};
ghost use Rattle.sum_forms.specs.Constants.{floor_at, outward, constant_form, range_form, cell_form};
ghost use Rattle.sum_forms.specs.Values.{IsForm};

use dec_num::{LIMIT, pow10};
use diff_bounds::Lin;
use interval_domain::Interval;
use sum_ranges::Ranged;

// how many cells a pack has at most
const CELLS: usize = 8;

// the number, if it is small
fn small(z: i128) -> Option<i128>
    ensures { SomeIff result (IsSmall z) z }
{
    if -LIMIT < z && z < LIMIT {
        Some(z)
    } else {
        None
    }
}

// the product, if it is small
fn small_product(x: i128, y: i128) -> Option<i128>
    ensures { SomeIff result (IsSmall (x *ℤ y)) (x *ℤ y) }
{
    match x.checked_mul(y) {
        Some(product) => small(product),
        None => None,
    }
}

// the quotient, rounded down
fn floor_by(units: i128, by: i128) -> i128
    requires units { IsSmall units }
    requires by { pos 1 ≤ℤ by }
    ensures value { result ≡ int_div_euclid units by }
    ensures small { IsSmall result }
{
    units.div_euclid(by)
}

// the quotient by a power of ten, rounded down
pub(crate) fn floor(units: i128, power: u32) -> i128
    requires units { IsSmall units }
    requires power { power ≤ 37 }
    ensures value { result ≡ int_div_euclid units (pos (10 ^ power)) }
    ensures small { IsSmall result }
{
    floor_by(units, pow10(power))
}

// so many units of a scale in units of so many decimals, rounded down, if that is small
fn floor_at(decimals: u32, units: i128, scale: u32) -> Option<i128>
    requires decimals { decimals ≤ 37 }
    requires units { IsSmall units }
    requires scale { scale ≤ 37 }
    ensures { SomeIff result (IsSmall (floor_at decimals (decimal units scale))) (floor_at decimals (decimal units scale)) }
{
    if scale <= decimals {
        small_product(units, pow10(decimals - scale))
    } else {
        Some(floor(units, scale - decimals))
    }
}

// the number with the other sign
fn negative(z: i128) -> i128
    requires { IsSmall z }
    ensures { result ≡ neg_ℤ z }
{
    -z
}

// the whole units between which the range lies, if they are small
fn outward(decimals: u32, range: Ranged) -> Option<Interval>
    requires decimals { decimals ≤ 37 }
    requires range { IsSmallRange range }
    ensures { SomeIff result (IsSmallConstant (outward decimals range)) (outward decimals range) }
{
    let low = floor_at(decimals, range.units.low, range.scale)?;
    let flipped = negative(range.units.high);
    let high = floor_at(decimals, flipped, range.scale)?;
    let top = negative(high);
    Some(Interval { low, high: top })
}

/// The constant that lies in a range, if its ends are small.
pub fn range_form(decimals: u32, range: Ranged) -> Option<Lin>
    requires decimals { decimals ≤ 37 }
    requires range { IsSmallRange range }
    ensures value { result ≡ range_form decimals range }
    ensures good { IfSome result IsForm }
{
    match outward(decimals, range) {
        Some(constant) => Some(Lin {
            coefs: [0; CELLS],
            constant,
        }),
        None => None,
    }
}

/// The value of a cell of the pack.
pub fn cell_form(cell: usize) -> Lin
    requires { cell < 8 }
    ensures value { result ≡ cell_form cell }
    ensures good { IsForm result }
{
    let mut coefs = [0; CELLS];
    coefs[cell] = 1;
    Lin {
        coefs,
        constant: Interval { low: 0, high: 0 },
    }
}

/// The constant 0.
pub(crate) fn nothing() -> Lin
    ensures value { result ≡ constant_form (interval (pos 0) (pos 0)) }
    ensures good { IsForm result }
{
    Lin {
        coefs: [0; CELLS],
        constant: Interval { low: 0, high: 0 },
    }
}
