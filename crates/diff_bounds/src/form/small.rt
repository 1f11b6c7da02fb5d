//! Numbers below 10^37 in absolute value.
ghost use Rattle.std.specs.Prelude.{◌+ℤ◌, ◌*ℤ◌, SomeIff};
ghost use Rattle.interval_domain.specs.Bounds.{IsSmall};

use dec_num::LIMIT;

// the number, if it is small
fn small(z: i128) -> Option<i128>
    ensures { SomeIff result (IsSmall z) z }
{
    if -LIMIT < z && z < LIMIT {
        Some(z)
    } else {
        None
    }
}

// the sum, if it is small
pub(crate) fn small_sum(x: i128, y: i128) -> Option<i128>
    ensures { SomeIff result (IsSmall (x +ℤ y)) (x +ℤ y) }
{
    match x.checked_add(y) {
        Some(sum) => small(sum),
        None => None,
    }
}

// the product, if it is small
pub(crate) fn small_product(x: i128, y: i128) -> Option<i128>
    ensures { SomeIff result (IsSmall (x *ℤ y)) (x *ℤ y) }
{
    match x.checked_mul(y) {
        Some(product) => small(product),
        None => None,
    }
}
