//! Sums, differences and products of scaled numbers.
ghost use Rattle.std.specs.Prelude.{◌≡◌, ◌+◌, ◌≤◌, ◌+ℤ◌, ◌-ℤ◌, ◌*ℤ◌};
ghost use Rattle.dec_num.specs.Exact.{IsSameNumber, sum_of, difference_of, product_of};
ghost use Rattle.dec_num.specs.Scaled.{value_of, units_at, joint_scale, CanAlign, CanAdd, CanSubtract, CanMultiply};

use super::tens::pow10;
use super::types::Scaled;

fn scaled(units: i128, scale: u32) -> Scaled
    ensures units { result.units ≡ units }
    ensures scale { result.scale ≡ scale }
{
    Scaled { units, scale }
}

/// The number at a greater or equal scale.
pub fn align(a: Scaled, scale: u32) -> Scaled
    requires { CanAlign a scale }
    ensures scale { result.scale ≡ scale }
    ensures units { result.units ≡ units_at a scale }
    ensures value { IsSameNumber (value_of result) (value_of a) }
{
    if a.units == 0 {
        return scaled(0, scale);
    }
    scaled(a.units * pow10(scale - a.scale), scale)
}

/// The sum, at the greater of the two scales.
pub fn add(a: Scaled, b: Scaled) -> Scaled
    requires { CanAdd a b }
    ensures scale { result.scale ≡ joint_scale a b }
    ensures units { result.units ≡ units_at a (joint_scale a b) +ℤ units_at b (joint_scale a b) }
    ensures value { IsSameNumber (value_of result) (sum_of (value_of a) (value_of b)) }
    ensures one_scale { a.scale ≡ b.scale →
        (result.scale ≡ a.scale) × (result.units ≡ a.units +ℤ b.units) }
{
    let scale = a.scale.max(b.scale);
    let left = align(a, scale);
    let right = align(b, scale);
    scaled(left.units + right.units, scale)
}

/// The difference `a - b`, at the greater of the two scales.
pub fn sub(a: Scaled, b: Scaled) -> Scaled
    requires { CanSubtract a b }
    ensures scale { result.scale ≡ joint_scale a b }
    ensures units { result.units ≡ units_at a (joint_scale a b) -ℤ units_at b (joint_scale a b) }
    ensures value { IsSameNumber (value_of result) (difference_of (value_of a) (value_of b)) }
    ensures one_scale { a.scale ≡ b.scale →
        (result.scale ≡ a.scale) × (result.units ≡ a.units -ℤ b.units) }
{
    let scale = a.scale.max(b.scale);
    let left = align(a, scale);
    let right = align(b, scale);
    scaled(left.units - right.units, scale)
}

/// The product, whose scale is the sum of the scales.
pub fn mul(a: Scaled, b: Scaled) -> Scaled
    requires { CanMultiply a b }
    ensures scale { result.scale ≡ a.scale + b.scale }
    ensures units { result.units ≡ a.units *ℤ b.units }
    ensures value { IsSameNumber (value_of result) (product_of (value_of a) (value_of b)) }
{
    scaled(a.units * b.units, a.scale + b.scale)
}
