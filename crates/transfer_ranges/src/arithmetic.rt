//! Products of ranges.
ghost use Rattle.std.specs.Prelude.{◌≡◌};
ghost use Rattle.sum_ranges.specs.SumRanges.{product_range};
ghost use Rattle.sum_ranges.specs.Working.{CanMultiplyRanges};

use interval_domain::mul_i;
use sum_ranges::Ranged;

/// The range of the products.
pub(crate) fn product_range(a: Ranged, b: Ranged) -> Ranged
    requires { CanMultiplyRanges a b }
    ensures { result ≡ product_range a b }
{
    Ranged {
        units: mul_i(a.units, b.units),
        scale: a.scale + b.scale,
    }
}
