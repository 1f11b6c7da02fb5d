//! Ranges as intervals beside their scales.
ghost use Rattle.std.specs.Prelude.{◌≡◌};
ghost use Rattle.cell_layer.specs.Taking.{with_scales};

use interval_domain::Interval;
use transfer_ranges::Taken as Ranges;

/// The range of a sum in units of its scale. Where a quotient is its last operation and stays exact, `top` and `scale` are
/// those of what is divided, `under` and `under_scale` those of what divides.
#[derive(Clone, Copy, PartialEq, Eq)]
pub struct Taken {
    pub top: Interval,
    pub scale: u32,
    pub under: Option<Interval>,
    pub under_scale: u32,
}

pub(crate) fn with_scales(taken: Ranges) -> Taken
    ensures { result ≡ with_scales taken }
{
    match taken.under {
        None => Taken {
            top: taken.top.units,
            scale: taken.top.scale,
            under: None,
            under_scale: 0,
        },
        Some(under) => Taken {
            top: taken.top.units,
            scale: taken.top.scale,
            under: Some(under.units),
            under_scale: under.scale,
        },
    }
}
