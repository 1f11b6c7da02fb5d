//! Ranges of decimals, and those of items.
ghost use Rattle.std.specs.Prelude.{◌≡◌, ℕ};
ghost use Rattle.cob_program.specs.Bounds.{Bound};
ghost use Rattle.sum_ranges.specs.declared.ranged.Ranged.{Ranged};

use interval_domain::Interval;

/// The decimals of one scale whose units lie in an interval.
#[derive(Clone, Copy, PartialEq, Eq)]
pub struct Ranged {
    pub units: Interval,
    pub scale: u32,
}

/// The ranges of items, by their places.
pub trait Ranges {
    ghost range_at: { Self → ℕ → Ranged };

    /// How great the numbers of an item can be.
    ghost bound_at: { Self → ℕ → Bound };

    /// The range of an item.
    fn range(&self, place: u32) -> Ranged
        ensures { result ≡ range_at self.now place };
}
