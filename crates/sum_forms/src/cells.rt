//! The cells of a pack.
ghost use Rattle.std.specs.Prelude.{◌≡◌, ◌<◌, ◌≤◌, ℕ, Option, IfSome};

/// Which items have a cell in a pack, and the pack's unit.
pub trait PackCells {
    ghost cell_at: { Self → ℕ → Option ℕ };

    ghost decimals_of: { Self → ℕ };

    /// The cell of the item at a place, cells counted from 0.
    fn cell(&self, place: u32) -> Option<usize>
        ensures value { result ≡ cell_at self.now place }
        ensures few { IfSome result (λ k. k < 8) };

    /// How many decimals the values of the cells have in the pack's unit.
    fn decimals(&self) -> u32
        ensures value { result ≡ decimals_of self.now }
        ensures small { result ≤ 37 };
}
