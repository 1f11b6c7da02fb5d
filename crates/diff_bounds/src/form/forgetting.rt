//! Cells that are forgotten.
ghost use Rattle.std.specs.Prelude.{◌≡◌, ◌+◌, ◌<◌, ◌≤◌, ℕ, ℤ, Option};
ghost use Rattle.diff_bounds.specs.Matrix.{word, IsMatrix};
ghost use Rattle.diff_bounds.specs.Storages.{StandsIn};
ghost use Rattle.diff_bounds.specs.Forgotten.{AreForgotten, AgreeBut};

use crate::form::assignment::{put_column, put_row};
use crate::matrix::words::NONE;

/// Leaves nothing that the matrix says of a cell, and keeps the other words.
///
/// Where values stand in the matrix, they stand in what is left whatever the cell's own one becomes.
pub fn forget(size: usize, m: &mut [i128], cell: usize)
    requires size { size ≤ 8 }
    requires m { IsMatrix size m.old }
    requires first { 1 ≤ cell }
    requires last { cell ≤ size }
    ensures words { AreForgotten size (word (size + 1) m.old) cell (word (size + 1) m.new) }
    ensures matrix { IsMatrix size m.new }
    ensures meaning { (cells other : ℕ → Option ℤ) → StandsIn (size + 1) (word (size + 1) m.old) cells → AgreeBut cell cells other
        → StandsIn (size + 1) (word (size + 1) m.new) other }
{
    let words = [NONE; 9];
    put_row(size + 1, m, cell, &words);
    put_column(size + 1, m, cell, &words);
}
