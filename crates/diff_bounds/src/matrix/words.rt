//! The words of a matrix and their places.
ghost use Rattle.std.specs.Prelude.{◌≡◌, ◌+◌, ◌*◌, ◌<◌, ◌≤◌};

use dec_num::{LIMIT, NO_NUMBER};

/// The word of no bound.
pub const NONE: i128 = NO_NUMBER;

/// The greatest number that a word can be.
pub const LARGEST: i128 = LIMIT;

// the place of a word, where a row has so many
#[inline(always)]
pub(crate) fn place_of(places: usize, row: usize, column: usize) -> usize
    requires few { places ≤ 9 }
    requires row { row < places }
    requires column { column < places }
    ensures value { result ≡ row * places + column }
    ensures within { result < places * places }
{
    row * places + column
}

// how many words a matrix has
#[inline(always)]
pub(crate) fn word_count(size: usize) -> usize
    requires { size ≤ 8 }
    ensures { result ≡ (size + 1) * (size + 1) }
{
    (size + 1) * (size + 1)
}
