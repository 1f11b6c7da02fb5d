//! Whether sums of two words are never cut.
ghost use Rattle.std.specs.Prelude.{ℕ, ◌≤◌, ◌<◌, ◌↔◌, IsTrue, length};
ghost use Rattle.diff_bounds.specs.Matrix.{IsMatrix, IsWord};
ghost use Rattle.diff_bounds.specs.Settled.{IsSettledWord, IsSettled};

use crate::matrix::words::NONE;

// the greatest number in a settled matrix
const MOST: i128 = 4_000_000_000_000_000_000_000_000_000_000_000_000;

// whether the word is none or a number that is not too great
fn is_settled_word(word: i128) -> bool
    requires { IsWord word }
    ensures { IsTrue result ↔ IsSettledWord word }
{
    -MOST <= word && (word <= MOST || NONE <= word)
}

/// Whether each word is none or at most 4 * 10^36 in absolute value.
pub fn settled(size: usize, m: &[i128]) -> bool
    requires size { size ≤ 8 }
    requires m { IsMatrix size m.now }
    ensures { IsTrue result ↔ IsSettled m.now }
{
    for k in 0..m.len() {
        if !is_settled_word(m[k]) {
            return false;
        }
    }
    true
}
