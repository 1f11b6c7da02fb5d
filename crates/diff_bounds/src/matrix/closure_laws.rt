//! The closure of a matrix, and the matrices that are tight.
ghost use Rattle.std.specs.Prelude.{◌≡◌, ◌≢◌, ℕ, ◌+◌, ◌<◌, ◌≤◌, List, ℤ, Some, None};
ghost use Rattle.diff_bounds.specs.Matrix.{word, IsMatrix};
ghost use Rattle.diff_bounds.specs.Paths.{HasNoNegativeCycle, IsClosure};
ghost use Rattle.diff_bounds.specs.Closed.{closed, IsClosed, IsClosedOrNone};
ghost use Rattle.diff_bounds.specs.Settled.{IsSettled, IsTightBut};

/// The closing of a matrix is its closure, and nothing exactly where a cycle is negative.
pub fn closing_is_the_closure(size: usize)
    requires { size ≤ 8 }
    ensures { (m : List ℤ) → IsMatrix size m → IsClosedOrNone size m (closed size m) }
{}

/// A matrix has one closure.
pub fn closures_are_one(size: usize)
    ensures { (m c d : List ℤ) → IsMatrix size c → IsMatrix size d
        → IsClosure (size + 1) (word (size + 1) m) (word (size + 1) c)
        → IsClosure (size + 1) (word (size + 1) m) (word (size + 1) d) → c ≡ d }
{}

/// So what `close` leaves is the closing, and there is none where it says that a cycle is negative.
pub fn closures_are_closings(size: usize)
    requires { size ≤ 8 }
    ensures closed { (m c : List ℤ) → IsMatrix size m → IsClosed size m c → closed size m ≡ Some c }
    ensures none { (m : List ℤ) → IsMatrix size m → ¬ HasNoNegativeCycle (size + 1) (word (size + 1) m) → closed size m ≡ None }
{}

/// In a closure that is settled no word is above the sum of two words over a third place, whichever row is left
/// out: two settled words add up to no more than 8 * 10^36, so that no such sum is cut.
pub fn closed_words_are_tight(size: usize)
    ensures { (m c : List ℤ) → IsMatrix size c → IsClosure (size + 1) (word (size + 1) m) (word (size + 1) c)
        → IsSettled c → (at : ℕ) → IsTightBut (size + 1) at (word (size + 1) c) }
{}

/// A matrix in which words of one row and of its column alone have changed stays tight but for that row.
pub fn matrices_stay_tight_beside_a_row(size: usize)
    ensures { (at : ℕ) (old new : ℕ → ℕ → ℤ)
        → ((i j : ℕ) → i < size + 1 → j < size + 1 → i ≢ at → j ≢ at → new i j ≡ old i j)
        → IsTightBut (size + 1) at old → IsTightBut (size + 1) at new }
{}
