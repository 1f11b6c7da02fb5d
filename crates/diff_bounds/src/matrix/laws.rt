//! What follows for all matrices.
ghost use Rattle.std.specs.Prelude.{◌≡◌, ℕ, ◌+◌, ◌*◌, ◌<◌, ◌≤◌, List, ℤ, Option, ◌≤ℤ◌, length};
ghost use Rattle.dom_laws.specs.Lattice.{IsElement, IsLattice, CanGrow};
ghost use Rattle.diff_bounds.specs.Matrix.{word, none, IsMatrix};
ghost use Rattle.diff_bounds.specs.Paths.{path_sum, cut_of, IsPath, HasNoNegativeCycle, IsClosure};
ghost use Rattle.diff_bounds.specs.Storages.{StandsIn};
ghost use Rattle.diff_bounds.specs.Order.{IsAtMost};
ghost use Rattle.diff_bounds.specs.Widening.{AreThresholds};
ghost use Rattle.diff_bounds.specs.Lattice.{matrices};

/// The matrices for a pack of `size` cells are a lattice with a widening: `leq` is its order, and `join` and
/// `widen` make its joins and its widened rows.
pub fn matrices_are_a_lattice(size: usize, thresholds: &[i128])
    requires { AreThresholds thresholds.now }
    ensures { IsLattice (matrices size thresholds.now) }
{}

/// Under `widen` a matrix grows at most once for each word off the diagonal and each threshold, and once more
/// for each such word.
pub fn growth_is_bounded(size: usize, thresholds: &[i128])
    requires { AreThresholds thresholds.now }
    ensures { let l = matrices size thresholds.now in
        (m : List ℤ) (n : ℕ) → IsElement l m → CanGrow l m n → n ≤ size * (size + 1) * (length thresholds.now + 1) }
{}

/// A lower matrix has a lower closure, and a higher one has no negative cycle where the lower has none.
pub fn close_is_monotone(size: usize)
    ensures sums { (a b c d : List ℤ) → IsMatrix size a → IsMatrix size c → IsMatrix size d → IsAtMost a b
        → IsClosure (size + 1) (word (size + 1) a) (word (size + 1) c)
        → IsClosure (size + 1) (word (size + 1) b) (word (size + 1) d) → IsAtMost c d }
    ensures cycles { (a b : List ℤ) → IsMatrix size a → IsAtMost a b
        → HasNoNegativeCycle (size + 1) (word (size + 1) a) → HasNoNegativeCycle (size + 1) (word (size + 1) b) }
{}

/// In a closure a word is the cut of the sum along a shortest path, and none where there is no path.
pub fn closed_words_are_least_sums(size: usize)
    ensures path { (a c : List ℤ) → IsMatrix size c → IsClosure (size + 1) (word (size + 1) a) (word (size + 1) c)
        → (i j : ℕ) → i ≤ size → j ≤ size → (p : List ℕ) → IsPath (size + 1) (word (size + 1) a) i p j
        → ((q : List ℕ) → IsPath (size + 1) (word (size + 1) a) i q j → path_sum (word (size + 1) a) i p j ≤ℤ path_sum (word (size + 1) a) i q j)
        → word (size + 1) c i j ≡ cut_of (path_sum (word (size + 1) a) i p j) }
    ensures apart { (a c : List ℤ) → IsMatrix size c → IsClosure (size + 1) (word (size + 1) a) (word (size + 1) c)
        → (i j : ℕ) → i ≤ size → j ≤ size → ((p : List ℕ) → ¬ IsPath (size + 1) (word (size + 1) a) i p j)
        → word (size + 1) c i j ≡ none }
{}

/// What stands in a matrix stands in each higher one.
pub fn stands_above(size: usize)
    ensures { (a b : List ℤ) (cells : ℕ → Option ℤ) → IsMatrix size a → IsAtMost a b
        → StandsIn (size + 1) (word (size + 1) a) cells → StandsIn (size + 1) (word (size + 1) b) cells }
{}
