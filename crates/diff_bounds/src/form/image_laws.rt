//! What follows for all matrices and forms.
ghost use Rattle.std.specs.Prelude.{◌≢◌, ℕ, ◌+◌, ◌≤◌, List, ℤ, ◌≤ℤ◌};
ghost use Rattle.diff_bounds.specs.declared.form.lin.Lin.{Lin};
ghost use Rattle.diff_bounds.specs.Results.{IsNarrower};
ghost use Rattle.diff_bounds.specs.Matrix.{word, IsMatrix};
ghost use Rattle.diff_bounds.specs.Order.{IsAtMost};
ghost use Rattle.diff_bounds.specs.Assigned.{AreAssigned};
ghost use Rattle.diff_bounds.specs.Demanded.{AreDemanded};
ghost use Rattle.diff_bounds.specs.Forgotten.{AreForgotten};

/// A narrower form that is assigned over a lower matrix leaves a lower matrix.
pub fn assigned_matrices_are_monotone(size: usize)
    ensures { (a b : List ℤ) (f g : Lin) (to : ℕ) (c d : ℕ → ℕ → ℤ) → IsMatrix size a → IsAtMost a b → IsNarrower f g → to ≤ size
        → AreAssigned size (word (size + 1) a) to f c → AreAssigned size (word (size + 1) b) to g d
        → (i j : ℕ) → i ≤ size → j ≤ size → i ≢ j → c i j ≤ℤ d i j }
{}

/// The demand of a narrower form leaves a lower matrix of a lower one.
pub fn demanded_matrices_are_monotone(size: usize)
    ensures { (a b : List ℤ) (f g : Lin) (c d : ℕ → ℕ → ℤ) → IsMatrix size a → IsAtMost a b → IsNarrower f g
        → AreDemanded size (word (size + 1) a) f c → AreDemanded size (word (size + 1) b) g d
        → (i j : ℕ) → i ≤ size → j ≤ size → c i j ≤ℤ d i j }
{}

/// Of a lower matrix less is left where a cell is forgotten.
pub fn forgotten_matrices_are_monotone(size: usize)
    ensures { (a b : ℕ → ℕ → ℤ) (at : ℕ) (c d : ℕ → ℕ → ℤ) → ((i j : ℕ) → i ≤ size → j ≤ size → a i j ≤ℤ b i j) → at ≤ size
        → AreForgotten size a at c → AreForgotten size b at d
        → (i j : ℕ) → i ≤ size → j ≤ size → i ≢ j → c i j ≤ℤ d i j }
{}
