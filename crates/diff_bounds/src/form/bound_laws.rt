//! What follows for all matrices and forms.
ghost use Rattle.std.specs.Prelude.{ℕ, ◌+◌, ◌≤◌, List, ℤ, Option};
ghost use Rattle.interval_domain.specs.Bounds.{Holds};
ghost use Rattle.diff_bounds.specs.declared.form.lin.Lin.{Lin};
ghost use Rattle.diff_bounds.specs.Results.{IsNarrower};
ghost use Rattle.diff_bounds.specs.Matrix.{word, IsMatrix};
ghost use Rattle.diff_bounds.specs.Order.{IsAtMost};
ghost use Rattle.diff_bounds.specs.Storages.{StandsIn};
ghost use Rattle.diff_bounds.specs.Numbers.{IsAbove, IsUnder};
ghost use Rattle.diff_bounds.specs.Upper.{upper_of};
ghost use Rattle.diff_bounds.specs.Values.{values_in, IsOver};

/// Where cells stand in a matrix, no number that the form can be is above the bound that the matrix shows.
pub fn no_value_is_above_its_bound(size: usize)
    requires { size ≤ 8 }
    ensures { (m : List ℤ) (cells : ℕ → Option ℤ) (form : Lin) (z : ℤ) → IsOver size form
        → StandsIn (size + 1) (word (size + 1) m) cells → Holds (values_in form cells) z → IsAbove z (upper_of size m form) }
{}

/// A lower matrix shows no greater bound of a narrower form.
pub fn lower_matrices_show_lower_bounds(size: usize)
    ensures { (a b : List ℤ) (f g : Lin) → IsMatrix size a → IsAtMost a b → IsNarrower f g
        → IsUnder (upper_of size a f) (upper_of size b g) }
{}
