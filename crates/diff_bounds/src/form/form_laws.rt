//! What follows for all forms.
ghost use Rattle.std.specs.Prelude.{ℤ};
ghost use Rattle.diff_bounds.specs.declared.form.lin.Lin.{Lin};
ghost use Rattle.diff_bounds.specs.Forms.{IsSmallForm};
ghost use Rattle.diff_bounds.specs.Results.{sum_of, multiple_of, IsNarrower};

/// Narrower forms have a narrower sum, which is there where that of the wider ones is.
pub fn narrower_forms_have_narrower_sums()
    ensures { (a b c d : Lin) → IsNarrower a c → IsNarrower b d
        → IsSmallForm (sum_of c d) → IsSmallForm (sum_of a b) × IsNarrower (sum_of a b) (sum_of c d) }
{}

/// A narrower form has a narrower multiple, which is there where that of the wider one is.
pub fn narrower_forms_have_narrower_multiples()
    ensures { (a b : Lin) (by : ℤ) → IsNarrower a b
        → IsSmallForm (multiple_of b by) → IsSmallForm (multiple_of a by) × IsNarrower (multiple_of a by) (multiple_of b by) }
{}
