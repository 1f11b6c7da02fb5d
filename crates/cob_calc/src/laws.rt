//! That what is worked out exactly is what the definition stores.
ghost use Rattle.std.specs.Prelude.{◌≡◌, ℕ, option_map};
ghost use Rattle.dec_num.specs.declared.types.Scaled.{Scaled};
ghost use Rattle.cob_program.specs.Sum.{Sum};
ghost use Rattle.cob_program.specs.Values.{stored_value};
ghost use Rattle.cob_calc.specs.Exact.{exact_value, fraction_of};

/// A law: what is stored of a sum is its exact value.
pub fn exact_values_are_stored()
    ensures { (worth : ℕ → Scaled) (s : Sum) → option_map fraction_of (exact_value worth s) ≡ stored_value worth s }
{}
