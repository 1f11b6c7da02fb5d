//! What stands in a pack's changed matrix.
ghost use Rattle.std.specs.Prelude.{◌≡◌, ℕ, suc, ◌+◌, ◌^◌, ◌<◌, ◌≤◌, Bool, true, List, ℤ, pos, ◌*ℤ◌, Option, IfSome};
ghost use Rattle.dec_num.specs.declared.types.Mode.{Mode};
ghost use Rattle.dec_num.specs.declared.types.Scaled.{Scaled};
ghost use Rattle.cob_data.specs.declared.layout.Layout.{Layout};
ghost use Rattle.dom_laws.specs.Meaning.{Storage};
ghost use Rattle.diff_bounds.specs.declared.form.lin.Lin.{Lin};
ghost use Rattle.diff_bounds.specs.Forms.{coef, dot};
ghost use Rattle.diff_bounds.specs.Results.{IsNarrower};
ghost use Rattle.diff_bounds.specs.Matrix.{word};
ghost use Rattle.diff_bounds.specs.Storages.{StandsIn};
ghost use Rattle.diff_bounds.specs.Values.{worths, AreLower, IsOver};
ghost use Rattle.diff_bounds.specs.Assigned.{with_value, AreOperands};
ghost use Rattle.diff_bounds.specs.Demanded.{IsMet};
ghost use Rattle.diff_bounds.specs.Forgotten.{AgreeBut};
ghost use Rattle.diff_bounds.specs.declared.form.known.Known.{Known};
ghost use Rattle.diff_bounds.specs.Errors.{stored_units, AreSure, IsSurer};
ghost use Rattle.diff_bounds.specs.Scales.{Spans};
ghost use Rattle.transfer_ranges.specs.Receivers.{kept_units};
ghost use Rattle.interval_domain.specs.Known.{Known as KnownCell};
ghost use Rattle.cob_graph.specs.declared.homes.Home.{Home};
ghost use Rattle.cell_steps.specs.Storages.{value_at, known_of, KnownStands};
ghost use Rattle.sum_ranges.specs.declared.ranged.Ranged.{Ranged};
ghost use Rattle.sum_ranges.specs.Ranged.{IsIn};
ghost use Rattle.diff_steps.specs.Packs.{Pack, size_of, cells_in, PackStands};
ghost use Rattle.diff_steps.specs.Matrices.{with_words, put_word, forgotten, demanded, lesser};
ghost use Rattle.diff_steps.specs.Stores.{known_of_range, form_stored};
ghost use Rattle.diff_steps.specs.Guards.{ordered};
ghost use Rattle.pack_laws.specs.Orders.{IsShown, IsLeft, AreLowerOff};

/// Where a cell is forgotten, it may have any value or none.
pub fn forgotten_values_are_free()
    ensures { (size to : ℕ) (m : List ℤ) (cells other : ℕ → Option ℤ) → to ≤ size → StandsIn (size + 1) (word (size + 1) m) cells
        → AgreeBut to cells other → StandsIn (size + 1) (word (size + 1) (forgotten size to m)) other }
{}

/// A demand loses no values that meet it.
pub fn demanded_values_stay()
    ensures { (size : ℕ) (form : Lin) (m : List ℤ) (cells : ℕ → Option ℤ) → size ≤ 8 → IsOver size form
        → StandsIn (size + 1) (word (size + 1) m) cells → IsMet size cells form
        → StandsIn (size + 1) (word (size + 1) (demanded size form m)) cells }
{}

/// Values that stand in two matrices stand in the lesser words of both.
pub fn lesser_words_keep_values()
    ensures { (size : ℕ) (a b : List ℤ) (cells : ℕ → Option ℤ) → StandsIn (size + 1) (word (size + 1) a) cells
        → StandsIn (size + 1) (word (size + 1) b) cells → StandsIn (size + 1) (word (size + 1) (lesser size a b)) cells }
{}

/// Where a form shows a value, the value is stored, cut or rounded, at a cell whose unit is 10 ^ more of the pack's, and
/// what is said to be known of it is so, the values with the stored one stand in the store's matrix. A cell without a
/// sign gets the absolute value.
pub fn stored_values_stand()
    ensures { (size : ℕ) (cells : ℕ → Option ℤ) (m : List ℤ) (to : ℕ) → size ≤ 8 → 0 < to → to ≤ size
        → StandsIn (size + 1) (word (size + 1) m) cells
        → (form : Lin) (signed : Bool) (mode : Mode) (known : Known) (v : Scaled) (t more : ℕ) → IsOver size form
        → AreOperands size cells form → AreSure known v t
        → Spans (dot (coef form) (λ j. worths cells (suc j)) 8) form.constant v (t + more)
        → StandsIn (size + 1) (word (size + 1) (form_stored size to signed mode (10 ^ more) known form m))
        (with_value cells to (kept_units signed (stored_units mode v t) *ℤ pos (10 ^ more))) }
{}

/// Lowered to what is known of its cells, a matrix keeps the storages of which that is true.
pub fn known_cells_stand()
    ensures { (l : Layout) (homes : List Home) (known : List KnownCell) (pack : Pack) (s : Storage)
        → ((h : Home) → KnownStands (known_of homes known h) (value_at l s h 0)) → (m : List ℤ) → PackStands l pack m s
        → StandsIn (size_of pack + 1) (word (size_of pack + 1) (with_words (size_of pack) (put_word l homes known pack (word (size_of pack + 1) m)))) (cells_in l pack s) }
{}

/// What a range and a matrix show of the sign of a stored value, and of its decimals, is so.
pub fn signs_are_sure()
    ensures { (size : ℕ) (m : List ℤ) (cells : ℕ → Option ℤ) → size ≤ 8 → StandsIn (size + 1) (word (size + 1) m) cells
        → (form : Lin) → IsOver size form → (v : Scaled) (f : ℕ)
        → Spans (dot (coef form) (λ j. worths cells (suc j)) 8) form.constant v f
        → (to : ℕ) (r : Ranged) → IsIn v r → AreSure (known_of_range size m form to r) v to }
{}

/// Where a form shows the difference of two sides, and a relation leaves the order that they are in, it loses no values.
pub fn ordered_values_stay()
    ensures { (size : ℕ) (cells : ℕ → Option ℤ) → size ≤ 8 → (m : List ℤ) → StandsIn (size + 1) (word (size + 1) m) cells
        → (fine : Bool) (form : Option Lin) (d : Scaled) (f : ℕ) (may_be_below may_be_even may_be_above : Bool)
        → IfSome form (λ g. IsShown size cells g d f) → (fine ≡ true → d.scale ≤ f)
        → IsLeft may_be_below may_be_even may_be_above d
        → StandsIn (size + 1) (word (size + 1) (ordered size fine form may_be_below may_be_even may_be_above m)) cells }
{}

/// Of a lower matrix, a narrower form and a value of which more is sure a store leaves a matrix that is no higher.
pub fn stores_rise()
    ensures { (size to : ℕ) → to ≤ size → (a b : List ℤ) → AreLower (size + 1) (word (size + 1) a) (word (size + 1) b)
        → (f g : Lin) (signed : Bool) (mode : Mode) (unit : ℕ) (known other : Known) → IsNarrower f g → IsSurer known other
        → AreLowerOff size (form_stored size to signed mode unit known f a) (form_stored size to signed mode unit other g b) }
{}
