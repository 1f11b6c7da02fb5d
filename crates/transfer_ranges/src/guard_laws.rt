//! What follows for all tests.
ghost use Rattle.std.specs.Prelude.{◌≡◌, ◌↔◌, ℕ, ℤ, ◌≤ℤ◌, Bool, true, Some, Ok, List, IfSome, IsSomeAnd};
ghost use Rattle.std.specs.Option.{option_map};
ghost use Rattle.cob_tree.specs.declared.token.Rel.{Rel};
ghost use Rattle.cob_data.specs.declared.layout.Layout.{Layout};
ghost use Rattle.cob_data.specs.declared.layout.Pair.{Pair};
ghost use Rattle.cob_program.specs.Logic.{Test};
ghost use Rattle.cob_runs.specs.Deciding.{test_holds};
ghost use Rattle.sum_ranges.specs.declared.ranged.Ranged.{Ranged};
ghost use Rattle.sum_ranges.specs.Ranged.{ranged, IsOrdered};
ghost use Rattle.sum_ranges.specs.Results.{IsRangeOf};
ghost use Rattle.interval_domain.specs.declared.bounds.Interval.{Interval};
ghost use Rattle.interval_domain.specs.Bounds.{Holds};
ghost use Rattle.cob_edge_parts.specs.Meaning.{is_positive};
ghost use Rattle.transfer_ranges.specs.Kept.{kept, is_met, IsLeastIfAny, IsPartOf, UnitsBelow};
ghost use Rattle.transfer_ranges.specs.Counts.{count_kept};
ghost use Rattle.transfer_ranges.specs.Sides.{left_kept, right_kept};
ghost use Rattle.transfer_ranges.specs.Members.{member_kept};
ghost use Rattle.transfer_ranges.specs.Guards.{guarded};
ghost use Rattle.transfer_ranges.specs.Meaning.{IsLeftOf, IsRightOf, IsMemberOf, ItemsHold, CutsHold, CutsFit, CutsBelow, Knows};

/// A law: a search is answered by the least interval of the numbers of which its test is true, and it tells whether there
/// is one.
pub fn searches_are_least()
    ensures least { (test : ℤ → Bool) (i : Interval) → IsLeastIfAny (λ z. Holds i z × (test z ≡ true)) (kept test i) }
    ensures met { (test : ℤ → Bool) (i : Interval) → (is_met test i ≡ true) ↔ ((z : ℤ) × Holds i z × (test z ≡ true)) }
{}

/// A law: what a relation leaves of a side is the least range of the numbers beside which some number of the other side
/// gives it the outcome, and there is nothing left where there are none; what ranges of values leave of an item is the least
/// range of the numbers that can lie in one of them, or outside of each.
pub fn cuts_are_least()
    ensures left { (r : Rel) (wanted : Bool) (a b : Ranged) →
        IsRangeOf (IsLeftOf r wanted a b) (option_map (λ i. ranged i a.scale) (left_kept r wanted a b)) }
    ensures right { (r : Rel) (wanted : Bool) (a b : Ranged) →
        IsRangeOf (IsRightOf r wanted a b) (option_map (λ i. ranged i b.scale) (right_kept r wanted a b)) }
    ensures members { (range : ℕ → Ranged) (place : ℕ) (ps : List Pair) (wanted : Bool) →
        IsRangeOf (IsMemberOf range wanted place ps)
        (option_map (λ i. ranged i (range place).scale) (member_kept range place ps wanted)) }
{}

/// A law: where a test has an outcome, the numbers of items lie in what the outcome leaves of them.
pub fn guards_are_sound()
    ensures { (l : Layout) (range : ℕ → Ranged) (is_numeric : ℕ → Bool) (storage : List ℕ) →
        ItemsHold l range is_numeric storage → (t : Test) (wanted : Bool) → test_holds l storage t ≡ Ok wanted →
        IsSomeAnd (guarded l range is_numeric t wanted) (CutsHold l range storage) }
{}

/// A law: where more is known of items, a test leaves less of them.
pub fn guards_rise()
    ensures { (l : Layout) (narrow : ℕ → Ranged) (more : ℕ → Bool) (wide : ℕ → Ranged) (fewer : ℕ → Bool) →
        Knows narrow more wide fewer → (t : Test) (wanted : Bool) → CutsBelow (guarded l narrow more t wanted) (guarded l wide fewer t wanted) }
{}

/// A law: a test leaves of an item some of its numbers.
pub fn cuts_fit()
    ensures { (l : Layout) (range : ℕ → Ranged) (is_numeric : ℕ → Bool) →
        ((place : ℕ) → IsOrdered (range place)) → (t : Test) (wanted : Bool) → IfSome (guarded l range is_numeric t wanted) (CutsFit range) }
{}

/// A law: the numbers of a counter for which its test has an outcome lie in what the outcome leaves; more is left of a
/// wider interval, and nothing else than it had.
pub fn counts_are_cut()
    ensures sound { (wanted : Bool) (i : Interval) (v : ℤ) → Holds i v → is_positive v ≡ wanted →
        IsSomeAnd (count_kept wanted i) (λ j. Holds j v) }
    ensures rises { (wanted : Bool) (i j : Interval) → j.low ≤ℤ i.low → i.high ≤ℤ j.high →
        UnitsBelow (count_kept wanted i) (count_kept wanted j) }
    ensures fits { (wanted : Bool) (i : Interval) → IfSome (count_kept wanted i) (λ j. IsPartOf j i) }
{}
