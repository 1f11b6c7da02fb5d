//! What follows from the laws for every domain and every layer.
ghost use Rattle.std.specs.Prelude.{ℕ, ◌≤◌, List, ℤ};
ghost use Rattle.cob_tree.specs.declared.fault.Kind.{Kind};
ghost use Rattle.dom_laws.specs.Lattice.{IsElement, CanGrow};
ghost use Rattle.dom_laws.specs.Flow.{IsNode, IsInductive, HeadsAreFixed, IsDominated};
ghost use Rattle.dom_laws.specs.Meaning.{Storage, ReachesIn, IsGranted};

use super::traits::{Domain, Layer, Rows};

/// No row grows more often than `height` under `widen`.
pub fn growth_is_bounded<D: Domain>(domain: &D)
    ensures { let l = D.lattice domain.now in
        (row : List ℤ) (n : ℕ) → IsElement l row → CanGrow l row n → n ≤ l.height }
{}

/// A storage that comes to a node stands in the node's row, where the rows are inductive.
pub fn stands_where_reached<L: Layer, R: Rows>(layer: &L, rows: &R)
    requires inductive { IsInductive (L.lattice layer.now) (L.flow layer.now) (R.row_at rows.now) }
    requires granted { IsGranted (L.flow layer.now) (L.meaning layer.now) }
    ensures { let m = L.meaning layer.now in
        (n node : ℕ) (s : Storage) → ReachesIn (L.flow layer.now) m.runs n node s
        → m.StandsFor (R.row_at rows.now node) s }
{}

/// No run meets a fault that its node's row clears, where the rows are inductive.
pub fn clears_no_fault<L: Layer, R: Rows>(layer: &L, rows: &R)
    requires inductive { IsInductive (L.lattice layer.now) (L.flow layer.now) (R.row_at rows.now) }
    requires granted { IsGranted (L.flow layer.now) (L.meaning layer.now) }
    ensures { let m = L.meaning layer.now in
        (n node : ℕ) (s : Storage) (kind : Kind) → ReachesIn (L.flow layer.now) m.runs n node s
        → m.Clears node (R.row_at rows.now node) kind → ¬ m.runs.Meets node kind s }
{}

/// What an inductive assignment whose heads widening leaves clears, rows clear that lie below all of these.
pub fn nothing_is_missed<L: Layer, R: Rows>(layer: &L, rows: &R)
    requires inductive { IsInductive (L.lattice layer.now) (L.flow layer.now) (R.row_at rows.now) }
    requires dominated { IsDominated (L.lattice layer.now) (L.flow layer.now) (R.row_at rows.now) }
    ensures { let l = L.lattice layer.now in let f = L.flow layer.now in let m = L.meaning layer.now in
        (others : ℕ → List ℤ) → IsInductive l f others → HeadsAreFixed l f others
        → (node : ℕ) (kind : Kind) → IsNode f node → m.Clears node (others node) kind
        → m.Clears node (R.row_at rows.now node) kind }
{}
