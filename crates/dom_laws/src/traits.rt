//! The traits of rows, domains, systems and layers, with their laws.
ghost use Rattle.std.specs.Prelude.{◌≡◌, ℕ, ◌+◌, ◌≤◌, List, ℤ, length, IsTrue, false, ◌↔◌};
ghost use Rattle.cob_tree.specs.declared.fault.Kind.{Kind};
ghost use Rattle.cob_tree.specs.Kinds.{has};
ghost use Rattle.dom_laws.specs.Lattice.{Lattice, IsElement, IsLattice};
ghost use Rattle.dom_laws.specs.Flow.{Flow, IsNode, IsEdge, IsHead, IsFlow};
ghost use Rattle.dom_laws.specs.Meaning.{Meaning, IsMeaning};

use super::counter::Steps;
use cob_tree::{Kind, Kinds};
use std::sync::ledger::Ledger;

/// A row for each of some nodes.
pub trait Rows {
    /// How many nodes have a row: those numbered from 1 up to it.
    ghost count: { Self → ℕ };

    ghost row_at: { Self → ℕ → List ℤ };

    /// Shows the node's row.
    fn row(&self, node: u32) -> &[i128]
        requires first { 1 ≤ node }
        requires last { node ≤ count self.now }
        ensures { result.now ≡ row_at self.now node };
}

/// Rows of numbers with an order, joins and a widening. A row is an element where it is well formed.
pub trait Domain {
    ghost lattice: { Self → Lattice };

    /// How many numbers a row has.
    fn words(&self) -> usize
        ensures { result ≡ (lattice self.now).width };

    /// Makes the least row, whatever `a` held.
    fn bottom(&self, a: &mut [i128])
        requires { length a.old ≡ (lattice self.now).width }
        ensures { a.new ≡ (lattice self.now).least };

    /// Whether `a` is below `b`, or means the same.
    fn leq(&self, a: &[i128], b: &[i128]) -> bool
        requires a { IsElement (lattice self.now) a.now }
        requires b { IsElement (lattice self.now) b.now }
        ensures { IsTrue result ↔ (lattice self.now).Below a.now b.now };

    /// Makes `a` the least upper bound of the two.
    fn join(&self, a: &mut [i128], b: &[i128])
        requires a { IsElement (lattice self.now) a.old }
        requires b { IsElement (lattice self.now) b.now }
        ensures { a.new ≡ (lattice self.now).join a.old b.now };

    /// Makes `a` an upper bound of the two, so that it grows only so often, and says whether it grew.
    fn widen(&self, a: &mut [i128], b: &[i128]) -> bool
        requires a { IsElement (lattice self.now) a.old }
        requires b { IsElement (lattice self.now) b.now }
        ensures row { a.new ≡ (lattice self.now).widen a.old b.now }
        ensures kept { (result ≡ false) ↔ (lattice self.now).Below b.now a.old };

    /// How often a row can grow under `widen` at most.
    fn height(&self) -> u64
        ensures { result ≡ (lattice self.now).height };

    ghost ordered: { (s : Self) → IsLattice (lattice s) };
}

/// A graph whose edges transfer rows. Nodes and edges are numbered from 1, and node 1 is the first.
pub trait System: Domain {
    ghost flow: { Self → Flow };

    fn nodes(&self) -> u32
        ensures { result ≡ (flow self.now).nodes };

    fn edges(&self) -> u32
        ensures { result ≡ (flow self.now).edges };

    fn source(&self, edge: u32) -> u32
        requires { IsEdge (flow self.now) edge }
        ensures { result ≡ (flow self.now).source edge };

    fn target(&self, edge: u32) -> u32
        requires { IsEdge (flow self.now) edge }
        ensures { result ≡ (flow self.now).target edge };

    /// Whether an edge goes back to the node, from itself or from a later one.
    fn is_head(&self, node: u32) -> bool
        requires { IsNode (flow self.now) node }
        ensures { IsTrue result ↔ IsHead (flow self.now) node };

    /// Makes the row that node 1 begins with, whatever `out` held.
    fn entry(&self, out: &mut [i128])
        requires { length out.old ≡ (Self.lattice self.now).width }
        ensures { out.new ≡ (flow self.now).entry };

    /// Makes what the edge makes of the row at its source, whatever `out` held, and counts one.
    fn post<L: Ledger>(&self, edge: u32, from: &[i128], out: &mut [i128], steps: &mut Steps<L>)
        requires edge { IsEdge (flow self.now) edge }
        requires from { IsElement (Self.lattice self.now) from.now }
        requires out { length out.old ≡ (Self.lattice self.now).width }
        ensures row { out.new ≡ (flow self.now).post edge from.now }
        ensures counted { steps.new ≡ steps.old + 1 };

    ghost flows: { (s : Self) → IsFlow (Self.lattice s) (flow s) };
}

/// A system whose rows stand for storages of a program.
pub trait Layer: System {
    ghost meaning: { Self → Meaning };

    /// How many words a row has that is lent to `cleared`.
    ghost lent_width: { Self → ℕ };

    fn lent_words(&self) -> usize
        ensures { result ≡ lent_width self.now };

    /// The kinds of faults that the row shows the node not to meet. What the lent row holds is lost.
    fn cleared(&self, node: u32, row: &[i128], lent: &mut [i128]) -> Kinds
        requires node { IsNode (Self.flow self.now) node }
        requires row { IsElement (Self.lattice self.now) row.now }
        requires lent { length lent.old ≡ lent_width self.now }
        ensures { (kind : Kind) → IsTrue (has result kind) ↔ (meaning self.now).Clears node row.now kind };

    /// Whether the row shows that the node meets no fault of this kind.
    fn clears(&self, node: u32, row: &[i128], kind: Kind) -> bool
        requires node { IsNode (Self.flow self.now) node }
        requires row { IsElement (Self.lattice self.now) row.now }
        ensures { IsTrue result ↔ (meaning self.now).Clears node row.now kind };

    ghost means: { (s : Self) → IsMeaning (Self.lattice s) (Self.flow s) (meaning s) };
}
