//! Rows for all nodes, and the solver over them (Cousot and Cousot 1977).
ghost use Rattle.std.specs.Prelude.{◌≡◌, ℕ, ◌+◌, ◌*◌, ◌^◌, ◌≤◌, length, IfOk, None};
ghost use Rattle.dom_laws.specs.Flow.{IsInductive, IsDominated};
ghost use Rattle.widen_solver.specs.Stored.{Stored, row_at, HasShape};
ghost use Rattle.widen_solver.specs.RowsHeld.{shown_rows};
ghost use Rattle.widen_solver.specs.Solving.{step_bound};

use super::iteration::{settle, start};
use super::node_rows::NodeRows;
use dom_laws::{Domain, Rows, Steps, System};
use std::alloc::{AllocError, Global};
use std::marker::Model;
use std::sync::ledger::Ledger;

/// A row for each of some nodes, which are numbered from 1.
#[derive(Drop)]
pub struct Store {
    rows: NodeRows,
}

impl Model for Store {
    ghost Value = { Stored };

    ghost view = { λ s. record { words = s.rows.words; rows = shown_rows s.rows } };

    // the transfer's room is given back
    ghost invariant = { λ s. s.rows.transfer ≡ None };
}

impl Store {
    /// Makes rows of `words` numbers for so many nodes, and room for one transfer: all the memory
    /// that solving takes. What the rows hold isn't said.
    pub fn new(alloc: Global, nodes: u32, words: usize) -> Result<Store, AllocError>
        requires some { 1 ≤ words }
        requires size { (nodes + 2) * words ≤ 2 ^ 32 }
        ensures words { IfOk result (λ store. store.words ≡ words) }
        ensures nodes { IfOk result (λ store. length store.rows ≡ nodes) }
    {
        let rows = NodeRows::new(alloc, nodes, words)?;
        Ok(Store { rows })
    }
}

impl Rows for Store {
    ghost count = { λ store. length store.rows };

    ghost row_at = { λ store. row_at store.rows };

    fn row(&self, node: u32) -> &[i128] {
        self.rows.row(node as usize - 1)
    }
}

/// Solves the system: fills the store with rows that the entry and every edge keep, whatever it held.
/// Heads are widened and other nodes joined (Cousot and Cousot 1977). Edges are taken in the order of
/// their sources, and from a head on again where it grew by an edge that goes back, so that a loop is
/// done before what lies behind it (Bourdoncle 1993). Takes no memory.
pub fn solve<S: System, L: Ledger>(system: &S, store: &mut Store, steps: &mut Steps<L>)
    requires { HasShape (S.lattice system.now) (S.flow system.now) store.old }
    ensures shape { HasShape (S.lattice system.now) (S.flow system.now) store.new }
    ensures inductive { IsInductive (S.lattice system.now) (S.flow system.now) (row_at store.new.rows) }
    // Nothing is missed that the thresholds can prove: rows that the edges keep, and that widening
    // leaves as they are at the heads, are above these.
    ensures dominated { IsDominated (S.lattice system.now) (S.flow system.now) (row_at store.new.rows) }
    ensures at_least { steps.old + (S.flow system.now).edges ≤ steps.new }
    ensures at_most { steps.new ≤ steps.old + step_bound (S.lattice system.now) (S.flow system.now) }
{
    start(system, &mut store.rows);
    store.rows.take_transfer();
    settle(system, &mut store.rows, steps);
    store.rows.give_transfer();
}
