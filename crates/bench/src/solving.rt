//! Any system solved, and the rows looked at.
ghost use Rattle.std.specs.Prelude.{◌≡◌, ◌+◌, ◌*◌, ◌^◌, ◌≤◌, IfOk};
ghost use Rattle.dom_laws.specs.Flow.{IsNode, IsInductive};
ghost use Rattle.widen_solver.specs.Stored.{HasShape, row_at};

use dom_laws::{Domain, Rows, Steps, System, pass};
use std::alloc::{AllocError, Global};
use std::sync::ledger::Ledger;
use widen_solver::{Store, solve};

pub fn solved<S: System, L: Ledger>(
    alloc: Global,
    system: &S,
    steps: &mut Steps<L>,
) -> Result<Store, AllocError>
    requires some { 1 ≤ (S.lattice system.now).width }
    requires size { ((S.flow system.now).nodes + 2) * (S.lattice system.now).width ≤ 2 ^ 32 }
    ensures shape { IfOk result (HasShape (S.lattice system.now) (S.flow system.now)) }
    ensures inductive { IfOk result
        (λ store. IsInductive (S.lattice system.now) (S.flow system.now) (row_at store.rows)) }
{
    let mut store = Store::new(alloc, system.nodes(), system.words())?;
    solve(system, &mut store, steps);
    Ok(store)
}

/// The first word of a node's row.
pub fn level_at<S: System>(system: &S, store: &Store, node: u32) -> i128
    requires node { IsNode (S.flow system.now) node }
    requires shape { HasShape (S.lattice system.now) (S.flow system.now) store.now }
{
    let _words = system.words();
    store.row(node).first().copied().unwrap_or(0)
}

/// Whether the entry and every edge keep the store's rows.
pub fn is_kept<S: System>(alloc: Global, system: &S, store: &Store) -> Result<bool, AllocError>
    requires shape { HasShape (S.lattice system.now) (S.flow system.now) store.now }
    requires inductive { IsInductive (S.lattice system.now) (S.flow system.now) (row_at store.now.rows) }
{
    let mut out = vec![in alloc; 0; system.words()]?;
    Ok(pass(system, store, out.as_mut_slice()).is_none())
}
