//! The system that is timed: a chain of nodes with wide rows.
ghost use Rattle.std.specs.Prelude.{◌≡◌, ◌<◌, ◌≤◌, ◌≤ℤ◌, ◌<ℤ◌, ◌↔◌, IsTrue, pos, length, get_or, slice_set};
ghost use Rattle.std.specs.Int.{int_max};
ghost use Rattle.bench.specs.Wide.{word, row_of, wide, chain};
ghost use Rattle.bench.specs.WideLaws.{wide_ordered, chain_flows};

use dom_laws::{Domain, Steps, System};
use std::sync::ledger::Ledger;

/// How many words a row has.
pub const WIDTH: usize = 600;

/// A chain of so many nodes.
#[derive(Drop)]
pub struct Chain {
    pub nodes: u32,
    ghost some: { 1 ≤ nodes },
}

fn set_at(a: &mut [i128], k: usize, level: &i128)
    requires { k < length a.old }
    ensures { a.new ≡ slice_set a.old k level.now }
{
    a[k] = *level;
}

#[tactic(auto, using(crate::proofs::Levels::filled_none, crate::proofs::Levels::filled_more, crate::proofs::Levels::filled_all))]
fn fill(a: &mut [i128], level: &i128)
    requires { length a.old ≡ 600 }
    ensures { a.new ≡ row_of level.now }
{
    for k in 0..a.len() {
        set_at(a, k, level);
    }
}

fn raise_at(a: &mut [i128], b: &[i128], k: usize)
    requires a { k < length a.old }
    requires b { k < length b.now }
    ensures { a.new ≡ slice_set a.old k (int_max (get_or a.old k (pos 0)) (get_or b.now k (pos 0))) }
{
    a[k] = a[k].max(b[k]);
}

// the greater word at each place
#[tactic(auto, using(crate::proofs::Levels::filled_none))]
fn raise(a: &mut [i128], b: &[i128])
    requires a { a.old ≡ row_of (word a.old) }
    requires b { b.now ≡ row_of (word b.now) }
    ensures { a.new ≡ row_of (int_max (word a.old) (word b.now)) }
{
    for k in 0..a.len() {
        raise_at(a, b, k);
    }
}

fn is_above(a: &[i128], b: &[i128], k: usize) -> bool
    requires a { k < length a.now }
    requires b { k < length b.now }
    ensures { IsTrue result ↔ get_or b.now k (pos 0) <ℤ get_or a.now k (pos 0) }
{
    a[k] > b[k]
}

fn is_below(a: &[i128], b: &[i128]) -> bool
    requires a { a.now ≡ row_of (word a.now) }
    requires b { b.now ≡ row_of (word b.now) }
    ensures { IsTrue result ↔ word a.now ≤ℤ word b.now }
{
    for k in 0..a.len() {
        if is_above(a, b, k) {
            return false;
        }
    }
    true
}

impl Domain for Chain {
    ghost lattice = { λ _. wide };

    fn words(&self) -> usize {
        WIDTH
    }

    fn bottom(&self, a: &mut [i128]) {
        fill(a, &0);
    }

    fn leq(&self, a: &[i128], b: &[i128]) -> bool {
        is_below(a, b)
    }

    fn join(&self, a: &mut [i128], b: &[i128]) {
        raise(a, b);
    }

    fn widen(&self, a: &mut [i128], b: &[i128]) -> bool {
        let grows = !is_below(b, a);
        if grows {
            fill(a, &9);
        }
        grows
    }

    fn height(&self) -> u64 {
        9
    }

    ghost ordered = { λ _. wide_ordered };
}

impl System for Chain {
    ghost flow = { λ s. chain s.nodes };

    fn nodes(&self) -> u32 {
        self.nodes
    }

    fn edges(&self) -> u32 {
        self.nodes - 1
    }

    fn source(&self, edge: u32) -> u32 {
        edge
    }

    fn target(&self, edge: u32) -> u32 {
        edge + 1
    }

    #[tactic(auto, using(crate::specs::WideLaws::no_heads))]
    fn is_head(&self, node: u32) -> bool {
        let _node = node;
        false
    }

    fn entry(&self, out: &mut [i128]) {
        fill(out, &1);
    }

    fn post<L: Ledger>(&self, edge: u32, from: &[i128], out: &mut [i128], steps: &mut Steps<L>) {
        let _edge = edge;
        steps.tick();
        out.copy_from_slice(from);
    }

    ghost flows = { λ s. chain_flows s.nodes s.some };
}
