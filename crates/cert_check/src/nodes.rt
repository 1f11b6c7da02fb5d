//! The faults that some node of a statement doesn't clear.
ghost use Rattle.std.specs.Prelude.{◌≡◌, ◌≤◌, ℕ, List, Bool, length, IfOk};
ghost use Rattle.cob_tree.specs.declared.fault.Kind.{Kind};
ghost use Rattle.cob_program.specs.ActView.{plain_program};
ghost use Rattle.dom_laws.specs.Flow.{IsInductive, IsNode};
ghost use Rattle.dom_laws.specs.Leaks.{HasElements};
ghost use Rattle.cell_laws.specs.Layer.{statement_at};
ghost use Rattle.cert_check.specs.OpenPairs.{pairs_by};
ghost use Rattle.cert_check.specs.Assignments.{Assignment, clears, open_pairs};
ghost use Rattle.cob_tree.specs.Kinds.{kinds_of};
ghost use Rattle.cert_check.specs.Clearing.{AreClearedTo, TestsTell};

use crate::cleared::{note, push_left_open};
use cob_graph::Graph;
use cob_program::Program;
use cob_tree::{Kinds, Open};
use dom_laws::{Layer, Rows};
use std::alloc::{AllocError, Global};

// What a node clears. What the lent row holds is lost.
fn clears_all<L: Layer, R: Rows>(layer: &L, rows: &R, node: u32, lent: &mut [i128]) -> Kinds
    requires count { (L.flow layer.now).nodes ≤ R.count rows.now }
    requires rows { HasElements (L.lattice layer.now) (L.flow layer.now) (R.row_at rows.now) }
    requires node { IsNode (L.flow layer.now) node }
    requires lent { length lent.old ≡ L.lent_width layer.now }
    ensures { (clears : ℕ → Kind → Bool) → TestsTell (L.flow layer.now) (L.meaning layer.now) (R.row_at rows.now) clears
        → result ≡ kinds_of (clears node) }
{
    layer.cleared(node, rows.row(node), lent)
}

// The number of a node's statement.
fn statement_at(graph: &Graph, node: u32) -> u32
    requires { 1 ≤ node }
    ensures { result ≡ statement_at graph.now node }
{
    match graph.nodes.get().get(node as usize - 1) {
        Some(node) => node.statement,
        None => 0,
    }
}

// Notes at each statement what all its nodes clear. What the lent row holds is lost.
fn note_nodes<L: Layer, R: Rows>(
    layer: &L,
    rows: &R,
    graph: &Graph,
    lent: &mut [i128],
    noted: &mut [Kinds],
)
    requires nodes { (L.flow layer.now).nodes ≡ length graph.now.nodes }
    requires count { (L.flow layer.now).nodes ≤ R.count rows.now }
    requires rows { HasElements (L.lattice layer.now) (L.flow layer.now) (R.row_at rows.now) }
    requires lent { length lent.old ≡ L.lent_width layer.now }
    requires none { (clears : ℕ → Kind → Bool) → AreClearedTo graph.now clears 0 noted.old }
    ensures { (clears : ℕ → Kind → Bool) → TestsTell (L.flow layer.now) (L.meaning layer.now) (R.row_at rows.now) clears
        → AreClearedTo graph.now clears (length graph.now.nodes) noted.new }
{
    for k in 0..layer.nodes() {
        let cleared = clears_all(layer, rows, k + 1, lent);
        note(noted, statement_at(graph, k + 1), cleared);
    }
}

// What all nodes of a statement clear, for each of the first statements.
fn cleared<L: Layer, R: Rows>(
    alloc: Global,
    layer: &L,
    rows: &R,
    graph: &Graph,
    statements: u32,
) -> Result<Vec<Kinds>, AllocError>
    requires nodes { (L.flow layer.now).nodes ≡ length graph.now.nodes }
    requires count { (L.flow layer.now).nodes ≤ R.count rows.now }
    requires rows { HasElements (L.lattice layer.now) (L.flow layer.now) (R.row_at rows.now) }
    ensures count { IfOk result (λ noted. length noted.items ≡ statements) }
    ensures cleared { IfOk result (λ noted. (clears : ℕ → Kind → Bool)
        → TestsTell (L.flow layer.now) (L.meaning layer.now) (R.row_at rows.now) clears
        → AreClearedTo graph.now clears (length graph.now.nodes) noted.items) }
{
    let mut noted = vec![in alloc; Kinds::all(); statements as usize]?;
    let mut lent = vec![in alloc; 0; layer.lent_words()]?;
    note_nodes(
        layer,
        rows,
        graph,
        lent.as_mut_slice(),
        noted.as_mut_slice(),
    );
    Ok(noted)
}

// The faults that some node of one of so many statements doesn't clear by its row, by statement, then by kind.
fn pairs_by<L: Layer, R: Rows>(
    alloc: Global,
    layer: &L,
    rows: &R,
    graph: &Graph,
    statements: u32,
) -> Result<Vec<Open>, AllocError>
    requires nodes { (L.flow layer.now).nodes ≡ length graph.now.nodes }
    requires count { (L.flow layer.now).nodes ≤ R.count rows.now }
    requires rows { HasElements (L.lattice layer.now) (L.flow layer.now) (R.row_at rows.now) }
    ensures { IfOk result (λ pairs. (clears : ℕ → Kind → Bool)
        → TestsTell (L.flow layer.now) (L.meaning layer.now) (R.row_at rows.now) clears
        → pairs.items ≡ pairs_by graph.now clears statements) }
{
    let noted = cleared(alloc, layer, rows, graph, statements)?;
    let mut pairs = Vec::new(alloc);
    for k in 0..statements {
        push_left_open(&mut pairs, k + 1, noted[k as usize])?;
    }
    Ok(pairs)
}

/// The faults that some node of a statement doesn't clear by its row, by statement, then by kind, for rows that all
/// edges of a layer keep: no edge is gone over again. They are the open pairs of each assignment that says what the
/// rows show.
pub fn open_pairs<L: Layer, R: Rows>(
    alloc: Global,
    layer: &L,
    rows: &R,
    program: &Program,
    graph: &Graph,
) -> Result<Vec<Open>, AllocError>
    requires nodes { (L.flow layer.now).nodes ≡ length graph.now.nodes }
    requires count { (L.flow layer.now).nodes ≤ R.count rows.now }
    requires inductive { IsInductive (L.lattice layer.now) (L.flow layer.now) (R.row_at rows.now) }
    ensures { IfOk result (λ pairs. (packs : List (List ℕ)) (a : Assignment)
        → TestsTell (L.flow layer.now) (L.meaning layer.now) (R.row_at rows.now)
        (clears (plain_program program.now) graph.now packs a)
        → pairs.items ≡ open_pairs (plain_program program.now) graph.now packs a) }
{
    pairs_by(alloc, layer, rows, graph, program.statements)
}
