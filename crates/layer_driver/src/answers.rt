//! Answers to cases, by a layer.
ghost use Rattle.dom_laws.specs.Lattice.{IsElement};

use crate::flow::post;
use crate::shown::{RowKind, shown_row};
use crate::words::{kind_of, number_of};
use dom_laws::Layer;
use std::alloc::{AllocError, Global};

// What an edge makes of a row, so often.
fn post_case<L: Layer>(
    alloc: Global,
    layer: &L,
    rows: RowKind,
    turns: &str,
    edge: &str,
    row: &[i128],
) -> Result<Option<String>, AllocError>
    requires { IsElement (L.lattice layer.now) row.now }
{
    let (Some(turns), Some(edge)) = (turns.parse::<u32>().ok(), number_of(edge, layer.edges()))
    else {
        return Ok(None);
    };
    let mut out = vec![in alloc; 0; layer.words()]?;
    post(layer, edge, row, out.as_mut_slice(), turns);
    Ok(Some(shown_row(alloc, rows, out.as_slice())?))
}

// Whether a row shows that a node meets no fault of a kind.
fn clears_case<L: Layer>(
    alloc: Global,
    layer: &L,
    node: &str,
    kind: &str,
    row: &[i128],
) -> Result<Option<String>, AllocError>
    requires { IsElement (L.lattice layer.now) row.now }
{
    let (Some(node), Some(kind)) = (number_of(node, layer.nodes()), kind_of(kind)) else {
        return Ok(None);
    };
    let clears = layer.clears(node, row, kind);
    Ok(Some(format!(in alloc; "{clears}")?))
}

fn entry_case<L: Layer>(
    alloc: Global,
    layer: &L,
    rows: RowKind,
) -> Result<Option<String>, AllocError> {
    let mut out = vec![in alloc; 0; layer.words()]?;
    layer.entry(out.as_mut_slice());
    Ok(Some(shown_row(alloc, rows, out.as_slice())?))
}

/// The answer to a case, nothing where it can't be read. The layer's rows are of the kind that is given.
pub fn answer_to<L: Layer>(
    alloc: Global,
    layer: &L,
    rows: RowKind,
    case: &[&str],
    row: &[i128],
) -> Result<Option<String>, AllocError>
    requires { IsElement (L.lattice layer.now) row.now }
{
    match case {
        ["post", edge] => post_case(alloc, layer, rows, "1", edge, row),
        ["posts", turns, edge] => post_case(alloc, layer, rows, turns, edge, row),
        ["clears", node, kind] => clears_case(alloc, layer, node, kind, row),
        ["entry"] => entry_case(alloc, layer, rows),
        _ => Ok(None),
    }
}
