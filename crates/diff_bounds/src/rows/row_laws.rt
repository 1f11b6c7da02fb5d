//! What follows for all rows of the matrices of several packs.
ghost use Rattle.diff_bounds.specs.PackRows.{RowsAreALattice};

/// The rows for packs of these sizes and thresholds are a lattice with a widening: `leq_rows` is its order, and `set_least`,
/// `join_rows` and `widen_rows` make its least row, its joins and its widened rows.
pub fn rows_are_a_lattice()
    ensures { RowsAreALattice }
{}
