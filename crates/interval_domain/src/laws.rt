//! What follows for all rows.
ghost use Rattle.interval_domain.specs.Rows.{RowsAreALattice};

/// The rows for cells with these own ranges and thresholds are a lattice with a widening: `leq` is its order, and
/// `set_unreached`, `join` and `widen` make its least row, its joins and its widened rows.
pub fn rows_are_a_lattice()
    ensures { RowsAreALattice }
{}
