//! One row for all nodes.
ghost use Rattle.std.specs.Prelude.{ℕ};

use dom_laws::Rows;

/// The same row for each of some nodes.
#[derive(Clone, Copy)]
pub struct SameRow<'a> {
    pub row: &'a [i128],
    pub nodes: u32,
}

impl<'a> Rows for SameRow<'a> {
    ghost count = { λ rows. rows.nodes };

    ghost row_at = { λ rows node. rows.row.now };

    fn row(&self, _node: u32) -> &[i128] {
        self.row
    }
}
