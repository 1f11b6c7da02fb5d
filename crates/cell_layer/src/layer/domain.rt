//! Rows of cells as a domain.
ghost use Rattle.std.specs.Prelude.{◌≡◌, ◌+◌, ◌*◌, ◌≤◌, length};
ghost use Rattle.std.specs.List.{All};
ghost use Rattle.cob_program.specs.ActView.{plain_program};
ghost use Rattle.interval_domain.specs.Elements.{height_of};
ghost use Rattle.interval_domain.specs.Rows.{cells_lattice, lists_of};
ghost use Rattle.cell_steps.specs.OwnRanges.{owns};
ghost use Rattle.cell_layer.specs.LayerLaws.{ordered_by};
ghost use Rattle.cob_graph.specs.Limits.{most_cells};

use crate::layer::cell_layer::CellLayer;
use dom_laws::Domain;
use interval_domain::{join, leq, set_unreached, widen};

// how often a row can grow
fn height_of(thresholds: &[Vec<i64>]) -> u64
    requires lists { All (λ list. length list.items ≤ 128) thresholds.now }
    requires few { length thresholds.now ≤ most_cells }
    ensures { result ≡ height_of (lists_of thresholds.now) }
{
    let mut height: u64 = 1;
    for list in thresholds {
        height += 2 * list.as_slice().len() as u64 + 1;
    }
    height
}

impl<'a> Domain for CellLayer<'a> {
    ghost lattice = { λ s. cells_lattice (owns (plain_program s.program.now)) (lists_of s.thresholds.now) };

    fn words(&self) -> usize {
        2 * self.thresholds.len() + 1
    }

    fn bottom(&self, a: &mut [i128]) {
        set_unreached(a);
    }

    fn leq(&self, a: &[i128], b: &[i128]) -> bool {
        leq(a, b)
    }

    fn join(&self, a: &mut [i128], b: &[i128]) {
        join(a, b);
    }

    fn widen(&self, a: &mut [i128], b: &[i128]) -> bool {
        widen(a, b, self.thresholds)
    }

    fn height(&self) -> u64 {
        height_of(self.thresholds)
    }

    ghost ordered = { λ s. ordered_by (owns (plain_program s.program.now)) (lists_of s.thresholds.now) s.ends };
}
