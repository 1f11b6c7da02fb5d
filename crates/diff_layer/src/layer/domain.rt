//! Rows of matrices as a domain.
ghost use Rattle.cob_program.specs.ActView.{plain_program};
ghost use Rattle.diff_bounds.specs.PackRows.{lists_of};
ghost use Rattle.pack_laws.specs.Layer.{diff_lattice};
ghost use Rattle.pack_laws.specs.Packs.{packs_of};
ghost use Rattle.diff_layer.specs.LayerLaws.{ordered_by};

use crate::layer::diff_layer::DiffLayer;
use diff_bounds::{height_of, join_rows, leq_rows, set_least, widen_rows, width_of};
use dom_laws::{Domain, Rows};

impl<'a, R: Rows> Domain for DiffLayer<'a, R> {
    ghost lattice = { λ s. diff_lattice (packs_of (plain_program s.program.now) s.packs.now)
        (lists_of s.thresholds.now) };

    fn words(&self) -> usize {
        width_of(self.sizes.as_slice())
    }

    fn bottom(&self, a: &mut [i128]) {
        set_least(self.sizes.as_slice(), self.thresholds, a);
    }

    fn leq(&self, a: &[i128], b: &[i128]) -> bool {
        leq_rows(self.sizes.as_slice(), self.thresholds, a, b)
    }

    fn join(&self, a: &mut [i128], b: &[i128]) {
        join_rows(self.sizes.as_slice(), self.thresholds, a, b);
    }

    fn widen(&self, a: &mut [i128], b: &[i128]) -> bool {
        widen_rows(self.sizes.as_slice(), self.thresholds, a, b)
    }

    fn height(&self) -> u64 {
        height_of(self.sizes.as_slice(), self.thresholds)
    }

    ghost ordered = { λ s. ordered_by (packs_of (plain_program s.program.now) s.packs.now) (lists_of s.thresholds.now)
        s.ends };
}
