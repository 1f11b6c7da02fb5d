//! Cells that are forgotten.
ghost use Rattle.std.specs.Prelude.{◌≡◌, ◌+◌, ◌≤◌, Bool, List, length, map};
ghost use Rattle.diff_bounds.specs.Matrix.{IsMatrix};
ghost use Rattle.cob_graph.specs.declared.homes.Home.{Home};
ghost use Rattle.diff_steps.specs.Stores.{forgotten_cells};
ghost use Rattle.diff_layer.specs.PackGone.{forgotten_if, forgotten_marked};

use crate::pack::matrix_images::forget_cell;

// leaves nothing that the matrix says of a cell, where it is gone
fn forget_if(size: usize, m: &mut [i128], cell: usize, gone: bool)
    requires size { size ≤ 8 }
    requires m { IsMatrix size m.old }
    requires first { 1 ≤ cell }
    requires last { cell ≤ size }
    ensures value { m.new ≡ forgotten_if size cell gone m.old }
    ensures matrix { IsMatrix size m.new }
{
    if gone {
        forget_cell(size, m, cell);
    }
}

/// Leaves nothing that the matrix says of the cells that are gone. There is a mark for each cell, in the pack's order.
pub fn forget_cells(size: usize, m: &mut [i128], gone: &[bool])
    requires size { size ≤ 8 }
    requires m { IsMatrix size m.old }
    requires gone { length gone.now ≤ size }
    ensures value { (pack : List Home) (is_gone : Home → Bool) → gone.now ≡ map is_gone pack
        → m.new ≡ forgotten_cells size is_gone 1 pack m.old }
    ensures marked { m.new ≡ forgotten_marked size 1 gone.now m.old }
    ensures matrix { IsMatrix size m.new }
{
    for k in 0..gone.len() {
        forget_if(size, m, k + 1, gone[k]);
    }
}
