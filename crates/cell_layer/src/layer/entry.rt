//! The row of what is known of cells where a run begins.
ghost use Rattle.std.specs.Prelude.{◌≡◌, ◌≤◌, ◌*◌, suc, length, IfOk};
ghost use Rattle.cob_program.specs.ActView.{plain_program};
ghost use Rattle.cob_graph.specs.Graphs.{cells_of};
ghost use Rattle.cob_graph.specs.Limits.{most_cells};
ghost use Rattle.cob_store.specs.WellFormed.{HasWellFormedItems};
ghost use Rattle.interval_domain.specs.Rows.{row_of};
ghost use Rattle.cell_laws.specs.Entry.{entry_cells};

use crate::layer::firsts::{first, values_over};
use cob_program::Program;
use cob_runs::Cell;
use std::alloc::{AllocError, Global};

fn word_count(cells: &[Cell]) -> usize
    requires { length cells.now ≤ most_cells }
    ensures { result ≡ suc (2 * length cells.now) }
{
    2 * cells.len() + 1
}

/// The row of what is known of cells where a run begins.
pub fn entry_row(alloc: Global, program: &Program, cells: &[Cell]) -> Result<Vec<i128>, AllocError>
    requires sound { HasWellFormedItems program.now.layout }
    requires cells { cells.now ≡ cells_of (plain_program program.now) }
    requires few { length cells.now ≤ most_cells }
    ensures { IfOk result (λ row. row.items ≡ row_of (entry_cells (plain_program program.now))) }
{
    let zeros = values_over(alloc, &program.layout, 0)?;
    let ones = values_over(alloc, &program.layout, 1)?;
    let mut row = vec![in alloc; 0; word_count(cells)]?;
    first(
        program,
        zeros.as_slice(),
        ones.as_slice(),
        cells,
        row.as_mut_slice(),
    );
    Ok(row)
}
