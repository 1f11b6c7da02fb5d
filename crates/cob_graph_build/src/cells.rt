//! The cells that the analysis speaks of: items, and counters of PERFORM with TIMES.
ghost use Rattle.std.specs.Prelude.{◌≡◌, map, IfOk};
ghost use Rattle.cob_program.specs.ActView.{plain_program};
ghost use Rattle.cob_graph.specs.Homes.{cell_of_home};
ghost use Rattle.cob_graph.specs.Graphs.{cells_of};

use cob_data::Layout;
use cob_graph::{Home, cell_of_home, homes_of};
use cob_program::Program;
use cob_runs::Cell;
use std::alloc::{AllocError, Global};

fn cells_of_homes(alloc: Global, layout: &Layout, homes: &[Home]) -> Result<Vec<Cell>, AllocError>
    ensures { IfOk result (λ cells. cells.items ≡ map (cell_of_home layout.now) homes.now) }
{
    let mut cells = Vec::with_capacity(alloc, homes.len())?;
    for home in homes {
        cells.push(cell_of_home(layout, *home))?;
    }
    Ok(cells)
}

/// The cells of a program: of its items in their order, and then of its counters.
pub fn cells_of(alloc: Global, program: &Program) -> Result<Vec<Cell>, AllocError>
    ensures { IfOk result (λ cells. cells.items ≡ cells_of (plain_program program.now)) }
{
    let statements = program.statements(alloc)?;
    let homes = homes_of(alloc, program, &statements)?;
    cells_of_homes(alloc, &program.layout, &homes)
}
