//! Packs, made ready for walks.
ghost use Rattle.std.specs.Prelude.{◌≡◌, ◌≤◌, length, IfOk};
ghost use Rattle.cob_program.specs.ActView.{plain_program};
ghost use Rattle.cob_program.specs.Statements.{plain_references, program_statements};
ghost use Rattle.cob_graph.specs.Homes.{homes_of};
ghost use Rattle.diff_layer.specs.Plans.{plain_plans};
ghost use Rattle.pack_laws.specs.Packs.{home_at, pack_in, packs_in, AreRisingNumbers, ArePacksOfCells};
ghost use Rattle.diff_layer.specs.Planning.{IsPlanFor, ArePlansFor, sizes_in};

use crate::forms::cells::pack_decimals;
use crate::pack::plans::PackPlan;
use cob_data::Layout;
use cob_graph::{Home, homes_of};
use cob_program::{Program, Stmt};
use diff_bounds::Pack;
use std::alloc::{AllocError, Global};

// what the cell with a number is of, which counts from 1
fn cell_with(homes: &[Home], number: u32) -> Home
    requires first { 1 ≤ number }
    requires last { number ≤ length homes.now }
    ensures { result ≡ home_at homes.now number }
{
    homes[number as usize - 1]
}

#[tactic(auto, using(crate::proofs::Steps::cell_pushed))]
fn cells_with(alloc: Global, homes: &[Home], numbers: &[u32]) -> Result<Vec<Home>, AllocError>
    requires { AreRisingNumbers (length homes.now) numbers.now }
    ensures { IfOk result (λ cells. cells.items ≡ pack_in homes.now numbers.now) }
{
    let mut cells = Vec::with_capacity(alloc, numbers.len())?;
    for number in numbers {
        cells.push(cell_with(homes, *number))?;
    }
    Ok(cells)
}

fn plan_for(
    alloc: Global,
    layout: &Layout,
    homes: &[Home],
    pack: &Pack,
) -> Result<PackPlan, AllocError>
    requires { AreRisingNumbers (length homes.now) pack.now.cells.items }
    ensures { IfOk result (IsPlanFor layout.now homes.now pack.now) }
{
    let cells = cells_with(alloc, homes, pack.cells.as_slice())?;
    let decimals = pack_decimals(layout, cells.as_slice());
    Ok(PackPlan { cells, decimals })
}

// a plan for each pack, by what each cell of the program is of
#[tactic(auto, using(crate::proofs::Steps::plan_pushed, crate::proofs::Steps::no_plans))]
fn plans_for(
    alloc: Global,
    layout: &Layout,
    homes: &[Home],
    packs: &[Pack],
) -> Result<Vec<PackPlan>, AllocError>
    requires { ArePacksOfCells (length homes.now) packs.now }
    ensures { IfOk result (λ plans. ArePlansFor layout.now homes.now packs.now plans.items) }
{
    let mut plans = Vec::with_capacity(alloc, packs.len())?;
    for pack in packs {
        plans.push(plan_for(alloc, layout, homes, pack)?)?;
    }
    Ok(plans)
}

fn size_of(pack: &Pack) -> usize
    ensures { result ≡ length pack.now.cells.items }
{
    pack.cells.as_slice().len()
}

/// How many cells each pack has.
#[tactic(auto, using(crate::proofs::Steps::size_pushed))]
pub fn sizes_of(alloc: Global, packs: &[Pack]) -> Result<Vec<usize>, AllocError>
    ensures { IfOk result (λ sizes. sizes.items ≡ sizes_in packs.now) }
{
    let mut sizes = Vec::with_capacity(alloc, packs.len())?;
    for pack in packs {
        sizes.push(size_of(pack))?;
    }
    Ok(sizes)
}

/// A plan for each pack of a program, whose statements these are.
pub fn plans_of(
    alloc: Global,
    program: &Program,
    statements: &[&Stmt],
    packs: &[Pack],
) -> Result<Vec<PackPlan>, AllocError>
    requires statements { plain_references statements.now ≡ program_statements (plain_program program.now) }
    requires packs { ArePacksOfCells (length (homes_of (plain_program program.now))) packs.now }
    ensures { IfOk result (λ plans. ArePlansFor (plain_program program.now).layout
        (homes_of (plain_program program.now)) packs.now plans.items) }
{
    let homes = homes_of(alloc, program, statements)?;
    plans_for(alloc, &program.layout, homes.as_slice(), packs)
}
