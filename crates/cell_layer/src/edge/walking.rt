//! The walk, by parts and by their numbers.
ghost use Rattle.std.specs.Prelude.{◌≡◌, ◌<◌, ◌-◌, ◌^◌, min, true, false, length, Some, None};
ghost use Rattle.std.specs.List.{AllByRecursion};
ghost use Rattle.cob_program.specs.ActView.{plain_stmt, plain_program};
ghost use Rattle.edge_parts.specs.PartView.{plain_part, edge_parts};
ghost use Rattle.cell_laws.specs.Sizes.{IsSmallPart};
ghost use Rattle.cell_layer.specs.SmallCells.{has_small_cells};
ghost use Rattle.cell_layer.specs.Forgetting.{AreMarks};
ghost use Rattle.cell_layer.specs.ProgramRows.{IsRowOf};
ghost use Rattle.cell_layer.specs.Kept.{seen, step_at, latest_of, latest_at};
ghost use Rattle.cell_layer.specs.Latest.{latest_behind};
ghost use Rattle.cell_layer.specs.NumberedStatements.{act_in};
ghost use Rattle.cell_layer.specs.Walks.{step_small, CanStep};
ghost use Rattle.cell_layer.specs.Works.{program_of, act_of};

use crate::edge::kept::Kept;
use crate::edge::row_walk::Walk;
use cob_program::{Program, Stmt};
use cob_runs::{Action, Cell};
use edge_parts::{EdgePart, EdgeWork, part_at, part_count};

/// How many parts an edge of a statement has; `u32::MAX` stands for more, too.
pub fn parts(program: &Program, statement: &Stmt, action: Action) -> u32
    ensures { result ≡ min (length (edge_parts (plain_program program.now) (plain_stmt statement.now) action)) (2 ^ 32 - 1) }
{
    part_count(program, statement, action)
}

/// Makes of a row what the part with a number makes of it, which counts from 0. Answers false where no run passes the part;
/// what is left of the row then isn't told. What is kept of the latest store is that of the moment before it.
pub fn walk(
    program: &Program,
    cells: &[Cell],
    marks: &[Vec<bool>],
    statement: &Stmt,
    action: Action,
    part: u32,
    row: &mut [i128],
    kept: &mut Kept,
) -> bool
    requires row { IsRowOf (plain_program program.now) cells.now row.old }
    requires marks { AreMarks (plain_program program.now) cells.now marks.now }
    requires small { AllByRecursion (IsSmallPart (plain_program program.now) (act_in (plain_stmt statement.now)) action)
        (edge_parts (plain_program program.now) (plain_stmt statement.now) action) }
    requires small_cells { has_small_cells (plain_program program.now) ≡ true }
    requires can { CanStep (plain_program program.now) (act_in (plain_stmt statement.now)) action (seen row.old kept.old) }
    requires within { part < length (edge_parts (plain_program program.now) (plain_stmt statement.now) action) }
    ensures on { result ≡ true → step_at (plain_program program.now) (plain_stmt statement.now) action part (seen row.old kept.old) ≡ Some (seen row.new kept.new) }
    ensures off { result ≡ false → step_at (plain_program program.now) (plain_stmt statement.now) action part (seen row.old kept.old) ≡ None }
    ensures row { IsRowOf (plain_program program.now) cells.now row.new }
    ensures latest { latest_of kept.new ≡ latest_at (plain_program program.now) (plain_stmt statement.now) action part (seen row.old kept.old) (latest_of kept.old) }
    ensures can { result ≡ true → CanStep (plain_program program.now) (act_in (plain_stmt statement.now)) action (seen row.new kept.new) }
{
    match part_at(program, statement, action, part) {
        None => false,
        Some(found) => {
            let mut walk = Walk {
                program,
                cells,
                marks,
                act: &statement.act,
                action,
                row,
                kept: *kept,
            };
            let passed = walk.pass(found);
            *kept = walk.kept;
            passed
        }
    }
}

/// Makes of a row what a part of an edge makes of it. Answers false where no run passes the part; what is left of the row
/// then isn't told. What is kept of the latest store is that of the moment before it.
pub fn walk_part(
    cells: &[Cell],
    marks: &[Vec<bool>],
    work: &EdgeWork,
    part: EdgePart,
    row: &mut [i128],
    kept: &mut Kept,
) -> bool
    requires row { IsRowOf (program_of work.now) cells.now row.old }
    requires marks { AreMarks (program_of work.now) cells.now marks.now }
    requires small { IsSmallPart (program_of work.now) (act_of work.now) work.now.action (plain_part part) }
    requires small_cells { has_small_cells (program_of work.now) ≡ true }
    requires can { CanStep (program_of work.now) (act_of work.now) work.now.action (seen row.old kept.old) }
    ensures on { result ≡ true → step_small (program_of work.now) (act_of work.now) work.now.action (plain_part part.entry) (seen row.old kept.old)
        ≡ Some (seen row.new kept.new) }
    ensures off { result ≡ false → step_small (program_of work.now) (act_of work.now) work.now.action (plain_part part.entry) (seen row.old kept.old)
        ≡ None }
    ensures row { IsRowOf (program_of work.now) cells.now row.new }
    ensures latest { latest_of kept.new ≡ latest_behind (program_of work.now) (act_of work.now) work.now.action (plain_part part.entry)
        (seen row.old kept.old) (latest_of kept.old) }
    ensures can { result ≡ true → CanStep (program_of work.now) (act_of work.now) work.now.action (seen row.new kept.new) }
{
    let mut walk = Walk {
        program: work.program,
        cells,
        marks,
        act: &work.statement.act,
        action: work.action,
        row,
        kept: *kept,
    };
    let passed = walk.pass(part);
    *kept = walk.kept;
    passed
}
