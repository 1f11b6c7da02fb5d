//! Calls on files (ISO 1989:1985, "Sequential I-O").
ghost use Rattle.std.specs.Prelude.{◌≡◌, ◌<◌, ℕ, length, slice_get, true, None, Option, is_some, IfOk};
ghost use Rattle.cob_program.specs.Act as act;
ghost use Rattle.cob_program.specs.ActView.{plain_act, plain_program, plain_phrase};
ghost use Rattle.cob_data.specs.declared.layout.Sender.{Sender};
ghost use Rattle.cob_runs.specs.Acts.{file_from};
ghost use Rattle.cob_plan.specs.Doing.{IsCall, IsTaking};
ghost use Rattle.cob_plan.specs.Fitting.{Opens, Closes, Reads, Writes};

use crate::called::{Called, Taken};
use crate::computing::is_given;
use cob_program::{Act, Opening, Stmt};
use cob_world::World;
use std::alloc::{AllocError, Global};

fn opening_at(openings: &[Opening], place: u32) -> Option<Opening>
    ensures { result ≡ slice_get openings.now place }
{
    openings.get(place as usize).copied()
}

fn file_at(files: &[u32], place: u32) -> Option<u32>
    ensures { result ≡ slice_get files.now place }
{
    files.get(place as usize).copied()
}

fn open_at(alloc: Global, openings: &[Opening], place: u32, world: &mut World) -> Called
    requires there { place < length openings.now }
    ensures value { (number : ℕ) → IsCall (plain_program world.old.program) number place world.old.world
        world.new.world (act.open_files openings.now) result }
    ensures kept { world.new.program ≡ world.old.program }
{
    match opening_at(openings, place) {
        None => unreachable!(),
        Some(opening) => {
            let handled = world.has_status(opening.file as usize);
            let status = world.open_one(alloc, opening);
            Called { status, handled }
        }
    }
}

/// OPEN of the file at a place of the statement.
pub fn open(alloc: Global, act: &Act, place: u32, world: &mut World) -> Called
    requires fits { Opens place (plain_act act.now) }
    ensures value { (number : ℕ) → IsCall (plain_program world.old.program) number place world.old.world
        world.new.world (plain_act act.now) result }
    ensures kept { world.new.program ≡ world.old.program }
{
    match act {
        Act::OpenFiles(openings) => open_at(alloc, openings.get(), place, world),
        _ => unreachable!(),
    }
}

fn close_at(files: &[u32], place: u32, world: &mut World) -> Called
    requires there { place < length files.now }
    ensures value { (number : ℕ) → IsCall (plain_program world.old.program) number place world.old.world
        world.new.world (act.close_files files.now) result }
    ensures kept { world.new.program ≡ world.old.program }
{
    match file_at(files, place) {
        None => unreachable!(),
        Some(file) => {
            let handled = world.has_status(file as usize);
            let status = world.close_one(file);
            Called { status, handled }
        }
    }
}

/// CLOSE of the file at a place of the statement.
pub fn close(act: &Act, place: u32, world: &mut World) -> Called
    requires fits { Closes place (plain_act act.now) }
    ensures value { (number : ℕ) → IsCall (plain_program world.old.program) number place world.old.world
        world.new.world (plain_act act.now) result }
    ensures kept { world.new.program ≡ world.old.program }
{
    match act {
        Act::CloseFiles(files) => close_at(files.get(), place, world),
        _ => unreachable!(),
    }
}

fn write_record(alloc: Global, rec: u32, world: &mut World) -> Result<Called, AllocError>
    requires file { is_some (file_from world.old.program.layout 0 world.old.program.layout.files rec) ≡ true }
    ensures value { (number : ℕ) (from : Option Sender) → IfOk result (λ called. IsCall
        (plain_program world.old.program) number 0 world.old.world world.new.world (act.write rec from) called) }
    ensures kept { world.new.program ≡ world.old.program }
{
    match world.file_of(rec) {
        None => unreachable!(),
        Some(file) => {
            let handled = world.has_status(file);
            let status = world.write_one(alloc, &None, file, rec)?;
            Ok(Called { status, handled })
        }
    }
}

/// WRITE without FROM.
pub fn write(alloc: Global, act: &Act, world: &mut World) -> Result<Called, AllocError>
    requires fits { Writes (plain_program world.old.program) (plain_act act.now) }
    ensures value { (number : ℕ) → IfOk result (λ called. IsCall (plain_program world.old.program) number 0
        world.old.world world.new.world (plain_act act.now) called) }
    ensures kept { world.new.program ≡ world.old.program }
{
    match act {
        Act::Write { rec, .. } => write_record(alloc, *rec, world),
        _ => unreachable!(),
    }
}

fn take(file: u32, end: &Option<Vec<Stmt>>, world: &mut World) -> Taken
    ensures value { (number : ℕ) (into : Option ℕ) (fine : act.Stmts)
        → IsTaking (plain_program world.old.program) number 0
        world.old.world world.new.world (act.read file into (plain_phrase end.now) fine) result }
    ensures kept { world.new.program ≡ world.old.program }
{
    let handled = world.has_status(file as usize);
    let end_handled = is_given(end) || handled;
    let status = world.take_one(&None, file);
    Taken {
        status,
        handled,
        end_handled,
    }
}

/// READ without INTO.
pub fn read(act: &Act, world: &mut World) -> Taken
    requires fits { Reads (plain_act act.now) }
    ensures value { (number : ℕ) → IsTaking (plain_program world.old.program) number 0 world.old.world
        world.new.world (plain_act act.now) result }
    ensures kept { world.new.program ≡ world.old.program }
{
    match act {
        Act::Read { file, end, .. } => take(*file, end, world),
        _ => unreachable!(),
    }
}
