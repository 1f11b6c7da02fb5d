//! How files are opened and closed outside, and what waits of those that are written goes out.
ghost use Rattle.std.specs.Prelude.{◌≡◌, List, ℕ, true, false, MatchResult, IfOk, IfErr, IfSome, [], ◌∷◌, Some, None, length, slice_get, slice_set};
ghost use Rattle.batch_io.specs.FilesState.{KeepsIds, known_bytes};
ghost use Rattle.cob_interp.specs.Meeting.{FailsBy};
ghost use Rattle.cob_interp.specs.Readying.{IsDeclared, IsRefusal, IsNamed, Readies, GoesOut, OpensInto, ReadyToOpen, emptied, IsWrittenAt};
ghost use Rattle.cob_interp.specs.Tracking.{AreOpen, ArePlaced, AreWritten, IsHeldFor, StandAt, Tracks};
ghost use Rattle.cob_runs.specs.Files as file;
ghost use Rattle.cob_runs.specs.Files.{writing};
ghost use Rattle.cob_interp.specs.Ends.{is_closed};
ghost use Rattle.cob_interp.specs.Told.{IsOut};
ghost use Rattle.cob_interp.specs.Touching.{LosesOne, Loses, TouchesOne, Touches, Makes, OpensOnly, makes_in, makes_none};
ghost use Rattle.cob_interp.specs.Setting.{IsReady, paths_of};
ghost use Rattle.cob_world.specs.Views.{plain_mode};

use crate::ends::RunEnd;
use crate::handles::Handles;
use crate::setting::Setting;
use batch_io::Files;
use cob_program::Opening;
use cob_world::{File, FileMode, World};
use std::alloc::Global;

/// Writes what waits of a file that is being written. Of others nothing does.
fn put_waiting<F: Files>(
    files: &mut F,
    handles: &Handles,
    place: usize,
    file: &File,
) -> Result<(), RunEnd>
    requires live { AreOpen (F.state files.old) handles.now }
    requires held { file.now.mode ≡ writing → IsHeldFor handles.now place true }
    ensures readies { MatchResult result
        (λ _. (path : List ℕ) → IsNamed (F.state files.old) handles.now place path file.now
        → Readies (F.state files.old) (F.state files.new) path (λ told now. IsOut told now path file.now))
        (λ e. IsRefusal (F.state files.old) (F.state files.new) e) }
    ensures fault { FailsBy true result }
    ensures touches { (path : List ℕ) → IsNamed (F.state files.old) handles.now place path file.now
        → TouchesOne (F.state files.old) (F.state files.new) path file.now }
    ensures loses { IfErr result (λ _. (path : List ℕ) → IsNamed (F.state files.old) handles.now place path file.now
        → LosesOne (F.state files.old) (F.state files.new) path file.now) }
    ensures ids { KeepsIds (F.state files.old) (F.state files.new) }
{
    match file.mode() {
        FileMode::Writing => handles.put(files, place, file.all()),
        FileMode::Closed | FileMode::Reading { .. } => Ok(()),
    }
}

/// Writes what waits of the file at a place, which is declared, where it is being written.
fn put_out<F: Files>(
    setting: &Setting,
    files: &mut F,
    handles: &Handles,
    world: &World,
    place: usize,
) -> Result<(), RunEnd>
    requires ready { IsReady setting.now }
    requires declared { IsDeclared setting.now place }
    requires live { AreOpen (F.state files.old) handles.now }
    requires written { AreWritten (paths_of setting.now) (F.state files.old) handles.now world.now.world.files }
    ensures goes { MatchResult result
        (λ _. GoesOut setting.now world.now.world place (F.state files.old) (F.state files.new))
        (λ e. IsRefusal (F.state files.old) (F.state files.new) e) }
    ensures fault { FailsBy true result }
    ensures touches { Touches (paths_of setting.now) makes_none world.now.world (F.state files.old)
        (F.state files.new) }
    ensures loses { IfErr result
        (λ _. Loses (paths_of setting.now) world.now.world (F.state files.old) (F.state files.new)) }
    ensures ids { KeepsIds (F.state files.old) (F.state files.new) }
{
    match world.file(place) {
        Some(file) => put_waiting(files, handles, place, file),
        None => unreachable!(),
    }
}

/// How many bytes were read of the file at a place, where it is being written.
fn written_place(world: &World, place: usize) -> Option<usize>
    ensures { IsWrittenAt (slice_get world.now.world.files place) result }
{
    let found = world.file(place)?;
    match found.mode() {
        FileMode::Writing => Some(found.place()),
        _ => None,
    }
}

/// Nothing waits of the file at a place any more, where it is being written. Its room stays.
fn empty_waiting(alloc: Global, world: &mut World, place: usize)
    ensures kept { world.new.program ≡ world.old.program }
    ensures emptied { world.new.world ≡ emptied place world.old.world }
{
    let Some(at) = written_place(world, place) else {
        return;
    };
    let waited = world.replace_content(place, Some(Vec::new(alloc)), at);
    let Some(mut room) = waited else {
        return;
    };
    room.clear();
    world.set_content(place, Some(room));
}

/// Writes out what waits of the file at a place, which is declared, where it is being written.
pub fn write_out<F: Files>(
    alloc: Global,
    setting: &Setting,
    files: &mut F,
    handles: &Handles,
    world: &mut World,
    place: usize,
) -> Result<(), RunEnd>
    requires ready { IsReady setting.now }
    requires declared { IsDeclared setting.now place }
    requires live { AreOpen (F.state files.old) handles.now }
    requires written { AreWritten (paths_of setting.now) (F.state files.old) handles.now world.old.world.files }
    ensures kept { world.new.program ≡ world.old.program }
    ensures goes { MatchResult result
        (λ _. GoesOut setting.now world.old.world place (F.state files.old) (F.state files.new))
        (λ e. IsRefusal (F.state files.old) (F.state files.new) e) }
    ensures fault { FailsBy true result }
    ensures still { IfErr result (λ _. world.new.world ≡ world.old.world) }
    ensures emptied { IfOk result (λ _. world.new.world ≡ emptied place world.old.world) }
    ensures touches { Touches (paths_of setting.now) makes_none world.old.world (F.state files.old)
        (F.state files.new) }
    ensures loses { IfErr result
        (λ _. Loses (paths_of setting.now) world.old.world (F.state files.old) (F.state files.new)) }
    ensures ids { KeepsIds (F.state files.old) (F.state files.new) }
{
    put_out(setting, files, handles, world, place)?;
    empty_waiting(alloc, world, place);
    Ok(())
}

/// Before a CLOSE of the file at a place: writes out what waits of it, where it is being written, and closes its id.
pub fn ready_to_close<F: Files>(
    alloc: Global,
    setting: &Setting,
    files: &mut F,
    handles: &mut Handles,
    world: &mut World,
    place: u32,
) -> Result<(), RunEnd>
    requires ready { IsReady setting.now }
    requires declared { IsDeclared setting.now place }
    requires live { AreOpen (F.state files.old) handles.old }
    requires placed { ArePlaced (paths_of setting.now) (F.state files.old) handles.old world.old.world.files }
    ensures kept { world.new.program ≡ world.old.program }
    ensures tracks { Tracks (F.state files.old) (F.state files.new) handles.old handles.new }
    ensures goes { MatchResult result
        (λ _. GoesOut setting.now world.old.world place (F.state files.old) (F.state files.new))
        (λ e. IsRefusal (F.state files.old) (F.state files.new) e) }
    ensures emptied { IfOk result (λ _. world.new.world ≡ emptied place world.old.world) }
    ensures stand { (fs : List file.File) → StandAt (paths_of setting.now) (F.state files.old) handles.old fs
        → IfOk result (λ _. StandAt (paths_of setting.now) (F.state files.new) handles.new fs) }
    ensures closed { IfOk result (λ _. handles.new ≡ slice_set handles.old place None) }
    ensures touches { Touches (paths_of setting.now) makes_none world.old.world (F.state files.old)
        (F.state files.new) }
{
    write_out(alloc, setting, files, handles, world, place as usize)?;
    handles.close(files, place as usize)?;
    Ok(())
}

fn is_closed(mode: FileMode) -> bool
    ensures { result ≡ is_closed (plain_mode mode) }
{
    matches!(mode, FileMode::Closed)
}

/// Opens the file of this name for the file at a place, which is there then exactly where that is.
fn open_input<F: Files>(
    alloc: Global,
    setting: &Setting,
    files: &mut F,
    handles: &mut Handles,
    world: &mut World,
    path: &str,
    place: u32,
) -> Result<(), RunEnd>
    requires declared { IsDeclared setting.now place }
    requires live { AreOpen (F.state files.old) handles.old }
    requires free { slice_get handles.old place ≡ Some None }
    ensures tracks { Tracks (F.state files.old) (F.state files.new) handles.old handles.new }
    ensures kept { world.new.program ≡ world.old.program }
    ensures same { known_bytes (F.state files.new) ≡ known_bytes (F.state files.old) }
    ensures opens { MatchResult result
        (λ _. OpensInto (F.state files.old) (F.state files.new) handles.old handles.new path.now place world.old.world
        world.new.world)
        (λ e. IsRefusal (F.state files.old) (F.state files.new) e) }
    ensures only { OpensOnly world.old.world world.new.world }
    ensures fault { FailsBy false result }
{
    let size = setting.size_at(place as usize);
    let content = if handles.open(alloc, files, path, place as usize, size)? {
        Some(Vec::new(alloc))
    } else {
        None
    };
    world.set_content(place as usize, content);
    Ok(())
}

/// Before an OPEN of a file: where it's closed, it is made empty for writing, or opened for reading.
pub fn ready_to_open<F: Files>(
    alloc: Global,
    setting: &Setting,
    files: &mut F,
    handles: &mut Handles,
    world: &mut World,
    opening: Opening,
) -> Result<(), RunEnd>
    requires ready { IsReady setting.now }
    requires declared { IsDeclared setting.now opening.file }
    requires live { AreOpen (F.state files.old) handles.old }
    requires placed { ArePlaced (paths_of setting.now) (F.state files.old) handles.old world.old.world.files }
    ensures tracks { Tracks (F.state files.old) (F.state files.new) handles.old handles.new }
    ensures kept { world.new.program ≡ world.old.program }
    ensures readies { MatchResult result
        (λ _. ReadyToOpen setting.now world.old.world world.new.world opening (F.state files.old) (F.state files.new)
        handles.old handles.new)
        (λ e. IsRefusal (F.state files.old) (F.state files.new) e) }
    ensures touches { Makes (paths_of setting.now) (makes_in (opening ∷ [])) world.old.world
        (F.state files.old) (F.state files.new) }
    ensures opens { OpensOnly world.old.world world.new.world }
    ensures fault { FailsBy opening.output result }
{
    let path = setting.path(opening.file as usize);
    let Some(mode) = world.file_mode(opening.file as usize) else {
        unreachable!();
    };
    if !is_closed(mode) {
        return Ok(());
    }
    if opening.output {
        let size = setting.size_at(opening.file as usize);
        handles.create(alloc, files, path, opening.file as usize, size)?;
        return Ok(());
    }
    open_input(alloc, setting, files, handles, world, path, opening.file)?;
    Ok(())
}
