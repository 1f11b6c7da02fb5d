//! Storage, counts and files at the beginning of a run.
ghost use Rattle.std.specs.Prelude.{◌≡◌, ◌+◌, [], length, map, drop, IfOk};
ghost use Rattle.std.specs.Option.{option_map};
ghost use Rattle.cob_program.specs.ActView.{plain_program};
ghost use Rattle.cob_runs.specs.Runs.{content_at, first_files, first_world};
ghost use Rattle.cob_store.specs.WellFormed.{HasWellFormedItems};

use crate::files::File;
use crate::world::World;
use cob_data::FileDecl;
use cob_program::Program;
use cob_store::start;
use std::alloc::{AllocError, Global};

/// What each file holds, in the order of their SELECT entries: its bytes, or nothing where it isn't there. Of a file
/// behind the last one there is nothing.
pub type Contents = Vec<Option<Vec<u8>>>;

// Takes away what is there of the file at a place.
fn content_at(contents: &mut [Option<Vec<u8>>], at: usize) -> Option<Vec<u8>>
    ensures value { option_map (λ v. v.items) result
        ≡ content_at (map (option_map (λ v. v.items)) contents.old) at }
    ensures rest { drop (at + 1) contents.new ≡ drop (at + 1) contents.old }
{
    if at < contents.len() {
        contents[at].take()
    } else {
        None
    }
}

// The closed files, to which the contents go.
fn first_files(
    alloc: Global,
    contents: &mut [Option<Vec<u8>>],
    decls: &[FileDecl],
) -> Result<Vec<File>, AllocError>
    ensures { IfOk result (λ files. files.items
        ≡ first_files (map (option_map (λ v. v.items)) contents.old) 0 decls.now) }
{
    let mut files = Vec::with_capacity(alloc, decls.len())?;
    for at in 0..decls.len() {
        files.push(File::closed(content_at(contents, at)))?;
    }
    Ok(files)
}

impl<'p> World<'p> {
    /// Storage with each VALUE and spaces elsewhere, no count, closed files with their contents, and nothing shown.
    pub fn first(
        alloc: Global,
        program: &'p Program,
        mut contents: Contents,
    ) -> Result<World<'p>, AllocError>
        requires { HasWellFormedItems program.now.layout }
        ensures value { IfOk result (λ w. w.world
            ≡ first_world (plain_program program.now) (map (option_map (λ v. v.items)) contents.items) []) }
        ensures its { IfOk result (λ w. w.program ≡ program.now) }
    {
        let storage = start(alloc, program)?;
        let counts = vec![in alloc; None; program.statements as usize]?;
        let files = first_files(alloc, contents.as_mut_slice(), program.layout.files.get())?;
        Ok(World {
            program,
            storage,
            counts,
            files,
            shown: Vec::new(alloc),
        })
    }
}
