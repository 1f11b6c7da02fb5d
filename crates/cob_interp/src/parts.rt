//! What a statement does with files.
ghost use Rattle.cob_program.specs.ActView.{plain_act};
ghost use Rattle.cob_interp.specs.Setting.{IsCall};

use cob_program::{Act, Opening};

/// Statements apart by how they call the outside's files: OPEN and CLOSE with their files, READ with its file, and
/// others.
#[derive(Clone, Copy)]
pub enum Call<'a> {
    Open(&'a [Opening]),
    Close(&'a [u32]),
    Read(u32),
    Other,
}

/// How a statement calls files.
pub fn call_of(act: &Act) -> Call<'_>
    ensures { IsCall (plain_act act.now) result }
{
    match act {
        Act::OpenFiles(openings) => Call::Open(openings.get()),
        Act::CloseFiles(files) => Call::Close(files.get()),
        Act::Read { file, .. } => Call::Read(*file),
        _ => Call::Other,
    }
}
