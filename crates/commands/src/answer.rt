//! Answers of the commands where nothing is run: reports and refusals, with the faults that stop the way to one.
ghost use Rattle.std.specs.Prelude.{◌≡◌};
ghost use Rattle.commands.specs.declared.answer.Stop.TheVariants.{Memory};

use crate::Alarm;
use cert_check::{Gap, Shape};
use cob_front::Refusal;
use std::alloc::AllocError;

/// What the commands answer where nothing is run. Names are the command's own words.
#[derive(Drop)]
pub enum Answer<'a> {
    /// The words are no command; the first of them, or empty.
    Usage(&'a str),
    /// The words on files are refused, for this word or for a file's external name.
    NoPaths(String),
    /// There is no file of this name.
    Absent(&'a str),
    /// The source isn't of the profile.
    Refused(Refusal),
    CertificateLong,
    /// The first line with which no certificate's text goes on.
    CertificateBad(u32),
    /// The certificate's number of cells or nodes, and the program's.
    CertificateMisfit(Shape, u32, u32),
    /// The layer and the first edge at which the certificate isn't inductive, and the first place there.
    NotInductive(u8, u32, Gap),
    Report(Vec<Alarm>),
}

/// Why no answer is found.
#[derive(Drop)]
pub enum Stop {
    /// A file couldn't be opened, read or closed.
    ReadFault,
    /// Memory ran out.
    Memory,
}

impl From<AllocError> for Stop {
    ghost from_gives = { λ _ e. e ≡ Memory };

    fn from(_error: AllocError) -> Stop {
        Stop::Memory
    }
}
