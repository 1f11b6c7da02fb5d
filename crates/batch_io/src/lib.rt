//! Files and a sink, as traits whose ghost members say what they mean, with objects in memory and of
//! the system.
#![tactic(auto)]

mod ends;
mod failing;
mod memory;
mod most;
mod outside;
mod real;
mod slots;
mod whole;

pub use ends::{Failed, FileEnd, MakeEnd, OpenEnd, ReadEnd};
pub use memory::{MemFiles, MemSink};
pub use outside::{Files, Sink};
pub use real::{RealFiles, StdSink};
pub use whole::{put_file, put_whole, read_file, read_record, read_whole, show_whole};
