//! Files and a standard output in memory.
use batch_io::{MemFiles, MemSink};
use std::alloc::{AllocError, Global};
use std::{fs, io};

/// More bytes than any file has.
pub const AMPLE: usize = 1_000_000;

/// The files with these names, read. The call of this number fails, and each takes at most so many bytes, or one.
pub fn files_of(
    rt: &HostRuntime,
    names: &[String],
    most: usize,
    failing: u64,
) -> io::Result<MemFiles> {
    let alloc = rt.alloc();
    let mut files = Vec::new(alloc);
    for name in names {
        let bytes = fs::read(rt, name.as_str())?;
        files.push((name.as_str().to_string(alloc)?, bytes))?;
    }
    let mut files = MemFiles::new(alloc, files, Vec::from_slice(alloc, &[failing])?);
    files.slow(most.max(1));
    Ok(files)
}

/// A sink whose write of this number fails, and whose writes take at most so many bytes, or one.
pub fn sink_of(alloc: Global, most: usize, failing: u64) -> Result<MemSink, AllocError> {
    let mut sink = MemSink::new(alloc, Vec::from_slice(alloc, &[failing])?);
    sink.slow(most.max(1));
    Ok(sink)
}

/// The bytes of a sink as text.
pub fn shown(alloc: Global, bytes: &[u8]) -> Result<String, AllocError> {
    let mut text = String::new(alloc);
    for byte in bytes {
        text.push(*byte as char)?;
    }
    Ok(text)
}
