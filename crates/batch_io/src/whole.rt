//! Whole files, records of files, and whole texts.
ghost use Rattle.std.specs.Prelude.{◌≡◌, ℕ, ◌-◌, ◌^◌, ◌<◌, Some};
ghost use Rattle.batch_io.specs.FilesState.{Reading, Writing};
ghost use Rattle.batch_io.specs.Wholes.{ReadsRecord, ReadsWhole, ReadsToClose, ReadsFile, PutsWhole, PutsToClose, PutsFile, ShowsWhole, end_after};

use crate::ends::{Failed, FileEnd, MakeEnd, OpenEnd, ReadEnd};
use crate::outside::{Files, Sink};
use std::alloc::Global;

/// The most bytes that one call of `read` is asked for.
const CHUNK: usize = 8192;

/// Reads all bytes from the id's place to the end, where they are at most `limit`.
pub fn read_whole<F: Files>(
    alloc: Global,
    files: &mut F,
    id: u32,
    limit: usize,
) -> Result<Vec<u8>, ReadEnd>
    requires opened { (F.state files.old).purpose id ≡ Some Reading }
    requires limit { limit < 2 ^ 64 - 1 }
    ensures { ReadsWhole (F.state files.old) (F.state files.new) id limit result }
{
    let mut bytes = Vec::new(alloc);
    let mut chunk = [0u8; CHUNK];
    loop {
        let room = CHUNK.min(limit + 1 - bytes.len());
        let piece = &mut chunk[..room];
        let count = files.read(id, piece)?;
        if count == 0 {
            return Ok(bytes);
        }
        if count > limit - bytes.len() {
            return Err(ReadEnd::Long);
        }
        bytes.extend_from_slice(&piece[..count])?;
    }
}

/// Writes all of `bytes` to the end of the id's file. A refused put leaves a prefix of them there.
pub fn put_whole<F: Files>(files: &mut F, id: u32, bytes: &[u8]) -> Result<(), MakeEnd>
    requires created { (F.state files.old).purpose id ≡ Some Writing }
    ensures { PutsWhole (F.state files.old) (F.state files.new) id bytes.now result }
{
    let mut put = 0;
    while put < bytes.len() {
        put += files.write(id, &bytes[put..])?;
    }
    Ok(())
}

/// Writes all of `bytes` to the sink. A refused show leaves a prefix of them there.
pub fn show_whole<O: Sink>(out: &mut O, bytes: &[u8]) -> Result<(), MakeEnd>
    ensures { ShowsWhole (O.state out.old) (O.state out.new) bytes.now result }
{
    let mut done = 0;
    while done < bytes.len() {
        done += out.write(&bytes[done..])?;
    }
    Ok(())
}

/// Reads the next bytes into the front of `buf`, by as many reads as that needs and no more, and says how many: as many
/// as fit, or those to the end of the file.
pub fn read_record<F: Files>(files: &mut F, id: u32, buf: &mut [u8]) -> Result<usize, Failed>
    requires { (F.state files.old).purpose id ≡ Some Reading }
    ensures { ReadsRecord (F.state files.old) (F.state files.new) id buf.new result }
{
    let mut done = 0;
    while done < buf.len() {
        let count = files.read(id, &mut buf[done..])?;
        if count == 0 {
            return Ok(done);
        }
        done += count;
    }
    Ok(done)
}

// What a read and the close after it come to. A refused close is Failed, whatever was read.
fn end_of(whole: Result<Vec<u8>, ReadEnd>, closed: Result<(), Failed>) -> Result<Vec<u8>, FileEnd>
    ensures { result ≡ end_after whole closed }
{
    match (whole, closed) {
        (_, Err(Failed)) | (Err(ReadEnd::Failed), _) => Err(FileEnd::Failed),
        (Ok(bytes), Ok(())) => Ok(bytes),
        (Err(ReadEnd::Long), Ok(())) => Err(FileEnd::Long),
        (Err(ReadEnd::Memory), Ok(())) => Err(FileEnd::Memory),
    }
}

// Reads an open file from its place to its end, and closes it.
fn read_and_close<F: Files>(
    alloc: Global,
    files: &mut F,
    id: u32,
    limit: usize,
) -> Result<Vec<u8>, FileEnd>
    requires opened { (F.state files.old).purpose id ≡ Some Reading }
    requires limit { limit < 2 ^ 64 - 1 }
    ensures { ReadsToClose (F.state files.old) (F.state files.new) id limit result }
{
    let whole = read_whole(alloc, files, id, limit);
    let closed = files.close(id);
    end_of(whole, closed)
}

/// Opens a file by name, reads it whole where it has at most `limit` bytes, and closes it again.
pub fn read_file<F: Files>(
    alloc: Global,
    files: &mut F,
    name: &str,
    limit: usize,
) -> Result<Vec<u8>, FileEnd>
    requires { limit < 2 ^ 64 - 1 }
    ensures { ReadsFile (F.state files.old) (F.state files.new) name.now limit result }
{
    let id = match files.open(name) {
        Ok(id) => id,
        Err(OpenEnd::Absent) => return Err(FileEnd::Absent),
        Err(OpenEnd::Failed) => return Err(FileEnd::Failed),
        Err(OpenEnd::Memory) => return Err(FileEnd::Memory),
    };
    read_and_close(alloc, files, id, limit)
}

// Writes all of `bytes` to the end of the id's file, and closes it.
fn put_and_close<F: Files>(files: &mut F, id: u32, bytes: &[u8]) -> Result<(), MakeEnd>
    requires created { (F.state files.old).purpose id ≡ Some Writing }
    ensures { PutsToClose (F.state files.old) (F.state files.new) id bytes.now result }
{
    let put = put_whole(files, id, bytes);
    match files.close(id) {
        Ok(()) => put,
        Err(Failed) => Err(MakeEnd::Failed),
    }
}

/// Makes the file of this name with exactly these bytes, whatever it held before, and closes it. Where that is
/// refused, the file holds what it held, or a prefix of the bytes.
pub fn put_file<F: Files>(files: &mut F, name: &str, bytes: &[u8]) -> Result<(), MakeEnd>
    ensures { PutsFile (F.state files.old) (F.state files.new) name.now bytes.now result }
{
    let id = files.create(name)?;
    put_and_close(files, id, bytes)
}
