//! Parts of storage, and texts of so many bytes.
ghost use Rattle.std.specs.Prelude.{◌≡◌, ◌≤◌, ◌+◌, ◌++◌, length};
ghost use Rattle.std.specs.Result.{OnOk};
ghost use Rattle.cob_runs.specs.Contents.{area, written, fitted};

use std::alloc::AllocError;

/// Writes the bytes from a place on.
pub fn write_at(storage: &mut [u8], offset: u32, bytes: &[u8])
    requires { offset + length bytes.now ≤ length storage.old }
    ensures { storage.new ≡ written storage.old offset bytes.now }
{
    let from = offset as usize;
    storage[from..from + bytes.len()].copy_from_slice(bytes);
}

/// Writes so many bytes of a text from a place on: it is cut on the right, or filled with spaces there.
pub fn write_text(storage: &mut [u8], offset: u32, count: u32, text: &[u8])
    requires { offset + count ≤ length storage.old }
    ensures { storage.new ≡ written storage.old offset (fitted count text.now) }
{
    let from = offset as usize;
    let to = from + count as usize;
    cob_store::write_text(text, &mut storage[from..to]);
}

/// Writes a part of storage to another place, cut on the right or filled with spaces there. The parts may overlap.
pub fn copy_area(storage: &mut [u8], from: u32, count: u32, offset: u32, wanted: u32)
    requires from { from + count ≤ length storage.old }
    requires to { offset + wanted ≤ length storage.old }
    ensures { storage.new ≡ written storage.old offset (fitted wanted (area storage.old from count)) }
{
    let kept = count.min(wanted) as usize;
    let start = from as usize;
    let at = offset as usize;
    storage.copy_within(start..start + kept, at);
    storage[at + kept..at + wanted as usize].fill(b' ');
}

/// Appends so many bytes of a text: it is cut on the right, or filled with spaces there.
#[tactic(auto, using(crate::proofs::TextLemmas::appended))]
pub fn append_text(bytes: &mut Vec<u8>, text: &[u8], count: u32) -> Result<(), AllocError>
    ensures { OnOk result (bytes.new.items ≡ bytes.old.items ++ fitted count text.now) }
{
    let kept = text.len().min(count as usize);
    bytes.extend_from_slice(&text[..kept])?;
    let all = bytes.as_slice().len() + (count as usize - kept);
    bytes.resize(all, b' ')?;
    Ok(())
}
