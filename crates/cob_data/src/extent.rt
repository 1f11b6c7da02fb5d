//! The bytes of an item in all its occurrences.
ghost use Rattle.std.specs.Prelude.{◌≡◌, ◌<◌, ◌≤◌, ◌+◌, ◌⊎◌, ℕ};
ghost use Rattle.cob_data.specs.Extents.{start_of, share_bytes, meets_range, share_extents};

/// An item's bytes (ISO 1989:1985, "OCCURS clause"): where its first occurrence starts, how long each is, how many
/// there are, and how far each starts behind the one before. What is no table's has one, and a stride of 0.
#[derive(Clone, Copy, PartialEq, Eq)]
pub struct Extent {
    pub offset: u32,
    pub length: u32,
    pub times: u32,
    pub stride: u32,
}

impl Extent {
    /// Where an occurrence starts, counted from 0. The greatest start and a length behind it fill 64 bits.
    #[tactic(auto, using(crate::proofs::ExtentStarts::start_is, crate::proofs::ExtentStarts::start_fits))]
    pub fn start(&self, number: u32) -> u64
        ensures value { result ≡ start_of self.now number }
        ensures room { result ≤ 18446744069414584320 }
    {
        u64::from(self.offset) + u64::from(number) * u64::from(self.stride)
    }
}

// Whether two ranges of storage, each an offset and a number of bytes, have a byte in common.
fn share_bytes(offset: u64, count: u32, from: u64, many: u32) -> bool
    requires here { offset + count < 18446744073709551616 }
    requires there { from + many < 18446744073709551616 }
    ensures { result ≡ share_bytes offset count from many }
{
    let end = offset + u64::from(count);
    let other = from + u64::from(many);
    !(other <= offset || end <= from)
}

// The first occurrence that ends behind a byte, if so many go on; with no stride the only one.
#[tactic(auto, using(crate::proofs::Meeting::so_many_before, crate::proofs::Meeting::next_is_behind))]
fn first_behind(extent: &Extent, offset: u64) -> u64
    requires { offset + 1 < 18446744073709551616 }
    ensures before { (n : ℕ) → n < result → start_of extent.now n + extent.now.length ≤ offset }
    ensures there { (offset < start_of extent.now result + extent.now.length)
        ⊎ ((extent.now.stride ≡ 0) × (result ≡ 0)) }
{
    let end = u64::from(extent.offset) + u64::from(extent.length);
    if end > offset || extent.stride == 0 {
        0
    } else {
        (offset - end) / u64::from(extent.stride) + 1
    }
}

// Whether one occurrence has a byte of some occurrence of another item.
fn meets(a: &Extent, number: u32, b: &Extent) -> bool
    ensures { result ≡ meets_range b.now (start_of a.now number) a.now.length }
{
    let from = a.start(number);
    let first = first_behind(b, from);
    if first >= u64::from(b.times) {
        return false;
    }
    let other = b.start(first as u32);
    share_bytes(from, a.length, other, b.length)
}

/// Whether two items have a byte in common in some of their occurrences.
pub fn share_extents(a: &Extent, b: &Extent) -> bool
    ensures { result ≡ share_extents a.now b.now }
{
    for number in 0..a.times {
        if meets(a, number, b) {
            return true;
        }
    }
    false
}
