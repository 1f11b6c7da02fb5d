//! The most bytes that a read or a write counts.
ghost use Rattle.std.specs.Prelude.{◌≡◌, ◌≤◌, ◌<◌, ◌^◌, ◌-◌, min};

// So many bytes at most, and one at least.
#[derive(Clone, Copy, Drop)]
pub struct Most {
    bytes: usize,
    ghost some: { 1 ≤ bytes },
}

impl Most {
    // As many as there are.
    pub fn all() -> Most
        ensures { result.bytes ≡ 2 ^ 64 - 1 }
    {
        Most { bytes: usize::MAX }
    }

    // So many.
    pub fn of(bytes: usize) -> Most
        requires { 1 ≤ bytes }
        ensures { result.bytes ≡ bytes }
    {
        Most { bytes }
    }

    // How many of so many bytes are counted: some, where there are any.
    pub fn front(self, count: usize) -> usize
        ensures front { result ≡ min count self.bytes }
        ensures some { 0 < count → 0 < result }
    {
        count.min(self.bytes)
    }
}
