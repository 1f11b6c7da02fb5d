//! What calls on files answer.

/// The status of a call on a file, and whether the file has FILE STATUS.
#[derive(Clone, Copy)]
pub struct Called {
    pub status: u8,
    pub handled: bool,
}

/// The status of a READ, whether the file has FILE STATUS, and whether something handles the end of the file.
#[derive(Clone, Copy)]
pub struct Taken {
    pub status: u8,
    pub handled: bool,
    pub end_handled: bool,
}
