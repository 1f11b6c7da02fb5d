//! The kinds of things that names are asked for.
/// What a name is asked for.
#[derive(Clone, Copy, PartialEq, Eq)]
pub enum Kind {
    Item,
    /// An 01 item of a file.
    Record,
    Flag,
    File,
}
