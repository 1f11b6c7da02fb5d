//! Cells of an analysis, and the actions of a graph's edges.
/// A cell of the analysis: an item that is a number, or a text of at most 18 bytes, or where `item` is None the counter
/// of a PERFORM with TIMES. It stands for each of the item's `times` occurrences; a counter is one.
#[derive(Clone, Copy, PartialEq, Eq)]
pub struct Cell {
    pub item: Option<u32>,
    pub digits: u32,
    pub scale: u32,
    pub signed: bool,
    pub times: u32,
}

/// What an edge of the graph does of its node's statement. The number of a test, or of a file in its statement's list,
/// counts from 0.
#[derive(Clone, Copy, Debug, PartialEq, Eq)]
pub enum Action {
    Skip,
    /// A MOVE, the setting of VARYING, READ's INTO, WRITE's FROM.
    Assign,
    /// Arithmetic without a size error, or the augmenting of VARYING.
    Done,
    /// Arithmetic with a size error that its phrase handles.
    Size,
    True(u32),
    False(u32),
    /// The counter of TIMES is set.
    SetCount,
    /// It goes down by one.
    Down,
    Open(u32),
    Close(u32),
    /// A READ that finds a record.
    Take,
    AtEnd,
    /// Another status than 00, and than 10 of a READ.
    Bad(u32),
    Write,
    Show,
}
