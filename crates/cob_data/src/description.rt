//! What the data entries of a program say, item by item, and where each item lies.
use crate::layout::Sender;
use cob_tree::{Form, Many, Name, Usage};

/// Where an entry stands: below a file's FD, by the place of this, or in working storage.
#[derive(Clone, Copy, PartialEq, Eq)]
pub enum Area {
    File(u32),
    Storage,
}

/// A value, or all values up to another.
#[derive(Drop)]
pub struct Span {
    pub low: Sender,
    pub high: Option<Sender>,
}

/// What the entry of an item says. A level that isn't written as one is 0. `form` is that of the picture and the
/// usage, and a group's where there is no allowed picture; `bytes` is what it takes. `usage` is Display, Binary or
/// Packed, and `sign` Leading or Trailing, as they are written.
#[derive(Drop)]
pub struct Description {
    pub area: Area,
    pub line: u32,
    pub level: u32,
    pub name: Option<Name>,
    pub redefines: Option<Name>,
    pub pictured: bool,
    pub form: Form,
    pub bytes: u32,
    pub usage: Option<Usage>,
    pub sign: Option<Usage>,
    pub value: Option<Many<Span>>,
}

/// What the entry of a condition-name says. `owner` is the place of the item directly before it in its area. `value`
/// is missing where the entry has another clause than one VALUE.
#[derive(Drop)]
pub struct Condition {
    pub line: u32,
    pub name: Option<Name>,
    pub owner: Option<u32>,
    pub value: Option<Many<Span>>,
}

/// Where an item lies among the others. `start`, `length` and `end` count bytes. `under` is the area of the 01 that it
/// belongs to, if it belongs to one. `room` is the length of what it redefines, if that is there. `group` tells that
/// it has items below it, `shared` that it stands in a redefinition.
#[derive(Clone, Copy)]
pub struct Spot {
    pub start: u64,
    pub length: u64,
    pub end: u64,
    pub parent: Option<u32>,
    pub under: Option<Area>,
    pub room: Option<u64>,
    pub group: bool,
    pub shared: bool,
}

/// What lies above an item: the group, the area of the 01, and whether it is in a redefinition.
#[derive(Clone, Copy)]
pub struct Above {
    pub parent: Option<u32>,
    pub under: Option<Area>,
    pub shared: bool,
}
