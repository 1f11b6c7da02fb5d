//! Where items lie in storage, and the rules that data entries and files keep (ISO 1989:1985, "Data division" and
//! "Environment division").
#![tactic(auto)]

mod build;
mod description;
mod end;
mod entry;
mod extent;
mod files;
mod item_rules;
mod laws;
mod layout;
mod lengths;
mod limits;
mod names;
mod read;
mod rules;
mod slice;
mod spots;
mod top;
mod values;

pub use end::{DataEnd, Rule, Which};
pub use extent::{Extent, share_extents};
pub use laws::{
    columns_lie_apart, groups_are_as_long_as_their_parts, occurrences_lie_apart,
    parts_follow_each_other,
};
pub use layout::{FileDecl, Flag, Item, Layout, Pair, Sender};
pub use top::{layout_of, overlaps};
