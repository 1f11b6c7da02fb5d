//! Qualifiers, matched from an item upwards.
ghost use Rattle.std.specs.Prelude.{◌≡◌, [], slice_get};
ghost use Rattle.std.specs.Option.{option_copied};
ghost use Rattle.cob_typed_exprs.specs.Names.{is_named, item_name, item_parent, qualifies};
ghost use Rattle.cob_typed_exprs.specs.Homes.{list_of};
ghost use Rattle.cob_typed_exprs.specs.Search.{left_behind};

use cob_data::Item;
use cob_tree::Name;

/// The item's own name; FILLER has none.
fn name_of(items: &[Item], place: u32) -> Option<&Name>
    ensures { option_copied result ≡ item_name (slice_get items.now place) }
{
    match items.get(place as usize) {
        None => None,
        Some(item) => item.name.as_ref(),
    }
}

/// Whether the item has the name.
fn has_name(items: &[Item], place: u32, name: &Name) -> bool
    ensures { result ≡ is_named name.now (item_name (slice_get items.now place)) }
{
    match name_of(items, place) {
        None => false,
        Some(own) => name.get() == own.get(),
    }
}

/// The group directly above the item.
pub fn parent_of(items: &[Item], place: u32) -> Option<u32>
    ensures { result ≡ item_parent (slice_get items.now place) }
{
    match items.get(place as usize) {
        None => None,
        Some(item) => item.parent,
    }
}

/// The qualifiers that are left behind a group: all but the first, where that names the group.
pub fn left_behind<'n>(items: &[Item], of: &'n [Name], group: u32) -> &'n [Name]
    ensures { result.now ≡ left_behind of.now (item_name (slice_get items.now group)) }
{
    match of.split_first() {
        None => of,
        Some((first, others)) => {
            if has_name(items, group, first) {
                others
            } else {
                of
            }
        }
    }
}

/// Whether no qualifier is left.
pub fn none_left(of: &[Name]) -> bool
    ensures { result ≡ qualifies of.now [] }
{
    of.is_empty()
}

/// Whether these qualifiers name a file: there is none, or its name alone.
pub fn name_home(of: &[Name], home: Option<&[u8]>) -> bool
    ensures { result ≡ qualifies of.now (list_of (option_copied home.entry)) }
{
    match (of.split_first(), home) {
        (None, _) => true,
        (Some(_), None) => false,
        (Some((first, others)), Some(file)) => first.get() == file && none_left(others),
    }
}
