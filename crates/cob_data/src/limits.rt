//! What is limited: the named elementary items and the bytes of storage.
ghost use Rattle.std.specs.Prelude.{◌≡◌, ◌≤◌, ◌+◌, ◌^◌, ◌&&◌, not, is_some, if◌then◌else◌, max, length};
ghost use Rattle.cob_data.specs.Spots.{storage_of};
ghost use Rattle.cob_data.specs.Rules.{count_items};

use crate::description::{Description, Spot};

fn one_if_counted(item: &Description, spot: &Spot) -> u64
    ensures { result ≡ (if is_some item.now.name && not spot.now.group then 1 else 0) }
{
    if item.name.is_some() && !spot.group {
        1
    } else {
        0
    }
}

/// How many named elementary items there are.
pub fn count_items(items: &[Description], spots: &[Spot]) -> u64
    requires { length items.now ≡ length spots.now }
    ensures { result ≡ count_items items.now spots.now }
{
    let mut count = 0;
    for place in 0..items.len() {
        let item = &items[place];
        let spot = &spots[place];
        count += one_if_counted(item, spot);
    }
    count
}

/// The bytes of all record areas and working storage.
pub fn storage_of(spots: &[Spot]) -> u64
    ensures { result ≡ storage_of spots.now }
{
    let mut most = 0;
    for spot in spots {
        most = spot.end.max(most);
    }
    most
}
