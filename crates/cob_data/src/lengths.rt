//! How many bytes an item takes.
ghost use Rattle.std.specs.Prelude.{◌≡◌, ◌≤◌, ◌<◌, ◌+◌, ◌*◌, ◌^◌, length, not, nat_lt};
ghost use Rattle.std.specs.List.{prefix_len};
ghost use Rattle.cob_data.specs.Lengths.{depth, is_deeper, forest, item_bytes, unless_redefining};
ghost use Rattle.cob_tree.specs.Limits.{token_limit};

use crate::description::Description;
use crate::slice::{behind, front};

pub fn depth(item: &Description) -> u32
    ensures { result ≡ depth item.now }
{
    if item.level == 77 { 1 } else { item.level }
}

fn is_deeper(level: u32, item: &Description) -> bool
    ensures { result ≡ is_deeper level item.now }
{
    level < depth(item)
}

/// How many items at the beginning are deeper.
pub fn count_deeper(level: u32, items: &[Description]) -> usize
    ensures value { result ≡ prefix_len (is_deeper level) items.now }
    ensures within { result ≤ length items.now }
{
    for place in 0..items.len() {
        if !is_deeper(level, &items[place]) {
            return place;
        }
    }
    items.len()
}

fn unless_redefining(item: &Description, bytes: u64) -> u64
    ensures value { result ≡ unless_redefining item.now bytes }
    ensures within { result ≤ bytes }
{
    match &item.redefines {
        Some(_) => 0,
        None => bytes,
    }
}

/// The bytes of an item, from those below it.
pub fn item_bytes(item: &Description, below: &[Description]) -> u64
    requires { length below.now ≤ token_limit }
    ensures value { result ≡ item_bytes item.now (forest below.now) }
    ensures within { result ≤ (length below.now + 1) * 2 ^ 32 }
{
    if below.is_empty() {
        return u64::from(item.bytes);
    }
    let mut total = 0;
    let mut rest = below;
    while !rest.is_empty() {
        let first = &rest[0];
        let others = behind(rest, 1);
        let count = count_deeper(depth(first), others);
        let bytes = item_bytes(first, front(others, count));
        total += unless_redefining(first, bytes);
        rest = behind(others, count);
    }
    total
}
