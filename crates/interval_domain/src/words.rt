//! The words of a row, and what they say.
ghost use Rattle.std.specs.Prelude.{◌≡◌, ◌<◌, ◌+◌, ◌*◌, length, slice_set, None};
ghost use Rattle.interval_domain.specs.Known.{IsOrdered};
ghost use Rattle.interval_domain.specs.Rows.{IsReached, cells_of, row_of, row_from, is_reached, known_at, known_of, low_of, high_of};

use crate::bounds::Interval;

/// Whether the row is of a node that is reached.
pub fn is_reached(row: &[i128]) -> bool
    requires { 0 < length row.now }
    ensures { result ≡ is_reached row.now }
{
    row[0] > 0
}

/// Makes the row that no run comes with.
pub fn set_unreached(row: &mut [i128])
    ensures { row.new ≡ row_from (length row.old) None }
{
    row.fill(0);
}

// how many cells a row that is reached has
#[tactic(auto, using(crate::proofs::Flags::cell_count_is))]
pub(crate) fn cell_count(row: &[i128]) -> usize
    requires { IsReached row.now }
    ensures { result ≡ length (cells_of row.now) }
{
    row.len() / 2
}

// where a cell's low end stands; its high end is the next word
fn place_of(row: &[i128], k: usize) -> usize
    requires reached { IsReached row.now }
    requires k { k < length (cells_of row.now) }
    ensures value { result ≡ 2 * k + 1 }
    ensures within { result + 1 < length row.now }
{
    let _words = row.len();
    2 * k + 1
}

// the cell that two words say
fn known_of(low: i128, high: i128) -> Option<Interval>
    ensures { result ≡ known_of low high }
{
    if low <= high {
        Some(Interval { low, high })
    } else {
        None
    }
}

/// What is known of the cell with this number from 0.
#[tactic(auto, using(crate::proofs::Places::cell_by_words, crate::proofs::Places::cell_at_ordered))]
pub fn known_at(row: &[i128], k: usize) -> Option<Interval>
    requires reached { IsReached row.now }
    requires k { k < length (cells_of row.now) }
    ensures value { result ≡ known_at (cells_of row.now) k }
    ensures ordered { IsOrdered result }
{
    let place = place_of(row, k);
    known_of(row[place], row[place + 1])
}

fn low_of(known: Option<Interval>) -> i128
    ensures { result ≡ low_of known }
{
    match known {
        Some(interval) => interval.low,
        None => 1,
    }
}

fn high_of(known: Option<Interval>) -> i128
    ensures { result ≡ high_of known }
{
    match known {
        Some(interval) => interval.high,
        None => 0,
    }
}

/// Sets what is known of the cell with this number from 0.
#[tactic(auto, using(crate::proofs::Places::row_set, crate::proofs::Places::cells_set, crate::proofs::Places::reached_of_row))]
pub fn set_known(row: &mut [i128], k: usize, known: Option<Interval>)
    requires reached { IsReached row.old }
    requires k { k < length (cells_of row.old) }
    requires ordered { IsOrdered known }
    ensures value { row.new ≡ row_of (slice_set (cells_of row.old) k known) }
    ensures cells { cells_of row.new ≡ slice_set (cells_of row.old) k known }
    ensures reached { IsReached row.new }
{
    let place = place_of(row, k);
    row[place] = low_of(known);
    row[place + 1] = high_of(known);
}

// makes the first row the second
pub(crate) fn take_row(a: &mut [i128], b: &[i128])
    requires { length a.old ≡ length b.now }
    ensures { a.new ≡ b.now }
{
    a.copy_from_slice(b);
}
