//! The closing of a pack's matrix, once it is lowered to what is known of the pack's cells.
ghost use Rattle.std.specs.Prelude.{◌≡◌, ◌+◌, ◌<◌, ◌≤◌, neg_ℤ, ◌*ℤ◌, IsTrue, length, List, Some, None, if◌then◌else◌};
ghost use Rattle.cob_data.specs.declared.layout.Layout.{Layout};
ghost use Rattle.diff_bounds.specs.Matrix.{word, IsMatrix};
ghost use Rattle.diff_bounds.specs.Closed.{closed};
ghost use Rattle.diff_bounds.specs.Settled.{IsTightBut};
ghost use Rattle.interval_domain.specs.Known.{Known};
ghost use Rattle.cob_graph.specs.declared.homes.Home.{Home};
ghost use Rattle.diff_steps.specs.Packs.{Pack};
ghost use Rattle.diff_steps.specs.Matrices.{with_words, put_closed};
ghost use Rattle.diff_layer.specs.KnownCells.{put_cells, closed_with, known_cells, HasEnds, HaveEnds, IsPutAt};
ghost use Rattle.diff_layer.specs.PackEnds.{IsNumber};
ghost use Rattle.diff_layer.specs.Tight.{IsTightIfSettled};

use crate::pack::matrix_changes::changed_place;
use diff_bounds::{add_bound, close, close_row, settled};
use interval_domain::Interval;

/// What is known of a cell of a pack.
#[derive(Clone, Copy, PartialEq, Eq)]
pub struct KnownCell {
    /// An interval of the cell's own units, or anything.
    pub known: Option<Interval>,
    /// How many of the pack's units one of the cell's is.
    pub unit: i128,
}

// an end in the pack's units
fn in_units(end: i128, unit: i128) -> i128
    requires { IsNumber (end *ℤ unit) }
    ensures value { result ≡ end *ℤ unit }
    ensures number { IsNumber result }
{
    end * unit
}

// the number with the other sign
fn opposite(z: i128) -> i128
    requires { IsNumber z }
    ensures value { result ≡ neg_ℤ z }
    ensures number { IsNumber result }
{
    -z
}

// lowers the words of a cell to what is known of it
fn put_known(size: usize, m: &mut [i128], place: usize, cell: KnownCell)
    requires size { size ≤ 8 }
    requires m { IsMatrix size m.old }
    requires first { 1 ≤ place }
    requires last { place ≤ size }
    requires cell { HasEnds cell }
    ensures words { IsPutAt size place cell (word (size + 1) m.old) (word (size + 1) m.new) }
    ensures matrix { IsMatrix size m.new }
{
    if let Some(known) = cell.known {
        let high = in_units(known.high, cell.unit);
        add_bound(size, m, place, 0, high);
        let low = opposite(in_units(known.low, cell.unit));
        add_bound(size, m, 0, place, low);
    }
}

// lowers the words of all cells to what is known of them
fn put_all(size: usize, m: &mut [i128], cells: &[KnownCell])
    requires size { size ≤ 8 }
    requires m { IsMatrix size m.old }
    requires cells { length cells.now ≤ size }
    requires ends { HaveEnds cells.now }
    ensures value { m.new ≡ with_words size (put_cells cells.now (word (size + 1) m.old)) }
    ensures matrix { IsMatrix size m.new }
{
    for k in 0..cells.len() {
        put_known(size, m, k + 1, cells[k]);
    }
}

// closes the matrix, if no cycle is negative
fn close_whole(size: usize, m: &mut [i128]) -> bool
    requires size { size ≤ 8 }
    requires m { IsMatrix size m.old }
    ensures closed { closed size m.old ≡ (if result then Some m.new else None) }
    ensures matrix { IsTrue result → IsMatrix size m.new }
    ensures tight { IsTrue result → IsTightIfSettled size m.new }
{
    close(size, m)
}

// closes the matrix by one row
fn close_one_row(size: usize, m: &mut [i128], at: usize) -> bool
    requires size { size ≤ 8 }
    requires m { IsMatrix size m.old }
    requires at { at ≤ size }
    requires tight { IsTightBut (size + 1) at (word (size + 1) m.old) }
    ensures closed { closed size m.old ≡ (if result then Some m.new else None) }
    ensures matrix { IsTrue result → IsMatrix size m.new }
    ensures tight { IsTrue result → IsTightIfSettled size m.new }
{
    close_row(size, m, at)
}

// closes what a closed matrix has become, by one row where no other words have changed
fn close_changed(size: usize, m: &mut [i128], last: &[i128]) -> bool
    requires size { size ≤ 8 }
    requires m { IsMatrix size m.old }
    requires last { IsMatrix size last.now }
    requires tight { IsTightIfSettled size last.now }
    ensures closed { closed size m.old ≡ (if result then Some m.new else None) }
    ensures matrix { IsTrue result → IsMatrix size m.new }
    ensures tight { IsTrue result → IsTightIfSettled size m.new }
{
    if settled(size, last) {
        if let Some(at) = changed_place(size, last, m) {
            return close_one_row(size, m, at);
        }
    }
    close_whole(size, m)
}

/// Lowers the words to what is known of the pack's cells, in its order, and closes the matrix, if no cycle is negative
/// then. Says whether that is so. After `false` the words are not to be used.
pub fn close_pack(size: usize, m: &mut [i128], cells: &[KnownCell]) -> bool
    requires size { size ≤ 8 }
    requires m { IsMatrix size m.old }
    requires cells { length cells.now ≡ size }
    requires ends { HaveEnds cells.now }
    ensures closed { closed_with size cells.now m.old ≡ (if result then Some m.new else None) }
    ensures closing { (l : Layout) (homes : List Home) (known : List Known) (pack : Pack)
        → cells.now ≡ known_cells l homes known pack → put_closed l homes known pack m.old ≡
        (if result then Some m.new else None) }
    ensures matrix { IsTrue result → IsMatrix size m.new }
    ensures tight { IsTrue result → IsTightIfSettled size m.new }
{
    put_all(size, m, cells);
    close_whole(size, m)
}

/// Does what `close_pack` does with a matrix that has come of one that was closed. Where no more than the words of one
/// row and of its column have changed since, it takes time quadratic in the places.
pub fn close_again(size: usize, m: &mut [i128], last: &[i128], cells: &[KnownCell]) -> bool
    requires size { size ≤ 8 }
    requires m { IsMatrix size m.old }
    requires last { IsMatrix size last.now }
    requires tight { IsTightIfSettled size last.now }
    requires cells { length cells.now ≡ size }
    requires ends { HaveEnds cells.now }
    ensures closed { closed_with size cells.now m.old ≡ (if result then Some m.new else None) }
    ensures closing { (l : Layout) (homes : List Home) (known : List Known) (pack : Pack)
        → cells.now ≡ known_cells l homes known pack → put_closed l homes known pack m.old ≡
        (if result then Some m.new else None) }
    ensures matrix { IsTrue result → IsMatrix size m.new }
    ensures tight { IsTrue result → IsTightIfSettled size m.new }
{
    put_all(size, m, cells);
    close_changed(size, m, last)
}
