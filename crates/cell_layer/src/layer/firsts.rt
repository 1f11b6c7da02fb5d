//! What is known of cells where a run begins: an item is read whose bytes VALUEs fill, in each of its occurrences.
ghost use Rattle.std.specs.Prelude.{◌≡◌, ◌≤◌, ◌+◌, ◌*◌, ◌<◌, suc, bytes_eq, length, IfOk, IfSome};
ghost use Rattle.std.specs.List.{All};
ghost use Rattle.cob_data.specs.Extents.{start_of, LiesWithin};
ghost use Rattle.cob_data.specs.Occurrences.{extent_of};
ghost use Rattle.cob_program.specs.ActView.{plain_program};
ghost use Rattle.cob_runs.specs.Contents.{area, form_at};
ghost use Rattle.cob_graph.specs.Graphs.{cells_of as program_cells};
ghost use Rattle.cob_store.specs.WellFormed.{HasWellFormedItems, IsWellFormedForm, IsShort};
ghost use Rattle.cob_graph.specs.declared.homes.Home.TheVariants.{Item as of_item};
ghost use Rattle.interval_domain.specs.Rows.{IsReached, cells_of, row_of};
ghost use Rattle.cell_laws.specs.Entry.{values_over, least_of, entry_known, entry_cells};
ghost use Rattle.cell_layer.specs.Firsts.{read_known, number_of, known_at, AreOver, first_known, first_cells};

use crate::row::knowing::joined_known;
use cob_data::{Item, Layout};
use cob_program::Program;
use cob_runs::Cell;
use cob_store::{item_at, number_in, put_values};
use cob_tree::Form;
use dec_num::Scaled;
use interval_domain::{Interval, set_known, set_unreached};
use std::alloc::{AllocError, Global};

// ---- storage at first

/// Storage with each VALUE over bytes that are all the same.
pub(crate) fn values_over(alloc: Global, layout: &Layout, byte: u8) -> Result<Vec<u8>, AllocError>
    requires { HasWellFormedItems layout.now }
    ensures value { IfOk result (λ storage. storage.items ≡ values_over layout.now byte) }
    ensures whole { IfOk result (λ storage. length storage.items ≡ layout.now.storage) }
{
    let mut storage = vec![in alloc; byte; layout.storage as usize]?;
    put_values(alloc, layout, storage.as_mut_slice())?;
    Ok(storage)
}

// The bytes of an item's occurrence.
fn occurrence<'a>(item: &Item, storage: &'a [u8], number: u32) -> &'a [u8]
    requires { start_of (extent_of item.now) number + item.now.length ≤ length storage.now }
    ensures value { result.now ≡ area storage.now (start_of (extent_of item.now) number) item.now.length }
    ensures whole { length result.now ≡ item.now.length }
{
    let from = item.extent().start(number) as usize;
    &storage[from..from + item.length as usize]
}

fn are_same(a: &[u8], b: &[u8]) -> bool
    ensures { result ≡ bytes_eq a.now b.now }
{
    a == b
}

// ---- what bytes are read as

fn point_of(number: Scaled) -> Interval
    ensures { result ≡ record { low = number.units; high = number.units } }
{
    Interval {
        low: number.units,
        high: number.units,
    }
}

fn read_point(form: &Form, bytes: &[u8]) -> Option<Interval>
    requires sound { IsWellFormedForm form.now (length bytes.now) }
    requires short { IsShort form.now }
    ensures { result ≡ read_known form.now bytes.now }
{
    match number_in(form, bytes) {
        Some(number) => Some(point_of(number)),
        None => None,
    }
}

// What an occurrence is known to hold: over zeros and over ones its bytes are the same, if VALUEs fill them.
fn known_at(item: &Item, zeros: &[u8], ones: &[u8], number: u32) -> Option<Interval>
    requires form { IsWellFormedForm item.now.form item.now.length }
    requires short { IsShort item.now.form }
    requires zeros { start_of (extent_of item.now) number + item.now.length ≤ length zeros.now }
    requires ones { start_of (extent_of item.now) number + item.now.length ≤ length ones.now }
    ensures { result ≡ known_at item.now zeros.now ones.now number }
{
    let bytes = occurrence(item, zeros, number);
    if are_same(bytes, occurrence(item, ones, number)) {
        read_point(&item.form, bytes)
    } else {
        None
    }
}

// ---- cells

// What an item is known to hold in all its occurrences.
fn known_by_values(item: &Item, zeros: &[u8], ones: &[u8]) -> Option<Interval>
    requires form { IsWellFormedForm item.now.form item.now.length }
    requires short { IsShort item.now.form }
    requires some { 1 ≤ item.now.times }
    requires zeros { LiesWithin (extent_of item.now) (length zeros.now) }
    requires ones { LiesWithin (extent_of item.now) (length ones.now) }
    ensures { result ≡ least_of (number_of item.now zeros.now ones.now) item.now.times }
{
    let mut known = known_at(item, zeros, ones, 0);
    for number in 1..item.times {
        let next = known_at(item, zeros, ones, number);
        known = joined_known(known, next);
    }
    known
}

fn known_of_item(layout: &Layout, zeros: &[u8], ones: &[u8], place: u32) -> Option<Interval>
    requires sound { HasWellFormedItems layout.now }
    requires over { AreOver layout.now zeros.now ones.now }
    requires short { IsShort (form_at layout.now place) }
    ensures { result ≡ entry_known layout.now (of_item place) }
{
    match item_at(layout, place) {
        None => None,
        Some(item) => known_by_values(item, zeros, ones),
    }
}

fn known_of_cell(layout: &Layout, zeros: &[u8], ones: &[u8], cell: &Cell) -> Option<Interval>
    requires sound { HasWellFormedItems layout.now }
    requires over { AreOver layout.now zeros.now ones.now }
    requires short { IfSome cell.now.item (λ place. IsShort (form_at layout.now place)) }
    ensures { result ≡ first_known layout.now cell.now }
{
    match cell.item {
        None => None,
        Some(place) => known_of_item(layout, zeros, ones, place),
    }
}

// ---- the row

// Makes a row that is reached, with so many cells.
fn begin(row: &mut [i128], cells: usize)
    requires { length row.old ≡ suc (2 * cells) }
    ensures reached { IsReached row.new }
    ensures many { length (cells_of row.new) ≡ cells }
{
    set_unreached(row);
    row[0] = 1;
}

fn set_firsts(layout: &Layout, zeros: &[u8], ones: &[u8], cells: &[Cell], row: &mut [i128])
    requires sound { HasWellFormedItems layout.now }
    requires over { AreOver layout.now zeros.now ones.now }
    requires short { All (λ c. IfSome c.item (λ place. IsShort (form_at layout.now place))) cells.now }
    requires reached { IsReached row.old }
    requires many { length (cells_of row.old) ≡ length cells.now }
    ensures { row.new ≡ row_of (first_cells layout.now cells.now) }
{
    for k in 0..cells.len() {
        let known = known_of_cell(layout, zeros, ones, &cells[k]);
        set_known(row, k, known);
    }
}

/// Makes the row of what is known of a program's cells where a run begins, from storage with each VALUE over zeros and
/// over ones: an item each of whose occurrences VALUEs fill is known to hold the numbers that these are read as, and
/// nothing is known of others. What the row was before doesn't matter.
pub fn first(program: &Program, zeros: &[u8], ones: &[u8], cells: &[Cell], row: &mut [i128])
    requires sound { HasWellFormedItems program.now.layout }
    requires over { AreOver program.now.layout zeros.now ones.now }
    requires cells { cells.now ≡ program_cells (plain_program program.now) }
    requires words { length row.old ≡ suc (2 * length cells.now) }
    ensures { row.new ≡ row_of (entry_cells (plain_program program.now)) }
{
    begin(row, cells.len());
    set_firsts(&program.layout, zeros, ones, cells, row);
}
