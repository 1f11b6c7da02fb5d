//! The cells of items.
ghost use Rattle.std.specs.Prelude.{◌≡◌, is_some, slice_get};
ghost use Rattle.std.specs.Option.{option_map};
ghost use Rattle.cob_program.specs.Act.{Program};
ghost use Rattle.cob_graph.specs.Graphs.{cells_of};
ghost use Rattle.cob_graph.specs.declared.homes.Home.TheVariants.{Item as of_item};
ghost use Rattle.cob_graph.specs.Numbers.{is_item, is_lower, item_here, items_before, items_of, lower_items, number_of};

use cob_runs::Cell;

fn is_of(place: u32, cell: &Cell) -> bool
    ensures { result ≡ is_item place cell.now.item }
{
    match cell.item {
        None => false,
        Some(other) => other == place,
    }
}

fn is_lower(place: u32, cell: &Cell) -> bool
    ensures { result ≡ is_lower place cell.now.item }
{
    match cell.item {
        None => false,
        Some(other) => other < place,
    }
}

// how many cells are of items before a place
fn lower_cells(cells: &[Cell], place: u32) -> usize
    ensures { (p : Program) → cells.now ≡ cells_of p → result ≡ lower_items place (items_of cells.now) }
{
    cells.partition_point(|cell| is_lower(place, cell))
}

fn if_here(cells: &[Cell], number: usize, place: u32) -> Option<usize>
    ensures { result ≡ item_here number place (option_map (λ c. c.item) (slice_get cells.now number)) }
{
    match cells.get(number) {
        None => None,
        Some(cell) => is_of(place, cell).then_some(number),
    }
}

/// The number of an item's cell, if it has one. Where each item before has a cell, it is the item's place; else halves are
/// sought through, since cells of items stand in the order of places.
pub fn cell_of(cells: &[Cell], place: u32) -> Option<usize>
    ensures { (p : Program) → cells.now ≡ cells_of p → result ≡ number_of p (of_item place) }
{
    match if_here(cells, place as usize, place) {
        None => if_here(cells, lower_cells(cells, place), place),
        found => found,
    }
}

fn has_item(cell: &Cell) -> bool
    ensures { result ≡ is_some cell.now.item }
{
    cell.item.is_some()
}

/// How many cells are of items; those of counters stand behind them.
pub fn item_count(cells: &[Cell]) -> usize
    ensures { (p : Program) → cells.now ≡ cells_of p → result ≡ items_before (items_of cells.now) }
{
    cells.partition_point(|cell| has_item(cell))
}
