//! The thresholds of packs.
ghost use Rattle.std.specs.Prelude.{◌≡◌, ◌≤◌, ◌-◌, ◌*ℤ◌, ◌++◌, ◌^◌, length, map, IfOk, OnOk, unsigned_abs};
ghost use Rattle.std.specs.List.{AllByRecursion};
ghost use Rattle.analyse_core.specs.Mentions.{lists_of};
ghost use Rattle.diff_bounds.specs.Widening.{AreThresholds};
ghost use Rattle.analyse_core.specs.Choice.{numbers_of};
ghost use Rattle.analyse_core.specs.Rising.{Rises, sorted};
ghost use Rattle.analyse_core.specs.PackThresholds.{
  HasFewCells,
  HasFewDecimals,
  IsCellList,
  cell_thresholds,
  cell_units,
  cells_thresholds,
  finest,
  list_thresholds,
  own_thresholds,
  scale_at,
  thresholds_of_pack,
  with_negative,
};

use cob_runs::Cell;
use dec_num::pow10;
use diff_bounds::Pack;
use std::alloc::{AllocError, Global};

// ---- a pack's unit

// The place of a cell by its number, which counts from 1.
fn place(number: u32) -> usize
    ensures { result ≡ number - 1 }
{
    (number as usize).saturating_sub(1)
}

fn scale_at(cells: &[Cell], number: u32) -> u32
    ensures { result ≡ scale_at cells.now number }
{
    match cells.get(place(number)) {
        Some(cell) => cell.scale,
        None => 0,
    }
}

// The decimals of the finest cell.
fn finest(cells: &[Cell], numbers: &[u32]) -> u32
    ensures { result ≡ finest cells.now numbers.now }
{
    let mut decimals = 0;
    for number in numbers {
        decimals = scale_at(cells, *number).max(decimals);
    }
    decimals
}

// How many units of so many decimals one of the cell is.
#[tactic(auto, using(crate::proofs::PackUnits::units_are_few))]
fn cell_units(cells: &[Cell], decimals: u32, number: u32) -> i128
    requires { decimals ≤ 18 }
    ensures value { result ≡ cell_units cells.now decimals number }
    ensures size { unsigned_abs result ≤ 10 ^ 18 }
{
    pow10(decimals.saturating_sub(scale_at(cells, number)))
}

// ---- thresholds

fn own_thresholds(lists: &[Vec<i64>], number: u32) -> &[i64]
    ensures { result.now ≡ own_thresholds (lists_of lists.now) number }
{
    match lists.get(place(number)) {
        Some(list) => list.as_slice(),
        None => &[],
    }
}

fn times(x: i128, y: i128) -> i128
    requires { unsigned_abs (x *ℤ y) ≤ 10 ^ 37 }
    ensures value { result ≡ x *ℤ y }
    ensures size { unsigned_abs result ≤ 10 ^ 37 }
{
    x * y
}

// A threshold in the pack's units.
#[tactic(auto, using(crate::proofs::PackUnits::product_fits))]
fn in_units(threshold: i64, units: i128) -> i128
    requires { unsigned_abs units ≤ 10 ^ 18 }
    ensures value { result ≡ threshold *ℤ units }
    ensures size { unsigned_abs result ≤ 10 ^ 37 }
{
    times(threshold as i128, units)
}

// Adds a threshold in the pack's units, and its negative.
fn add_both(list: &mut Vec<i128>, threshold: i64, units: i128) -> Result<(), AllocError>
    requires { unsigned_abs units ≤ 10 ^ 18 }
    ensures { OnOk result (list.new.items ≡ list.old.items ++ with_negative (threshold *ℤ units)) }
{
    let number = in_units(threshold, units);
    list.push(number)?;
    list.push(-number)?;
    Ok(())
}

fn add_list(list: &mut Vec<i128>, thresholds: &[i64], units: i128) -> Result<(), AllocError>
    requires { unsigned_abs units ≤ 10 ^ 18 }
    ensures { OnOk result (list.new.items ≡ list.old.items ++ list_thresholds units thresholds.now) }
{
    for threshold in thresholds {
        add_both(list, *threshold, units)?;
    }
    Ok(())
}

fn add_cell(
    list: &mut Vec<i128>,
    cells: &[Cell],
    lists: &[Vec<i64>],
    decimals: u32,
    number: u32,
) -> Result<(), AllocError>
    requires { decimals ≤ 18 }
    ensures { OnOk result (list.new.items
        ≡ list.old.items ++ cell_thresholds cells.now (lists_of lists.now) decimals number) }
{
    add_list(
        list,
        own_thresholds(lists, number),
        cell_units(cells, decimals, number),
    )
}

fn add_cells(
    list: &mut Vec<i128>,
    cells: &[Cell],
    lists: &[Vec<i64>],
    decimals: u32,
    numbers: &[u32],
) -> Result<(), AllocError>
    requires { decimals ≤ 18 }
    ensures { OnOk result (list.new.items
        ≡ list.old.items ++ cells_thresholds cells.now (lists_of lists.now) decimals numbers.now) }
{
    for number in numbers {
        add_cell(list, cells, lists, decimals, *number)?;
    }
    Ok(())
}

// Sorts numbers, and leaves each once.
fn sort_out(numbers: &mut Vec<i128>)
    ensures { numbers.new.items ≡ sorted numbers.old.items }
{
    numbers.sort_unstable();
    numbers.dedup();
}

#[tactic(auto, using(crate::proofs::PackUnits::finest_is_small))]
fn thresholds_of_pack(
    alloc: Global,
    cells: &[Cell],
    lists: &[Vec<i64>],
    numbers: &[u32],
) -> Result<Vec<i128>, AllocError>
    requires { AllByRecursion HasFewDecimals cells.now }
    ensures { IfOk result (λ list. list.items ≡ thresholds_of_pack cells.now (lists_of lists.now) numbers.now) }
{
    let mut list = Vec::new(alloc);
    add_cells(&mut list, cells, lists, finest(cells, numbers), numbers)?;
    sort_out(&mut list);
    Ok(list)
}

fn thresholds_of(
    alloc: Global,
    cells: &[Cell],
    lists: &[Vec<i64>],
    packs: &[Pack],
) -> Result<Vec<Vec<i128>>, AllocError>
    requires { AllByRecursion HasFewDecimals cells.now }
    ensures { IfOk result (λ thresholds. lists_of thresholds.items
        ≡ map (thresholds_of_pack cells.now (lists_of lists.now)) (numbers_of packs.now)) }
{
    let mut thresholds = Vec::with_capacity(alloc, packs.len())?;
    for pack in packs {
        thresholds.push(thresholds_of_pack(alloc, cells, lists, pack.cells.as_slice())?)?;
    }
    Ok(thresholds)
}

/// A list of thresholds for each pack of a program's cells, by such a list for each cell: the thresholds of the pack's
/// cells in units of its finest cell, and their negatives. Each list rises, and has at most 2,048 numbers within 10^37.
pub fn pack_thresholds(
    alloc: Global,
    cells: &[Cell],
    lists: &[Vec<i64>],
    packs: &[Pack],
) -> Result<Vec<Vec<i128>>, AllocError>
    requires decimals { AllByRecursion HasFewDecimals cells.now }
    requires lists { AllByRecursion IsCellList (lists_of lists.now) }
    requires packs { AllByRecursion HasFewCells (numbers_of packs.now) }
    ensures value { IfOk result (λ thresholds. lists_of thresholds.items
        ≡ map (thresholds_of_pack cells.now (lists_of lists.now)) (numbers_of packs.now)) }
    ensures counted { IfOk result (λ thresholds. length thresholds.items ≡ length packs.now) }
    ensures rise { IfOk result (λ thresholds. AllByRecursion Rises (lists_of thresholds.items)) }
    ensures short { IfOk result (λ thresholds. AllByRecursion (λ list. length list.items ≤ 2048) thresholds.items) }
    ensures ends { IfOk result (λ thresholds. AllByRecursion AreThresholds (lists_of thresholds.items)) }
{
    thresholds_of(alloc, cells, lists, packs)
}
