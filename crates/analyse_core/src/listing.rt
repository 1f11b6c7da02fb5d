//! The thresholds of cells.
ghost use Rattle.std.specs.Prelude.{◌≡◌, ◌≤◌, ◌≤ℤ◌, ◌*ℤ◌, ◌+ℤ◌, ◌-ℤ◌, ◌^◌, pos, true, map, int_lt, IfOk, OnOk, unsigned_abs};
ghost use Rattle.std.specs.List.{All, AllByRecursion, fold};
ghost use Rattle.cob_program.specs.ActView.{plain_program};
ghost use Rattle.cob_program.specs.Values.{literal};
ghost use Rattle.cert_text.specs.Gaps.{IsSmall};
ghost use Rattle.interval_domain.specs.Rows.{lists_of};
ghost use Rattle.cell_steps.specs.OwnRanges.{own_range};
ghost use Rattle.graph_runs.specs.Sources.{IsSourceGraph};
ghost use Rattle.analyse_core.specs.Literals.{numbers_of};
ghost use Rattle.analyse_core.specs.Rising.{Rises, inserted};
ghost use Rattle.analyse_core.specs.Thresholds.{
  IsSmallCell,
  IsSmallNumber,
  all_noted,
  beside,
  beside_number,
  can_take,
  firsts,
  floor,
  holds_at,
  is_short,
  lies_in,
  noted,
  noted_beside,
  range_thresholds,
  rank_in,
  rounded_down,
  rounded_up,
  thresholds_for,
  thresholds_of,
  top,
};

use crate::program::program_literals;
use cert_check::own_ranges;
use cob_graph::Graph;
use cob_program::Program;
use cob_runs::Cell;
use cob_store::literal;
use cob_tree::Num;
use dec_num::{Scaled, pow10};
use interval_domain::Interval;
use std::alloc::{AllocError, Global};

// ---- a literal in a cell's units

// n / d, cut downwards
#[tactic(auto, using(transfer_ranges::proofs::Division::floor_size))]
fn floor(n: i128, d: i128) -> i128
    requires n { unsigned_abs n ≤ 10 ^ 36 }
    requires d { pos 1 ≤ℤ d }
    ensures value { result ≡ floor n d }
    ensures size { unsigned_abs result ≤ 10 ^ 36 }
{
    n.div_euclid(d)
}

fn times(x: i128, y: i128) -> i128
    requires { unsigned_abs (x *ℤ y) ≤ 10 ^ 36 }
    ensures value { result ≡ x *ℤ y }
    ensures size { unsigned_abs result ≤ 10 ^ 36 }
{
    x * y
}

fn top(scale: u32, number: Scaled) -> i128
    requires number { IsSmallNumber number }
    requires scale { scale ≤ 18 }
    ensures value { result ≡ top scale number }
    ensures size { unsigned_abs result ≤ 10 ^ 36 }
{
    times(number.units, pow10(scale))
}

#[tactic(auto, using(dec_num::proofs::Powers::ten_positive))]
fn rounded_down(scale: u32, number: Scaled) -> i128
    requires number { IsSmallNumber number }
    requires scale { scale ≤ 18 }
    ensures value { result ≡ rounded_down scale number }
    ensures size { unsigned_abs result ≤ 10 ^ 36 }
{
    floor(top(scale, number), pow10(number.scale))
}

#[tactic(auto, using(dec_num::proofs::Powers::ten_positive))]
fn rounded_up(scale: u32, number: Scaled) -> i128
    requires number { IsSmallNumber number }
    requires scale { scale ≤ 18 }
    ensures value { result ≡ rounded_up scale number }
    ensures size { unsigned_abs result ≤ 10 ^ 36 }
{
    -floor(-top(scale, number), pow10(number.scale))
}

// ---- a list that rises

fn lies_in(own: Interval, z: i128) -> bool
    ensures { result ≡ lies_in own z }
{
    own.low <= z && z <= own.high
}

fn is_below(threshold: i64, z: i64) -> bool
    ensures { result ≡ int_lt threshold z }
{
    threshold < z
}

// How many thresholds stand before the first that isn't below z.
fn rank_in(list: &[i64], z: i64) -> usize
    ensures { result ≡ rank_in z list.now }
{
    for (rank, threshold) in list.iter().enumerate() {
        if !is_below(*threshold, z) {
            return rank;
        }
    }
    list.len()
}

// Whether the threshold there is z, where none before it is above z.
fn holds_at(list: &[i64], rank: usize, z: i64) -> bool
    ensures { result ≡ holds_at list.now rank z }
{
    match list.get(rank) {
        Some(threshold) => *threshold <= z,
        None => false,
    }
}

// Puts a number into a list that rises, unless it holds it.
#[tactic(auto, using(crate::proofs::Rising::stands_there, crate::proofs::Rising::goes_in, crate::proofs::Rising::rank_within))]
fn insert(list: &mut Vec<i64>, z: i64) -> Result<(), AllocError>
    ensures { OnOk result (list.new.items ≡ inserted z list.old.items) }
{
    let rank = rank_in(list.as_slice(), z);
    if holds_at(list.as_slice(), rank, z) {
        return Ok(());
    }
    list.insert(rank, z)?;
    Ok(())
}

// Whether a number is of the cell's own range, while there are not enough.
fn can_take(own: Interval, list: &[i64], z: i128) -> bool
    ensures { result ≡ can_take own list.now z }
{
    lies_in(own, z) && list.len() < 128
}

// A number of the cell's own range.
fn word(own: Interval, z: i128) -> i64
    requires own { IsSmall own }
    requires lies { lies_in own z ≡ true }
    ensures { result ≡ z }
{
    z as i64
}

// Notes a number of the cell's own range, until there are enough.
#[tactic(auto, using(crate::proofs::CellLists::taken_in, crate::proofs::CellLists::left_out, crate::proofs::CellLists::takes_lies))]
fn note(list: &mut Vec<i64>, own: Interval, z: i128) -> Result<(), AllocError>
    requires { IsSmall own }
    ensures { OnOk result (list.new.items ≡ noted own list.old.items z) }
{
    if can_take(own, list.as_slice(), z) {
        return insert(list, word(own, z));
    }
    Ok(())
}

fn note_firsts(list: &mut Vec<i64>, own: Interval) -> Result<(), AllocError>
    requires { IsSmall own }
    ensures { OnOk result (list.new.items ≡ all_noted own list.old.items (firsts own)) }
{
    note(list, own, own.low)?;
    note(list, own, own.high)?;
    note(list, own, 0)
}

fn note_two(list: &mut Vec<i64>, own: Interval, x: i128, y: i128) -> Result<(), AllocError>
    requires { IsSmall own }
    ensures { OnOk result (list.new.items ≡ noted own (noted own list.old.items x) y) }
{
    note(list, own, x)?;
    note(list, own, y)
}

// Notes a number minus and plus one.
fn note_beside(list: &mut Vec<i64>, own: Interval, z: i128) -> Result<(), AllocError>
    requires own { IsSmall own }
    requires z { unsigned_abs z ≤ 10 ^ 36 }
    ensures { OnOk result (list.new.items ≡ noted own (noted own list.old.items (z -ℤ pos 1)) (z +ℤ pos 1)) }
{
    note(list, own, z - 1)?;
    note(list, own, z + 1)
}

// Notes two numbers, and each of them minus and plus one.
fn note_both(list: &mut Vec<i64>, own: Interval, down: i128, up: i128) -> Result<(), AllocError>
    requires own { IsSmall own }
    requires down { unsigned_abs down ≤ 10 ^ 36 }
    requires up { unsigned_abs up ≤ 10 ^ 36 }
    ensures { OnOk result (list.new.items ≡ all_noted own list.old.items (beside down up)) }
{
    note_two(list, own, down, up)?;
    note_beside(list, own, down)?;
    note_beside(list, own, up)
}

fn note_number(
    list: &mut Vec<i64>,
    own: Interval,
    scale: u32,
    number: Scaled,
) -> Result<(), AllocError>
    requires own { IsSmall own }
    requires scale { scale ≤ 18 }
    requires number { IsSmallNumber number }
    ensures { OnOk result (list.new.items ≡ all_noted own list.old.items (beside_number scale number)) }
{
    let down = rounded_down(scale, number);
    let up = rounded_up(scale, number);
    note_both(list, own, down, up)
}

fn is_short(number: &Num) -> bool
    ensures { result ≡ is_short number.now }
{
    number.digits.get().len() <= 18 && number.scale <= 18
}

fn value_of(number: &Num) -> Scaled
    requires { is_short number.now ≡ true }
    ensures value { result ≡ literal number.now }
    ensures small { IsSmallNumber result }
{
    literal(number)
}

// Notes what stands beside a literal.
fn note_literal(
    list: &mut Vec<i64>,
    own: Interval,
    scale: u32,
    number: &Num,
) -> Result<(), AllocError>
    requires own { IsSmall own }
    requires scale { scale ≤ 18 }
    ensures { OnOk result (list.new.items ≡ noted_beside own scale list.old.items number.now) }
{
    if is_short(number) {
        return note_number(list, own, scale, value_of(number));
    }
    Ok(())
}

fn note_literals(
    list: &mut Vec<i64>,
    own: Interval,
    scale: u32,
    literals: &[&Num],
) -> Result<(), AllocError>
    requires own { IsSmall own }
    requires scale { scale ≤ 18 }
    ensures { OnOk result (list.new.items
        ≡ fold (noted_beside own scale) list.old.items (numbers_of literals.now)) }
{
    for number in literals {
        note_literal(list, own, scale, number)?;
    }
    Ok(())
}

// ---- cells

// The thresholds of a cell, by its own range and its decimals.
fn range_thresholds(
    alloc: Global,
    literals: &[&Num],
    own: Interval,
    scale: u32,
) -> Result<Vec<i64>, AllocError>
    requires own { IsSmall own }
    requires scale { scale ≤ 18 }
    ensures { IfOk result (λ list. list.items ≡ range_thresholds (numbers_of literals.now) own scale) }
{
    let mut list = Vec::new(alloc);
    note_firsts(&mut list, own)?;
    note_literals(&mut list, own, scale, literals)?;
    Ok(list)
}

// The thresholds of some cells, by their own ranges.
fn all_thresholds(
    alloc: Global,
    literals: &[&Num],
    owns: &[Interval],
    cells: &[Cell],
) -> Result<Vec<Vec<i64>>, AllocError>
    requires owns { owns.now ≡ map own_range cells.now }
    requires small { All IsSmall owns.now }
    requires cells { All IsSmallCell cells.now }
    ensures { IfOk result (λ lists. lists_of lists.items ≡ thresholds_for (numbers_of literals.now) cells.now) }
{
    let mut lists = Vec::with_capacity(alloc, cells.len())?;
    for k in 0..cells.len() {
        lists.push(range_thresholds(alloc, literals, owns[k], cells[k].scale)?)?;
    }
    Ok(lists)
}

/// A list of thresholds for each cell of a program, which rises: the ends of the cell's own range, 0, and what stands
/// beside the program's literals, at most 128 of them.
pub fn thresholds(
    alloc: Global,
    program: &Program,
    graph: &Graph,
) -> Result<Vec<Vec<i64>>, AllocError>
    requires { ∥ IsSourceGraph (plain_program program.now) graph.now ∥₁ }
    ensures value { IfOk result (λ lists. lists_of lists.items ≡ thresholds_of (plain_program program.now)) }
    ensures sorted { IfOk result (λ lists. AllByRecursion Rises (lists_of lists.items)) }
{
    let literals = program_literals(alloc, program)?;
    let cells = graph.cells.get();
    let owns = own_ranges(alloc, cells)?;
    all_thresholds(alloc, literals.as_slice(), owns.as_slice(), cells)
}
