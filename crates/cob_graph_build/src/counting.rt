//! How many nodes the statements of a program have. A table tells the number for each performed range, in the order
//! in which they are known, so that nested copies take no more work than what performs them.
ghost use Rattle.std.specs.Prelude.{◌≡◌, ◌+◌, ◌-◌, ◌&&◌, nat_le, min, IfOk, OnOk};
ghost use Rattle.cob_program.specs.ActView.{plain_act, plain_body, plain_stmt, plain_when, plain_turns, plain_program, plain_stmts, plain_whens};
ghost use Rattle.cob_program.specs.LogicView.{plain_logic, plain_logics};
ghost use Rattle.cob_program.specs.Statements.{list_statements, plain_references};
ghost use Rattle.cob_runs.specs.Steps.{body_at};
ghost use Rattle.cob_graph.specs.Laid.{tests_in, tests_among, loop_nodes, how_many, one_if};
ghost use Rattle.cob_graph.specs.Limits.{most_told};
ghost use Rattle.cob_graph_build.specs.Sizes.{stmts_size, stmt_size, stmt_act_size, when_size, stmt_whens_size, stmt_body_size, range_size, stmt_fits, act_fits, body_fits, all_fit, range_fits};
ghost use Rattle.cob_graph_build.specs.Tables.{is_for, told_size, size_in, is_in, IsTable};

use cob_graph::MOST_TOLD;
use cob_program::{Act, Body, Logic, Para, Program, Stmt, Turns, When};
use std::alloc::{AllocError, Global};

/// A performed range, and how many nodes a copy of it has. More than `MOST_TOLD` count as that.
#[derive(Drop)]
pub struct Entry {
    pub first: u32,
    pub last: u32,
    pub size: u64,
}

/// More steps than it takes to put the ranges of any program in the table.
const MOST_STEPS: u64 = 1_000_000_000_000;

pub fn plus(one: u64, two: u64) -> u64
    ensures { result ≡ min (one + two) most_told }
{
    (one.min(MOST_TOLD) + two.min(MOST_TOLD)).min(MOST_TOLD)
}

// ---- the table

pub fn is_for(entry: &Entry, first: u32, last: u32) -> bool
    ensures { result ≡ is_for entry.now first last }
{
    entry.first == first && entry.last == last
}

fn told_size(table: &[Entry], first: u32, last: u32) -> Option<u64>
    ensures { result ≡ told_size table.now first last }
{
    for entry in table {
        if is_for(entry, first, last) {
            return Some(entry.size);
        }
    }
    None
}

fn size_in(table: &[Entry], first: u32, last: u32) -> u64
    ensures { result ≡ size_in table.now first last }
{
    told_size(table, first, last).unwrap_or(0)
}

pub fn is_in(table: &[Entry], first: u32, last: u32) -> bool
    ensures { result ≡ is_in table.now first last }
{
    told_size(table, first, last).is_some()
}

/// The body of a paragraph.
pub fn body_at(program: &Program, place: usize) -> &[Stmt]
    ensures { plain_stmts result.now ≡ body_at (plain_program program.now) place }
{
    match program.paras.get().get(place) {
        None => &[],
        Some(para) => para.body.get(),
    }
}

// ---- conditions

/// How many simple conditions it has.
#[cycle(tests)]
pub fn tests_in(logic: &Logic) -> u64
    ensures { result ≡ min (tests_in (plain_logic logic.now)) most_told }
{
    match logic {
        Logic::All(parts) | Logic::Any(parts) => tests_among(parts),
        Logic::Not(part) => tests_in(part),
        Logic::Test(_) => 1,
    }
}

/// How many they have together.
#[cycle(tests)]
pub fn tests_among(parts: &[Logic]) -> u64
    ensures { result ≡ min (tests_among (plain_logics parts.now)) most_told }
{
    let mut sum = 0;
    for part in parts {
        sum = plus(sum, tests_in(part));
    }
    plus(sum, 0)
}

// ---- statements

fn loop_nodes(turns: &Turns) -> u64
    ensures { result ≡ min (loop_nodes (plain_turns turns.now)) most_told }
{
    match turns {
        Turns::Once => 1,
        Turns::Times(_) => 3,
        Turns::Until { test, .. } => plus(1, tests_in(test)),
        Turns::Varying { test, .. } => plus(2, tests_in(test)),
    }
}

/// The nodes of a list of statements.
#[cycle(sizes)]
pub fn stmts_size(table: &[Entry], list: &[Stmt]) -> u64
    ensures { result ≡ min (stmts_size (size_in table.now) (plain_stmts list.now)) most_told }
{
    let mut sum = 0;
    for stmt in list {
        sum = plus(sum, stmt_size(table, stmt));
    }
    plus(sum, 0)
}

/// The nodes of a statement.
#[cycle(sizes)]
pub fn stmt_size(table: &[Entry], stmt: &Stmt) -> u64
    ensures { result ≡ min (stmt_size (size_in table.now) (plain_stmt stmt.now)) most_told }
{
    act_size(table, &stmt.act)
}

#[cycle(sizes)]
fn act_size(table: &[Entry], act: &Act) -> u64
    ensures { result ≡ min (stmt_act_size (size_in table.now) (plain_act act.now)) most_told }
{
    match act {
        Act::Arith {
            size: None,
            fine,
            ..
        } => plus(1, stmts_size(table, fine)),
        Act::Arith {
            size: Some(list),
            fine,
            ..
        } => plus(plus(1, stmts_size(table, list)), stmts_size(table, fine)),
        Act::If { test, yes, no } => plus(
            plus(tests_in(test), stmts_size(table, yes)),
            stmts_size(table, no),
        ),
        Act::Evaluate { whens, other } => plus(
            plus(1, whens_size(table, whens)),
            stmts_size(table, other),
        ),
        Act::Perform { body, turns } => plus(loop_nodes(turns), body_size(table, body)),
        Act::OpenFiles(files) => count(files.get()),
        Act::CloseFiles(files) => count(files.get()),
        Act::Read {
            into,
            end: None,
            fine,
            ..
        } => plus(plus(1, one_if(into.is_some())), stmts_size(table, fine)),
        Act::Read {
            into,
            end: Some(list),
            fine,
            ..
        } => plus(
            plus(plus(1, one_if(into.is_some())), stmts_size(table, list)),
            stmts_size(table, fine),
        ),
        Act::Write { from, .. } => plus(1, one_if(from.is_some())),
        Act::Move { .. } | Act::Go(_) | Act::Nothing | Act::Stop | Act::Show(_) => 1,
    }
}

#[cycle(sizes)]
pub fn whens_size(table: &[Entry], whens: &[When]) -> u64
    ensures { result ≡ min (stmt_whens_size (size_in table.now) (plain_whens whens.now)) most_told }
{
    let mut sum = 0;
    for when in whens {
        sum = plus(sum, when_size(table, when));
    }
    plus(sum, 0)
}

#[cycle(sizes)]
fn when_size(table: &[Entry], when: &When) -> u64
    ensures { result ≡ min (when_size (size_in table.now) (plain_when when.now)) most_told }
{
    plus(tests_among(when.tests.get()), stmts_size(table, &when.body))
}

#[cycle(sizes)]
pub fn body_size(table: &[Entry], body: &Body) -> u64
    ensures { result ≡ min (stmt_body_size (size_in table.now) (plain_body body.now)) most_told }
{
    match body {
        Body::Range { first, last } => plus(size_in(table, *first, *last), 0),
        Body::Inline(list) => stmts_size(table, list),
    }
}

fn one_if(there: bool) -> u64
    ensures { result ≡ one_if there }
{
    if there { 1 } else { 0 }
}

fn count<T>(list: &[T]) -> u64
    ensures { result ≡ min (how_many list.now) most_told }
{
    plus(list.len() as u64, 0)
}

/// The nodes of paragraphs from one up to, but not including, another.
pub fn range_size(program: &Program, table: &[Entry], from: usize, end: usize) -> u64
    ensures { result ≡ min (range_size (size_in table.now) (plain_program program.now) from (end - from)) most_told }
{
    let mut sum = 0;
    for place in from..end {
        sum = plus(sum, stmts_size(table, body_at(program, place)));
    }
    plus(sum, 0)
}

// ---- what a copy needs

fn body_fits(table: &[Entry], lo: usize, hi: usize, body: &Body) -> bool
    ensures { result ≡ body_fits (is_in table.now) lo hi (plain_body body.now) }
{
    match body {
        Body::Range { first, last } => is_in(table, *first, *last),
        Body::Inline(_) => true,
    }
}

fn is_between(place: usize, lo: usize, hi: usize) -> bool
    ensures { result ≡ (nat_le lo place && nat_le place hi) }
{
    lo <= place && place <= hi
}

fn act_fits(table: &[Entry], lo: usize, hi: usize, act: &Act) -> bool
    ensures { result ≡ act_fits (is_in table.now) lo hi (plain_act act.now) }
{
    match act {
        Act::Perform { body, .. } => body_fits(table, lo, hi, body),
        Act::Go(to) => is_between(*to as usize, lo, hi),
        _ => true,
    }
}

fn stmt_fits(table: &[Entry], lo: usize, hi: usize, stmt: &Stmt) -> bool
    ensures { result ≡ stmt_fits (is_in table.now) lo hi (plain_stmt stmt.now) }
{
    act_fits(table, lo, hi, &stmt.act)
}

/// Whether each performed range is in the table, and each GO TO goes to a paragraph from `lo` to `hi`.
fn all_fit(table: &[Entry], lo: usize, hi: usize, statements: &[&Stmt]) -> bool
    ensures { result ≡ all_fit (is_in table.now) lo hi (plain_references statements.now) }
{
    for statement in statements {
        if !stmt_fits(table, lo, hi, statement) {
            return false;
        }
    }
    true
}

fn para_fits(
    alloc: Global,
    program: &Program,
    table: &[Entry],
    lo: usize,
    hi: usize,
    place: usize,
) -> Result<bool, AllocError>
    ensures { IfOk result (λ fits. fits
        ≡ all_fit (is_in table.now) lo hi (list_statements (body_at (plain_program program.now) place))) }
{
    match program.paras.get().get(place) {
        None => Ok(true),
        Some(para) => {
            let statements = para.statements(alloc)?;
            Ok(all_fit(table, lo, hi, &statements))
        }
    }
}

/// Whether the paragraphs from one up to, but not including, another, make a copy whose GO TOs go from `lo` to `hi`.
pub fn range_fits(
    alloc: Global,
    program: &Program,
    table: &[Entry],
    lo: usize,
    hi: usize,
    from: usize,
    end: usize,
) -> Result<bool, AllocError>
    ensures { IfOk result (λ fits. fits
        ≡ range_fits (is_in table.now) lo hi (plain_program program.now) from (end - from)) }
{
    for place in from..end {
        let fits = para_fits(alloc, program, table, lo, hi, place)?;
        if !fits {
            return Ok(false);
        }
    }
    Ok(true)
}

// ---- making the table

/// Adds the range from a paragraph up to, but not including, another, where all that it performs is in the table, and
/// tells whether it is.
fn add_range(
    alloc: Global,
    program: &Program,
    table: &mut Vec<Entry>,
    first: u32,
    last: u32,
    end: usize,
) -> Result<bool, AllocError>
    requires { end ≡ last + 1 }
    ensures { OnOk result (IsTable (plain_program program.now) table.old.items →
        IsTable (plain_program program.now) table.new.items) }
{
    let from = first as usize;
    let to = last as usize;
    if !range_fits(alloc, program, table, from, to, from, end)? {
        return Ok(false);
    }
    let size = range_size(program, table, from, end);
    table.insert(0, Entry { first, last, size })?;
    Ok(true)
}

/// A range that a PERFORM names, and whether it is taken for the last time, behind what it performs.
#[derive(Drop)]
struct Range {
    first: u32,
    last: u32,
    is_last: bool,
}

/// Adds the range if it isn't there. Where it performs what isn't there yet it is left for later, under that.
fn take(
    alloc: Global,
    program: &Program,
    table: &mut Vec<Entry>,
    open: &mut Vec<Range>,
    range: Range,
) -> Result<(), AllocError>
    ensures { OnOk result (IsTable (plain_program program.now) table.old.items →
        IsTable (plain_program program.now) table.new.items) }
{
    let Range {
        first,
        last,
        is_last,
    } = range;
    if is_in(table, first, last) {
        return Ok(());
    }
    let end = last as usize + 1;
    if add_range(alloc, program, table, first, last, end)? || is_last {
        return Ok(());
    }
    open.push(Range {
        first,
        last,
        is_last: true,
    })?;
    ranges_between(alloc, open, program, first as usize, end)
}

/// Adds the ranges that are left, from the last one on, until none is. PERFORMs nest, so that there is an end to it.
fn add_all(
    alloc: Global,
    program: &Program,
    table: &mut Vec<Entry>,
    open: &mut Vec<Range>,
) -> Result<(), AllocError>
    ensures { OnOk result (IsTable (plain_program program.now) table.old.items →
        IsTable (plain_program program.now) table.new.items) }
{
    for _ in 0..MOST_STEPS {
        match open.pop() {
            None => return Ok(()),
            Some(range) => take(alloc, program, table, open, range)?,
        }
    }
    Ok(())
}

// ---- which ranges are performed

/// Adds the ranges that the statements of a paragraph perform.
fn ranges_of(alloc: Global, ranges: &mut Vec<Range>, para: &Para) -> Result<(), AllocError> {
    for statement in para.statements(alloc)?.iter() {
        if let Act::Perform {
            body: Body::Range { first, last },
            ..
        } = &statement.act
        {
            ranges.push(Range {
                first: *first,
                last: *last,
                is_last: false,
            })?;
        }
    }
    Ok(())
}

/// Those of the paragraphs from one up to, but not including, another.
fn ranges_between(
    alloc: Global,
    ranges: &mut Vec<Range>,
    program: &Program,
    from: usize,
    end: usize,
) -> Result<(), AllocError> {
    for place in from..end {
        if let Some(para) = program.paras.get().get(place) {
            ranges_of(alloc, ranges, para)?;
        }
    }
    Ok(())
}

/// Those of all paragraphs.
fn performed(alloc: Global, paras: &[Para]) -> Result<Vec<Range>, AllocError> {
    let mut ranges = Vec::new(alloc);
    for para in paras {
        ranges_of(alloc, &mut ranges, para)?;
    }
    Ok(ranges)
}

/// The performed ranges, each with its size. A range that performs itself isn't in it, nor what performs such a one.
pub fn table_of(alloc: Global, program: &Program) -> Result<Vec<Entry>, AllocError>
    ensures { IfOk result (λ table. IsTable (plain_program program.now) table.items) }
{
    let mut open = performed(alloc, program.paras.get())?;
    let mut table = Vec::new(alloc);
    add_all(alloc, program, &mut table, &mut open)?;
    Ok(table)
}
