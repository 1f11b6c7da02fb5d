//! Which calls are reached from the range of which call: a search from each call, which looks at each range that it
//! finds once, from the first call in it to the last, and at none that is part of the range that has its call. Where it
//! finds one of some calls that were searched from first, it takes what is reached from there, and looks no further.
ghost use Rattle.std.specs.Prelude.{◌≡◌, ◌<◌, ◌≤◌, ℕ, false, length, map, replicate, slice_index_or, IfOk, IfSome, OnOk};
ghost use Rattle.cob_graph.specs.Listing.{plain_span, plain_call};
ghost use Rattle.cob_graph.specs.Reaching.{is_in, is_part, IsRow, AreRows, IsHull, AreHulls, IsNoted, IsLooked, IsLookedAt, AreTaken, IsFollowed};

use crate::calls::{Call, Span};
use std::alloc::{AllocError, Global};
use std::marker::Model;

impl Span {
    /// Whether a paragraph is in it.
    pub fn has(self, para: usize) -> bool
        ensures { result ≡ is_in para (plain_span self) }
    {
        self.first as usize <= para && para <= self.last as usize
    }

    /// Whether all its paragraphs are in another one.
    fn is_part(self, other: Span) -> bool
        ensures { result ≡ is_part (plain_span self) (plain_span other) }
    {
        other.first <= self.first && self.last <= other.last
    }
}

// ---- where the calls of a range stand

/// Calls from a place up to, but not including, another.
#[derive(Clone, Copy)]
pub struct Hull {
    from: usize,
    end: usize,
}

/// From the first call in a range to the last.
fn hull_of(calls: &[Call], span: Span) -> Hull
    ensures { IsHull (map plain_call calls.now) (plain_span span) result }
{
    let mut from = calls.len();
    let mut end = 0;
    for (place, call) in calls.iter().enumerate() {
        if span.has(call.para) {
            from = from.min(place);
            end = place + 1;
        }
    }
    Hull { from, end }
}

/// One for the range of each call.
pub fn hulls_of(alloc: Global, calls: &[Call]) -> Result<Vec<Hull>, AllocError>
    ensures { IfOk result (λ hulls. AreHulls (map plain_call calls.now) hulls.items) }
{
    let mut hulls = Vec::new(alloc);
    for call in calls {
        hulls.push(hull_of(calls, call.span))?;
    }
    Ok(hulls)
}

// ---- the search

/// A mark for each call: whether it is reached.
#[derive(Drop)]
pub struct Row {
    marks: Vec<bool>,
}

impl Model for Row {
    ghost use Rattle.std.specs.Prelude.{List, Bool};

    ghost Value = { List Bool };

    ghost view = { λ r. r.marks.items };
}

impl Row {
    /// Whether the call at a place is reached.
    pub fn has(&self, place: usize) -> bool
        requires { place < length self.now }
        ensures { result ≡ slice_index_or self.now place false }
    {
        self.marks[place]
    }

    /// Marks what is reached.
    fn take(&self, marks: &mut [bool])
        requires { length self.now ≡ length marks.old }
        ensures { AreTaken self.now (length marks.old) marks.old marks.new }
    {
        for place in 0..marks.len() {
            marks[place] = marks[place] || self.has(place);
        }
    }
}

/// Marks a call, which stands last of those that are to be looked at, unless it was marked before or is done with.
fn note(
    place: usize,
    is_done: bool,
    marks: &mut [bool],
    found: &mut Vec<usize>,
) -> Result<(), AllocError>
    requires { place < length marks.old }
    ensures { OnOk result (IsNoted place is_done marks.old found.old.items marks.new found.new.items) }
{
    if marks[place] {
        return Ok(());
    }
    if !is_done {
        found.push(place)?;
    }
    marks[place] = true;
    Ok(())
}

/// Marks the calls of a range.
fn look(
    calls: &[Call],
    span: Span,
    hull: Hull,
    marks: &mut [bool],
    found: &mut Vec<usize>,
) -> Result<(), AllocError>
    requires wide { length marks.old ≡ length calls.now }
    requires end { hull.end ≤ length calls.now }
    ensures { OnOk result (IsLooked (map plain_call calls.now) (plain_span span) hull.from hull.end
        marks.old found.old.items marks.new found.new.items) }
{
    for place in hull.from..hull.end {
        let call = calls[place];
        if span.has(call.para) {
            note(place, call.span.is_part(span), marks, found)?;
        }
    }
    Ok(())
}

/// Marks the calls in the range of a call.
fn look_at(
    calls: &[Call],
    hulls: &[Hull],
    place: usize,
    marks: &mut [bool],
    found: &mut Vec<usize>,
) -> Result<(), AllocError>
    requires place { place < length calls.now }
    requires wide { length marks.old ≡ length calls.now }
    requires hulls { AreHulls (map plain_call calls.now) hulls.now }
    ensures { OnOk result
        (IsLookedAt (map plain_call calls.now) place marks.old found.old.items marks.new found.new.items) }
{
    look(calls, calls[place].span, hulls[place], marks, found)?;
    Ok(())
}

/// Marks the calls in the range of a call, or all that are reached from it where they are known.
fn follow(
    calls: &[Call],
    hulls: &[Hull],
    rows: &[Option<Row>],
    place: usize,
    marks: &mut [bool],
    found: &mut Vec<usize>,
) -> Result<(), AllocError>
    requires place { place < length calls.now }
    requires wide { length marks.old ≡ length calls.now }
    requires hulls { AreHulls (map plain_call calls.now) hulls.now }
    requires rows { AreRows (map plain_call calls.now) rows.now }
    ensures { OnOk result
        (IsFollowed (map plain_call calls.now) place marks.old found.old.items marks.new found.new.items) }
{
    if let Some(Some(row)) = rows.get(place) {
        row.take(marks);
        return Ok(());
    }
    look_at(calls, hulls, place, marks, found)?;
    Ok(())
}

/// Marks the calls that are reached from a call, where none is marked yet.
fn search(
    alloc: Global,
    calls: &[Call],
    hulls: &[Hull],
    rows: &[Option<Row>],
    start: usize,
    marks: &mut [bool],
) -> Result<(), AllocError>
    requires start { start < length calls.now }
    requires hulls { AreHulls (map plain_call calls.now) hulls.now }
    requires rows { AreRows (map plain_call calls.now) rows.now }
    requires none { marks.old ≡ replicate (length calls.now) false }
    ensures { OnOk result (IsRow (map plain_call calls.now) start marks.new) }
{
    let mut found = Vec::new(alloc);
    look_at(calls, hulls, start, marks, &mut found)?;
    for next in 0..calls.len() {
        if next >= found.len() {
            return Ok(());
        }
        let place = found[next];
        follow(calls, hulls, rows, place, marks, &mut found)?;
    }
    Ok(())
}

/// The calls that the range of a call has, or reaches.
pub fn reached(
    alloc: Global,
    calls: &[Call],
    hulls: &[Hull],
    rows: &[Option<Row>],
    start: usize,
) -> Result<Row, AllocError>
    requires start { start < length calls.now }
    requires hulls { AreHulls (map plain_call calls.now) hulls.now }
    requires rows { AreRows (map plain_call calls.now) rows.now }
    ensures { IfOk result (λ row. IsRow (map plain_call calls.now) start row) }
{
    let mut marks = Vec::from_elem(alloc, false, calls.len())?;
    search(alloc, calls, hulls, rows, start, marks.as_mut_slice())?;
    Ok(Row { marks })
}

/// Rows are kept of no more calls than this.
const MOST_ROWS: usize = 64;

/// The row of a call, where it is one of those whose rows are kept, which stand as far apart as each other.
fn row_if_kept(
    alloc: Global,
    calls: &[Call],
    hulls: &[Hull],
    rows: &[Option<Row>],
    place: usize,
) -> Result<Option<Row>, AllocError>
    requires place { place < length calls.now }
    requires hulls { AreHulls (map plain_call calls.now) hulls.now }
    requires rows { AreRows (map plain_call calls.now) rows.now }
    ensures { IfOk result (λ row. IfSome row (IsRow (map plain_call calls.now) place)) }
{
    if place % (calls.len() / MOST_ROWS + 1) != 0 {
        return Ok(None);
    }
    let row = reached(alloc, calls, hulls, rows, place)?;
    Ok(Some(row))
}

/// The rows that are kept.
pub fn rows_of(
    alloc: Global,
    calls: &[Call],
    hulls: &[Hull],
) -> Result<Vec<Option<Row>>, AllocError>
    requires { AreHulls (map plain_call calls.now) hulls.now }
    ensures { IfOk result (λ rows. AreRows (map plain_call calls.now) rows.items) }
{
    let mut rows = Vec::new(alloc);
    for place in 0..calls.len() {
        rows.push(row_if_kept(alloc, calls, hulls, &rows, place)?)?;
    }
    Ok(rows)
}
