//! How PERFORMs of ranges nest, and where GO TOs go (ISO 1989:1985, "The PERFORM statement").
ghost use Rattle.std.specs.Prelude.{◌≡◌, ◌<◌, ◌⊎◌, ◌&&◌, ℕ, Err, false, List, length, map, slice_index_or, IfOk};
ghost use Rattle.cob_data.specs.declared.end.Rule.{Rule};
ghost use Rattle.cob_data.specs.declared.end.Which.{Which};
ghost use Rattle.cob_graph.specs.declared.end.FlowEnd.TheVariants as end;
ghost use Rattle.cob_program.specs.ActView.{plain_program};
ghost use Rattle.cob_graph.specs.Nesting as spec;
ghost use Rattle.cob_graph.specs.Nesting.{IsNested, IsOutside};
ghost use Rattle.cob_graph.specs.Listing.{plain_span, plain_call, plain_jump, plain_found};
ghost use Rattle.cob_graph.specs.Reaching.{IsRow, AreRows, AreHulls};
ghost use Rattle.cob_graph.specs.Covering.{Covers};
ghost use Rattle.cob_graph.specs.Broken.{least_below, is_crossing, is_leaving, cycle_at, crossing_at, crossings, leaving_at, leavings, reversed_at, told, IsFirst, answer_of};

use crate::calls::{Call, Found, Jump, Span};
use crate::distinct::distinct;
use crate::end::FlowEnd;
use crate::reach::{Hull, Row, hulls_of, reached, rows_of};
use cob_data::Rule;
use cob_program::Program;
use rule_order::{lesser, noted};
use std::alloc::{AllocError, Global};

impl Span {
    /// Whether they share a paragraph, unless the first is within the other and has another exit.
    fn crosses(self, other: Span) -> bool
        ensures { result ≡ is_crossing (plain_span self) (plain_span other) }
    {
        self.first.max(other.first) <= self.last.min(other.last)
            && !(other.first <= self.first && self.last < other.last)
    }
}

impl Jump {
    /// Whether it goes out of a range.
    fn leaves(self, span: Span) -> bool
        ensures { result ≡ is_leaving (plain_jump self) (plain_span span) }
    {
        span.has(self.para) && !span.has(self.to as usize)
    }
}

impl Row {
    /// Whether the call at a place is reached, and its range crosses the one that reaches it.
    fn reaches_across(&self, place: usize, span: Span, outer: Span) -> bool
        requires { place < length self.now }
        ensures { result ≡ (slice_index_or self.now place false && is_crossing (plain_span span) (plain_span outer)) }
    {
        self.has(place) && span.crosses(outer)
    }
}

/// The first call of those that are reached from a performed range whose range crosses that one.
fn crossings(calls: &[Call], row: &Row, outer: usize) -> Option<u32>
    requires row { IsRow (map plain_call calls.now) outer row.now }
    requires outer { outer < length calls.now }
    ensures { result ≡ crossings (map plain_call calls.now) outer }
{
    let span = calls[outer].span;
    let mut least = None;
    for (place, call) in calls.iter().enumerate() {
        let crosses = row.reaches_across(place, call.span, span);
        least = noted(least, crosses, call.line);
    }
    least
}

/// The first call whose range performs itself, and the first whose range crosses a performed one that reaches it.
#[derive(Drop)]
struct Reached {
    cycle: Option<u32>,
    crossing: Option<u32>,
}

/// Those that the rows tell, one row after another.
fn first_reached(
    alloc: Global,
    calls: &[Call],
    hulls: &[Hull],
    rows: &[Option<Row>],
) -> Result<Reached, AllocError>
    requires hulls { AreHulls (map plain_call calls.now) hulls.now }
    requires rows { AreRows (map plain_call calls.now) rows.now }
    ensures cycle { IfOk result (λ r. r.cycle ≡ least_below (cycle_at (map plain_call calls.now)) (length calls.now)) }
    ensures crossing { IfOk result
        (λ r. r.crossing ≡ least_below (crossings (map plain_call calls.now)) (length calls.now)) }
{
    let mut cycle = None;
    let mut crossing = None;
    for outer in 0..calls.len() {
        let row = reached(alloc, calls, hulls, rows, outer)?;
        cycle = noted(cycle, row.has(outer), calls[outer].line);
        crossing = lesser(crossing, crossings(calls, &row, outer));
    }
    Ok(Reached { cycle, crossing })
}

fn leavings(calls: &[Call], jumps: &[Jump], outer: usize) -> Option<u32>
    requires { outer < length calls.now }
    ensures { result ≡ leavings (map plain_call calls.now) (map plain_jump jumps.now) outer }
{
    let span = calls[outer].span;
    let mut least = None;
    for jump in jumps {
        least = noted(least, jump.leaves(span), jump.line);
    }
    least
}

/// The first GO TO out of a performed range.
fn first_leaving(calls: &[Call], jumps: &[Jump]) -> Option<u32>
    ensures { result ≡ least_below (leavings (map plain_call calls.now) (map plain_jump jumps.now)) (length calls.now) }
{
    let mut least = None;
    for outer in 0..calls.len() {
        least = lesser(least, leavings(calls, jumps, outer));
    }
    least
}

/// The first call whose range ends before it begins.
fn first_reversed(calls: &[Call]) -> Option<u32>
    ensures { result ≡ least_below (reversed_at (map plain_call calls.now)) (length calls.now) }
{
    let mut least = None;
    for call in calls {
        least = noted(least, call.span.last < call.span.first, call.line);
    }
    least
}

fn told(
    cycle: Option<u32>,
    crossing: Option<u32>,
    leaving: Option<u32>,
    reversed: Option<u32>,
) -> Option<(Rule, u32)>
    ensures { result ≡ told cycle crossing leaving reversed }
{
    match (cycle, crossing, leaving, reversed) {
        (Some(line), _, _, _) => Some((Rule::N1, line)),
        (None, Some(line), _, _) => Some((Rule::N2, line)),
        (None, None, Some(line), _) => Some((Rule::N3, line)),
        (None, None, None, Some(line)) => Some((Rule::N4, line)),
        (None, None, None, None) => None,
    }
}

/// The first rule that is broken, with its first line: by calls that tell as much as all do.
fn first_broken(
    alloc: Global,
    calls: &[Call],
    jumps: &[Jump],
) -> Result<Option<(Rule, u32)>, AllocError>
    ensures { IfOk result (λ told. (all : List spec.Call) → Covers all (map plain_call calls.now)
        → IsFirst (record { calls = all; jumps = map plain_jump jumps.now }) told) }
{
    let hulls = hulls_of(alloc, calls)?;
    let rows = rows_of(alloc, calls, &hulls)?;
    let reached = first_reached(alloc, calls, &hulls, &rows)?;
    let leaving = first_leaving(calls, jumps);
    let reversed = first_reversed(calls);
    Ok(told(reached.cycle, reached.crossing, leaving, reversed))
}

fn answer(broken: Option<(Rule, u32)>) -> Result<(), FlowEnd>
    ensures { result ≡ answer_of broken }
{
    match broken {
        None => Ok(()),
        Some((rule, line)) => Err(FlowEnd::Outside { rule, line }),
    }
}

/// Tells whether PERFORMs nest and GO TOs stay inside, or else which rule is broken first, and where.
pub fn nested(alloc: Global, program: &Program) -> Result<(), FlowEnd>
    ensures kept { IfOk result (λ _. IsNested (plain_program program.now)) }
    ensures outside { (rule : Rule) (line : ℕ) → result ≡ Err (end.Outside rule line)
        → IsOutside (plain_program program.now) rule line }
    ensures limit { (which : Which) (count : ℕ) → result ≡ Err (end.Limit which count) → ⊥ }
    ensures exact { (rule : Rule) (line : ℕ) → IsOutside (plain_program program.now) rule line
        → (result ≡ Err (end.Outside rule line)) ⊎ (result ≡ Err end.Memory) }
{
    let Ok(found) = Found::of(alloc, program) else {
        return Err(FlowEnd::Memory);
    };
    let Ok(calls) = distinct(alloc, &found.calls) else {
        return Err(FlowEnd::Memory);
    };
    let Ok(broken) = first_broken(alloc, &calls, &found.jumps) else {
        return Err(FlowEnd::Memory);
    };
    answer(broken)
}
