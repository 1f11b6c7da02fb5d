//! Parts of conditions: what is read before a test is decided, and that the test has its outcome.
#![tactic(auto, using(crate::proofs::HandingLaws::handing))]

ghost use Rattle.std.specs.Prelude.{◌≡◌, ◌++◌, [], ◌∷◌, ℕ, slice_get};
ghost use Rattle.std.specs.Option.{option_map, option_copied};
ghost use Rattle.cob_program.specs.Act as act;
ghost use Rattle.cob_program.specs.ActView.{plain_act, plain_turns, plain_program};
ghost use Rattle.cob_program.specs.LogicView.{plain_test};
ghost use Rattle.cob_edge_parts.specs.Parts.{read_count, guard_count, end_reads, member_reads, test_reads, test_parts, condition_parts};
ghost use Rattle.cob_runs.specs.Effects.{is_times, tests_in_act};
ghost use Rattle.edge_parts.specs.PartView.{plain_part};
ghost use Rattle.edge_parts.specs.Pieces.{sides_reads};
ghost use Rattle.edge_parts.specs.Handing.{Takes, goes_on};

use crate::arithmetic::push_comparison;
use crate::part::EdgePart;
use crate::part_senders::push_text_side_read;
use crate::taker::{Going, PartTaker, no_parts, push_part, push_two};
use cob_data::{Layout, Pair, Sender};
use cob_program::{Act, Program, Test, Turns};
use std::ops::ControlFlow;

// ---- what is read

fn push_sides_read<'a>(
    parts: &mut PartTaker<'a>,
    layout: &Layout,
    left: &Sender,
    right: &Sender,
) -> Going
    ensures { Takes plain_part parts.old (sides_reads layout.now left.now right.now) (goes_on result) parts.new }
{
    push_text_side_read(parts, layout, left)?;
    push_text_side_read(parts, layout, right)
}

fn push_pair_read<'a>(parts: &mut PartTaker<'a>, layout: &Layout, pair: &Pair) -> Going
    ensures { Takes plain_part parts.old (sides_reads layout.now pair.now.low pair.now.high)
        (goes_on result) parts.new }
{
    push_sides_read(parts, layout, &pair.low, &pair.high)
}

fn push_ends_read<'a>(parts: &mut PartTaker<'a>, layout: &Layout, pairs: &[Pair]) -> Going
    ensures { Takes plain_part parts.old (end_reads layout.now pairs.now) (goes_on result) parts.new }
{
    for pair in pairs {
        push_pair_read(parts, layout, pair)?;
    }
    ControlFlow::Continue(())
}

// an item that is a number is read, whatever the ends are
fn push_member_read<'a>(
    parts: &mut PartTaker<'a>,
    layout: &Layout,
    item: u32,
    pairs: &[Pair],
) -> Going
    ensures { Takes plain_part parts.old (member_reads layout.now item pairs.now) (goes_on result) parts.new }
{
    if pairs.is_empty() {
        return no_parts(parts);
    }
    push_text_side_read(parts, layout, &Sender::Item(item))?;
    push_ends_read(parts, layout, pairs)
}

fn push_test_read<'a>(parts: &mut PartTaker<'a>, layout: &Layout, test: &'a Test) -> Going
    ensures { Takes plain_part parts.old (test_reads layout.now (plain_test test.now)) (goes_on result) parts.new }
{
    match test {
        Test::Number { left, right, .. } => push_comparison(parts, left, right),
        Test::Text { left, right, .. } => push_sides_read(parts, layout, left, right),
        Test::Member { item, ranges } => push_member_read(parts, layout, *item, ranges.get()),
        Test::Numeric(_) | Test::Always => no_parts(parts),
    }
}

// ---- tests

fn push_test_parts<'a>(
    parts: &mut PartTaker<'a>,
    layout: &Layout,
    holds: bool,
    test: &'a Test,
) -> Going
    ensures { Takes plain_part parts.old (test_parts layout.now holds (Some (plain_test test.now)))
        (goes_on result) parts.new }
{
    push_test_read(parts, layout, test)?;
    push_part(parts, EdgePart::Guard { test, holds })
}

fn push_test_if<'a>(
    parts: &mut PartTaker<'a>,
    layout: &Layout,
    holds: bool,
    test: Option<&'a Test>,
) -> Going
    ensures { Takes plain_part parts.old (test_parts layout.now holds
        (option_map plain_test (option_copied test.entry)))
        (goes_on result) parts.new }
{
    match test {
        None => no_parts(parts),
        Some(test) => push_test_parts(parts, layout, holds, test),
    }
}

fn are_times(turns: &Turns) -> bool
    ensures { (body : act.Body) → result ≡ is_times (act.perform body (plain_turns turns.now)) }
{
    match turns {
        Turns::Times(_) => true,
        _ => false,
    }
}

fn is_times(act: &Act) -> bool
    ensures { result ≡ is_times (plain_act act.now) }
{
    match act {
        Act::Perform { turns, .. } => are_times(turns),
        _ => false,
    }
}

fn push_turns<'a>(parts: &mut PartTaker<'a>, number: u32, left: bool) -> Going
    ensures { Takes plain_part parts.old (read_count number ∷ guard_count number left ∷ []) (goes_on result) parts.new }
{
    push_two(
        parts,
        EdgePart::ReadCount(number),
        EdgePart::GuardCount { number, left },
    )
}

/// The test of TIMES, or the simple condition of the statement that was found.
pub fn push_condition<'a>(
    parts: &mut PartTaker<'a>,
    program: &Program,
    number: u32,
    holds: bool,
    act: &Act,
    test: Option<&'a Test>,
) -> Going
    ensures { (place : ℕ)
        → option_map plain_test (option_copied test.entry) ≡ slice_get (tests_in_act (plain_act act.now)) place
        → Takes plain_part parts.old
        (condition_parts (plain_program program.now) number holds place (plain_act act.now)) (goes_on result) parts.new }
{
    if is_times(act) {
        push_turns(parts, number, holds)
    } else {
        push_test_if(parts, &program.layout, holds, test)
    }
}
