//! Parts of edges, by what the statement does.
#![tactic(auto, using(crate::proofs::HandingLaws::handing))]

ghost use Rattle.std.specs.Prelude.{◌≡◌, ◌++◌, [], ◌∷◌, ℕ, Bool, slice_get};
ghost use Rattle.cob_program.specs.Act as plain;
ghost use Rattle.std.specs.Option.{option_map, option_copied};
ghost use Rattle.cob_program.specs.LogicView.{plain_test};
ghost use Rattle.cob_program.specs.ActView.{plain_act, plain_stmt, plain_turns, plain_program};
ghost use Rattle.cob_edge_parts.specs.Parts.{read_count, count_down, assign_parts, compute_parts, condition_parts, count_parts, call_parts, read_parts, bad_parts, parts_of};
ghost use Rattle.edge_parts.specs.PartView.{plain_part, edge_parts, act_test, edge_test};
ghost use Rattle.edge_parts.specs.Pieces.{file_read, times_parts};
ghost use Rattle.edge_parts.specs.Handing.{Takes, goes_on};

use crate::arithmetic::{push_arithmetic, push_augmenting};
use crate::conditions::push_condition;
use crate::files::{push_closing, push_file_at, push_opening, push_write};
use crate::moves::{push_from, push_into, push_move};
use crate::part::EdgePart;
use crate::part_senders::push_number_read;
use crate::taker::{Going, PartTaker, no_parts, push_part, push_two};
use crate::tests_of::test_at;
use cob_data::Sender;
use cob_program::{Act, Program, Stmt, Test, Turns};
use cob_runs::Action;

// ---- what is moved

fn push_start<'a>(parts: &mut PartTaker<'a>, program: &Program, turns: &'a Turns) -> Going
    ensures { (number : ℕ) (body : plain.Body) →
        Takes plain_part parts.old (assign_parts (plain_program program.now) number (plain.perform body (plain_turns turns.now)))
        (goes_on result) parts.new }
{
    match turns {
        Turns::Varying { item, start, .. } => push_move(parts, &program.layout, start, &[*item]),
        _ => no_parts(parts),
    }
}

fn push_assigning<'a>(parts: &mut PartTaker<'a>, program: &Program, act: &'a Act) -> Going
    ensures { (number : ℕ) →
        Takes plain_part parts.old (assign_parts (plain_program program.now) number (plain_act act.now))
        (goes_on result) parts.new }
{
    match act {
        Act::Move { from, to } => push_move(parts, &program.layout, from, to.get()),
        Act::Perform { turns, .. } => push_start(parts, program, turns),
        Act::Read { into, .. } => push_into(parts, &program.layout, *into),
        Act::Write { rec, from } => push_from(parts, &program.layout, *rec, from),
        _ => no_parts(parts),
    }
}

// ---- arithmetic

fn push_step<'a>(parts: &mut PartTaker<'a>, turns: &'a Turns) -> Going
    ensures { (p : plain.Program) (number : ℕ) (body : plain.Body) →
        Takes plain_part parts.old (compute_parts p number (plain.perform body (plain_turns turns.now)))
        (goes_on result) parts.new }
{
    match turns {
        Turns::Varying { item, by, .. } => push_augmenting(parts, *item, by),
        _ => no_parts(parts),
    }
}

fn push_computing<'a>(parts: &mut PartTaker<'a>, program: &Program, act: &'a Act) -> Going
    ensures { (number : ℕ) →
        Takes plain_part parts.old (compute_parts (plain_program program.now) number (plain_act act.now))
        (goes_on result) parts.new }
{
    match act {
        Act::Arith {
            common,
            targets,
            remainder,
            ..
        } => push_arithmetic(parts, &program.layout, common, targets.get(), *remainder),
        Act::Perform { turns, .. } => push_step(parts, turns),
        _ => no_parts(parts),
    }
}

// ---- counters

fn push_count<'a>(parts: &mut PartTaker<'a>, number: u32, count: &'a Sender) -> Going
    ensures { Takes plain_part parts.old (times_parts number count.now) (goes_on result) parts.new }
{
    push_number_read(parts, count)?;
    push_part(parts, EdgePart::SetCount { number, count })
}

fn push_turns<'a>(parts: &mut PartTaker<'a>, number: u32, turns: &'a Turns) -> Going
    ensures { (p : plain.Program) (body : plain.Body) →
        Takes plain_part parts.old (count_parts p number (plain.perform body (plain_turns turns.now)))
        (goes_on result) parts.new }
{
    match turns {
        Turns::Times(count) => push_count(parts, number, count),
        _ => no_parts(parts),
    }
}

fn push_counting<'a>(parts: &mut PartTaker<'a>, number: u32, act: &'a Act) -> Going
    ensures { (p : plain.Program) →
        Takes plain_part parts.old (count_parts p number (plain_act act.now))
        (goes_on result) parts.new }
{
    match act {
        Act::Perform { turns, .. } => push_turns(parts, number, turns),
        _ => no_parts(parts),
    }
}

fn push_counting_down<'a>(parts: &mut PartTaker<'a>, number: u32) -> Going
    ensures { Takes plain_part parts.old (read_count number ∷ count_down number ∷ []) (goes_on result) parts.new }
{
    push_two(
        parts,
        EdgePart::ReadCount(number),
        EdgePart::CountDown(number),
    )
}

// ---- files

fn push_call<'a>(
    parts: &mut PartTaker<'a>,
    program: &Program,
    fine: bool,
    place: u32,
    act: &Act,
) -> Going
    ensures { (number : ℕ) →
        Takes plain_part parts.old (call_parts (plain_program program.now) number fine place (plain_act act.now))
        (goes_on result) parts.new }
{
    match act {
        Act::OpenFiles(openings) => push_opening(parts, &program.layout, openings.get(), place),
        Act::CloseFiles(files) => push_closing(parts, &program.layout, files.get(), place),
        Act::Write { rec, .. } => push_write(parts, &program.layout, fine, *rec),
        _ => no_parts(parts),
    }
}

// The file that a READ reads.
fn file_read(act: &Act) -> Option<u32>
    ensures { result ≡ file_read (plain_act act.now) }
{
    match act {
        Act::Read { file, .. } => Some(*file),
        _ => None,
    }
}

fn push_reading<'a>(parts: &mut PartTaker<'a>, program: &Program, act: &Act) -> Going
    ensures { (number : ℕ) →
        Takes plain_part parts.old (read_parts (plain_program program.now) number (plain_act act.now))
        (goes_on result) parts.new }
{
    match file_read(act) {
        Some(file) => push_file_at(parts, &program.layout, true, file as usize),
        None => no_parts(parts),
    }
}

fn push_bad_call<'a>(parts: &mut PartTaker<'a>, program: &Program, place: u32, act: &Act) -> Going
    ensures { (number : ℕ) →
        Takes plain_part parts.old (bad_parts (plain_program program.now) number place (plain_act act.now))
        (goes_on result) parts.new }
{
    match file_read(act) {
        Some(file) => push_file_at(parts, &program.layout, true, file as usize),
        None => push_call(parts, program, false, place, act),
    }
}

// ---- edges

fn push_act<'a>(
    parts: &mut PartTaker<'a>,
    program: &Program,
    number: u32,
    act: &'a Act,
    action: Action,
    test: Option<&'a Test>,
) -> Going
    ensures { option_map plain_test (option_copied test.entry) ≡ act_test (plain_act act.now) action →
        Takes plain_part parts.old (parts_of (plain_program program.now) number (plain_act act.now) action)
        (goes_on result) parts.new }
{
    match action {
        Action::Skip | Action::Show => no_parts(parts),
        Action::Assign => push_assigning(parts, program, act),
        Action::Done | Action::Size => push_computing(parts, program, act),
        Action::True(_) => push_condition(parts, program, number, true, act, test),
        Action::False(_) => push_condition(parts, program, number, false, act, test),
        Action::SetCount => push_counting(parts, number, act),
        Action::Down => push_counting_down(parts, number),
        Action::Open(place) | Action::Close(place) => push_call(parts, program, true, place, act),
        Action::Take | Action::AtEnd => push_reading(parts, program, act),
        Action::Bad(place) => push_bad_call(parts, program, place, act),
        Action::Write => push_call(parts, program, true, 0, act),
    }
}

/// The simple condition that an edge of a statement goes by, looked for from the first.
pub fn test_of(statement: &Stmt, action: Action) -> Option<&Test>
    ensures { option_map plain_test (option_copied result) ≡ edge_test (plain_stmt statement.now) action }
{
    match action {
        Action::True(place) | Action::False(place) => test_at(&statement.act, place),
        _ => None,
    }
}

/// The parts of an edge of a statement, where `test` is the simple condition that it goes by, if it does.
pub fn push_edge<'a>(
    parts: &mut PartTaker<'a>,
    program: &Program,
    statement: &'a Stmt,
    action: Action,
    test: Option<&'a Test>,
) -> Going
    ensures { option_map plain_test (option_copied test.entry) ≡ edge_test (plain_stmt statement.now) action →
        Takes plain_part parts.old (edge_parts (plain_program program.now) (plain_stmt statement.now) action)
        (goes_on result) parts.new }
{
    push_act(
        parts,
        program,
        statement.number,
        &statement.act,
        action,
        test,
    )
}
