//! PERFORM (ISO 1989:1985, "The PERFORM statement").
ghost use Rattle.std.specs.Prelude.{◌≡◌, ◌∷◌, length, if◌then◌else◌};
ghost use Rattle.std.specs.Result.{OnOk};
ghost use Rattle.cob_program.specs.Act as act;
ghost use Rattle.cob_program.specs.ActView.{plain_program, plain_body, plain_turns};
ghost use Rattle.cob_runs.specs.Files.{Choice};
ghost use Rattle.cob_runs.specs.State.{testing, augmenting};
ghost use Rattle.cob_runs.specs.Steps.{body_of, loop_begun, is_left, turn, goes_on, tested, augmented};
ghost use Rattle.cob_world.specs.Becoming.{Becomes};
ghost use Rattle.cob_world.specs.Doing.{CanTurn};
ghost use Rattle.cob_world.specs.Needs.{IsNumber};
ghost use Rattle.cob_step.specs.Views.{plain_doing, plain_control, plain_run};

use crate::control::{Control, Todo};
use crate::run::Run;
use cob_data::Sender;
use cob_program::{Body, Turns};
use cob_runs::Outcome;
use cob_store::MoveEnd;
use cob_tree::Kind;
use cob_world::World;
use std::alloc::{AllocError, Global};

// Whether a turn is left.
fn is_left(count: Option<i64>) -> bool
    ensures { result ≡ is_left count }
{
    match count {
        None => false,
        Some(left) => left > 0,
    }
}

// What a loop's body is, as something to do.
fn body_of<'a>(body: &'a Body) -> Todo<'a>
    ensures { plain_doing result ≡ body_of (plain_body body.now) }
{
    match body {
        Body::Range { first, last } => Todo::Paras {
            first: *first as usize,
            last: *last as usize,
        },
        Body::Inline(list) => Todo::Rest(list),
    }
}

// Whether a loop goes on.
fn goes_on(world: &World, number: u32, turns: &Turns) -> Result<bool, Kind>
    requires able { CanTurn world.now.program.layout (plain_turns turns.now) }
    ensures { (c : Choice) → result ≡ goes_on (plain_program world.now.program) c number (plain_turns turns.now)
        world.now.world }
{
    match turns {
        Turns::Once => Ok(false),
        Turns::Times(_) => Ok(is_left(world.count_of(number))),
        Turns::Until { test, .. } => Ok(!world.holds(test)?),
        Turns::Varying { test, .. } => Ok(!world.holds(test)?),
    }
}

impl<'a> Control<'a> {
    fn push_test(&mut self, number: u32, body: &'a Body, turns: &'a Turns) -> Result<(), AllocError>
        ensures { OnOk result (plain_control self.new
            ≡ testing number (plain_body body.now) (plain_turns turns.now) ∷ plain_control self.old) }
    {
        self.push(Todo::Testing {
            number,
            body,
            turns,
        })
    }

    fn push_augmenting(
        &mut self,
        number: u32,
        body: &'a Body,
        turns: &'a Turns,
    ) -> Result<(), AllocError>
        ensures { OnOk result (plain_control self.new
            ≡ augmenting number (plain_body body.now) (plain_turns turns.now) ∷ plain_control self.old) }
    {
        self.push(Todo::Augmenting {
            number,
            body,
            turns,
        })
    }

    // A loop's test, and its body before that where the test stands behind it.
    fn push_loop(
        &mut self,
        after: bool,
        number: u32,
        body: &'a Body,
        turns: &'a Turns,
    ) -> Result<(), AllocError>
        ensures { OnOk result (plain_control self.new ≡ (if after
            then body_of (plain_body body.now)
            ∷ testing number (plain_body body.now) (plain_turns turns.now) ∷ plain_control self.old
            else testing number (plain_body body.now) (plain_turns turns.now) ∷ plain_control self.old)) }
    {
        self.push_test(number, body, turns)?;
        self.push_if(after, body_of(body))
    }

    // The body, where the test stands behind it.
    fn push_if(&mut self, after: bool, body: Todo<'a>) -> Result<(), AllocError>
        ensures { OnOk result (plain_control self.new
            ≡ (if after then plain_doing body.entry ∷ plain_control self.old else plain_control self.old)) }
    {
        if after { self.push(body) } else { Ok(()) }
    }

    // What a loop does where it goes on.
    fn push_turn(&mut self, number: u32, body: &'a Body, turns: &'a Turns) -> Result<(), AllocError>
        ensures { (p : act.Program) (c : Choice) → OnOk result (plain_control self.new
            ≡ turn p c number (plain_body body.now) (plain_turns turns.now) (plain_control self.old)) }
    {
        match turns {
            Turns::Once => Ok(()),
            Turns::Times(_) => self.push_body_first(number, body, turns),
            Turns::Until { .. } => self.push_loop(true, number, body, turns),
            Turns::Varying { after: false, .. } => self.push_body_first(number, body, turns),
            Turns::Varying { after: true, .. } => self.push_augmenting_first(number, body, turns),
        }
    }

    fn push_augmenting_first(
        &mut self,
        number: u32,
        body: &'a Body,
        turns: &'a Turns,
    ) -> Result<(), AllocError>
        ensures { OnOk result (plain_control self.new
            ≡ augmenting number (plain_body body.now) (plain_turns turns.now)
            ∷ testing number (plain_body body.now) (plain_turns turns.now) ∷ plain_control self.old) }
    {
        self.push_test(number, body, turns)?;
        self.push_augmenting(number, body, turns)
    }

    fn push_body_first(
        &mut self,
        number: u32,
        body: &'a Body,
        turns: &'a Turns,
    ) -> Result<(), AllocError>
        ensures { OnOk result (plain_control self.new
            ≡ body_of (plain_body body.now)
            ∷ augmenting number (plain_body body.now) (plain_turns turns.now)
            ∷ testing number (plain_body body.now) (plain_turns turns.now) ∷ plain_control self.old) }
    {
        self.push_augmenting_first(number, body, turns)?;
        self.push(body_of(body))
    }
}

impl<'a> Run<'a> {
    /// PERFORM: what is set first, and what is done first.
    pub fn do_perform(
        &mut self,
        alloc: Global,
        number: u32,
        body: &'a Body,
        turns: &'a Turns,
    ) -> Result<(), MoveEnd>
        requires able { CanTurn self.old.world.program.layout (plain_turns turns.now) }
        requires going { self.old.outcome ≡ Outcome.Going }
        ensures done { Becomes
            (loop_begun (plain_program self.old.world.program) None number (plain_body body.now)
            (plain_turns turns.now)
            self.old.world.world (plain_control self.old.control))
            result (plain_run self.old) (plain_run self.new) }
        ensures kept { self.new.world.program ≡ self.old.world.program }
    {
        match turns {
            Turns::Once => Ok(self.control.push(body_of(body))?),
            Turns::Times(count) => self.begin_times(number, body, turns, count),
            Turns::Until { after, .. } => {
                Ok(self.control.push_loop(*after, number, body, turns)?)
            }
            Turns::Varying {
                after,
                item,
                start,
                ..
            } => {
                self.world.set_varied(alloc, *item, start)?;
                Ok(self.control.push_loop(*after, number, body, turns)?)
            }
        }
    }

    // The count of turns, and then the test.
    fn begin_times(
        &mut self,
        number: u32,
        body: &'a Body,
        turns: &'a Turns,
        count: &Sender,
    ) -> Result<(), MoveEnd>
        requires number { IsNumber self.old.world.program.layout count.now }
        requires turns { plain_turns turns.now ≡ act.times count.now }
        requires going { self.old.outcome ≡ Outcome.Going }
        ensures done { Becomes
            (loop_begun (plain_program self.old.world.program) None number (plain_body body.now)
            (plain_turns turns.now)
            self.old.world.world (plain_control self.old.control))
            result (plain_run self.old) (plain_run self.new) }
        ensures kept { self.new.world.program ≡ self.old.world.program }
    {
        match self.world.set_count(number, count) {
            Err(kind) => Err(MoveEnd::Fault(kind)),
            Ok(()) => Ok(self.control.push_test(number, body, turns)?),
        }
    }

    /// The test of a loop.
    pub fn test_loop(
        &mut self,
        number: u32,
        body: &'a Body,
        turns: &'a Turns,
    ) -> Result<(), MoveEnd>
        requires able { CanTurn self.old.world.program.layout (plain_turns turns.now) }
        requires going { self.old.outcome ≡ Outcome.Going }
        ensures done { (c : Choice) → Becomes
            (tested (plain_program self.old.world.program) c number (plain_body body.now) (plain_turns turns.now)
            self.old.world.world (plain_control self.old.control))
            result (plain_run self.old) (plain_run self.new) }
        ensures kept { self.new.world ≡ self.old.world }
    {
        match goes_on(&self.world, number, turns) {
            Err(kind) => Err(MoveEnd::Fault(kind)),
            Ok(true) => Ok(self.control.push_turn(number, body, turns)?),
            Ok(false) => Ok(()),
        }
    }

    /// What is done behind a turn of a loop.
    pub fn augment_loop(
        &mut self,
        number: u32,
        body: &'a Body,
        turns: &'a Turns,
    ) -> Result<(), MoveEnd>
        requires able { CanTurn self.old.world.program.layout (plain_turns turns.now) }
        requires going { self.old.outcome ≡ Outcome.Going }
        ensures done { (c : Choice) → Becomes
            (augmented (plain_program self.old.world.program) c number (plain_body body.now) (plain_turns turns.now)
            self.old.world.world (plain_control self.old.control))
            result (plain_run self.old) (plain_run self.new) }
        ensures kept { self.new.world.program ≡ self.old.world.program }
    {
        match turns {
            Turns::Once => Ok(()),
            Turns::Until { .. } => Ok(()),
            Turns::Times(_) => Ok(self.world.count_down(number)?),
            Turns::Varying {
                after,
                item,
                by,
                ..
            } => match self.world.augment(*item, by) {
                Err(kind) => Err(MoveEnd::Fault(kind)),
                Ok(()) => Ok(self.control.push_if(*after, body_of(body))?),
            },
        }
    }
}
