//! A run, from its beginning and step by step.
ghost use Rattle.std.specs.Prelude.{◌≡◌, ◌∷◌, [], length, map, IfOk};
ghost use Rattle.std.specs.Option.{option_map};
ghost use Rattle.std.specs.Result.{OnOk};
ghost use Rattle.cob_program.specs.ActView.{plain_program};
ghost use Rattle.cob_runs.specs.Files.{Choice};
ghost use Rattle.cob_runs.specs.Runs.{begin};
ghost use Rattle.cob_runs.specs.State.{state};
ghost use Rattle.cob_runs.specs.Steps.{step, step_on, settled_state, front_done, number_of};
ghost use Rattle.cob_store.specs.WellFormed.{HasWellFormedItems};
ghost use Rattle.cob_world.specs.Becoming.{Becomes};
ghost use Rattle.cob_world.specs.Doing.{CanDoProgram};
ghost use Rattle.cob_step.specs.Ready.{CanDoNext, IsReady};
ghost use Rattle.cob_step.specs.Views.{plain_doing, plain_control, plain_run};

use crate::control::{Control, Todo};
use cob_program::Program;
use cob_runs::Outcome;
use cob_store::MoveEnd;
use cob_tree::{Bytes, Kind};
use cob_world::{Contents, World};
use std::alloc::{AllocError, Global};

/// What a run works on, what it has still to do, and its outcome.
#[derive(Drop)]
pub struct Run<'a> {
    pub(crate) world: World<'a>,
    pub(crate) control: Control<'a>,
    pub(crate) outcome: Outcome,
}

/// The beginning of a run, with spaces in storage where there is no VALUE.
pub fn begin<'a>(
    alloc: Global,
    program: &'a Program,
    contents: Contents,
) -> Result<Run<'a>, AllocError>
    requires sound { HasWellFormedItems program.now.layout }
    requires able { CanDoProgram (plain_program program.now) }
    ensures begun { IfOk result (λ run. plain_run run
        ≡ begin (plain_program program.now) (map (option_map (λ v. v.items)) contents.items) []) }
    ensures ready { IfOk result (λ run. IsReady (plain_program program.now) (plain_run run)) }
    ensures its { IfOk result (λ run. run.world.program ≡ program.now) }
{
    let world = World::first(alloc, program, contents)?;
    let control = Control::of(alloc, program)?;
    let outcome = control.outcome();
    Ok(Run {
        world,
        control,
        outcome,
    })
}

/// One step of a run. What is given stands in a record area that a statement leaves undefined, if it has the area's
/// length. Where memory runs out nothing is said of the run but its program.
pub fn step(alloc: Global, choice: &Option<Bytes>, run: &mut Run) -> Result<(), AllocError>
    requires able { CanDoProgram (plain_program run.old.world.program) }
    requires ready { IsReady (plain_program run.old.world.program) (plain_run run.old) }
    ensures done { OnOk result (plain_run run.new
        ≡ step (plain_program run.old.world.program) choice.now (plain_run run.old)) }
    ensures ready { OnOk result (IsReady (plain_program run.old.world.program) (plain_run run.new)) }
    ensures kept { run.new.world.program ≡ run.old.world.program }
{
    match run.outcome {
        Outcome::Going => run.go_on(alloc, choice),
        Outcome::Ended | Outcome::IoStop { .. } | Outcome::Fault { .. } => Ok(()),
    }
}

impl<'a> Run<'a> {
    /// What the run works on.
    pub fn world(&self) -> &World<'a>
        ensures { result.now ≡ self.now.world }
    {
        &self.world
    }

    /// How the run stands.
    pub fn outcome(&self) -> Outcome
        ensures { result ≡ self.now.outcome }
    {
        self.outcome
    }

    fn go_on(&mut self, alloc: Global, choice: &Option<Bytes>) -> Result<(), AllocError>
        requires ready { IsReady (plain_program self.old.world.program) (plain_run self.old) }
        requires going { self.old.outcome ≡ Outcome.Going }
        ensures done { OnOk result (plain_run self.new
            ≡ step_on (plain_program self.old.world.program) choice.now (plain_run self.old)
            (plain_control self.old.control)) }
        ensures kept { self.new.world.program ≡ self.old.world.program }
    {
        match self.control.pop() {
            None => {
                self.outcome = Outcome::Ended;
                Ok(())
            }
            Some(front) => match self.do_front(alloc, choice, front) {
                Ok(()) => self.settle(),
                Err(MoveEnd::Fault(kind)) => self.fail(front, kind),
                Err(MoveEnd::Memory) => Err(AllocError),
            },
        }
    }

    // A step that met a fault changes nothing but the outcome.
    fn fail(&mut self, front: Todo<'a>, kind: Kind) -> Result<(), AllocError>
        ensures done { OnOk result (plain_run self.new
            ≡ state self.old.world.world (plain_doing front.entry ∷ plain_control self.old.control)
            (Outcome.Fault kind (number_of (plain_doing front.entry)))) }
        ensures kept { self.new.world ≡ self.old.world }
    {
        let statement = front.number();
        self.control.push(front)?;
        self.outcome = Outcome::Fault { kind, statement };
        Ok(())
    }

    fn settle(&mut self) -> Result<(), AllocError>
        ensures done { (c : Choice) → OnOk result (plain_run self.new
            ≡ settled_state (plain_program self.old.world.program) c (plain_run self.old)) }
        ensures kept { self.new.world ≡ self.old.world }
    {
        match self.outcome {
            Outcome::Going => {
                self.control.settle(self.world.program())?;
                self.outcome = self.control.outcome();
                Ok(())
            }
            Outcome::Ended | Outcome::IoStop { .. } | Outcome::Fault { .. } => Ok(()),
        }
    }

    fn do_front(
        &mut self,
        alloc: Global,
        choice: &Option<Bytes>,
        front: Todo<'a>,
    ) -> Result<(), MoveEnd>
        requires able { CanDoNext self.old.world.program.layout (plain_doing front) }
        requires going { self.old.outcome ≡ Outcome.Going }
        ensures done { Becomes
            (front_done (plain_program self.old.world.program) choice.now (plain_doing front.entry)
            self.old.world.world
            (plain_control self.old.control))
            result (plain_run self.old) (plain_run self.new) }
        ensures kept { self.new.world.program ≡ self.old.world.program }
    {
        match front {
            Todo::Rest(list) => self.do_list(alloc, choice, list),
            Todo::Paras { .. } => Ok(()),
            Todo::Testing {
                number,
                body,
                turns,
            } => self.test_loop(number, body, turns),
            Todo::Augmenting {
                number,
                body,
                turns,
            } => self.augment_loop(number, body, turns),
        }
    }
}
