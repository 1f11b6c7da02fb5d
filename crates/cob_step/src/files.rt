//! OPEN, CLOSE, READ and WRITE, and what a status does to a run (ISO 1989:1985, "Sequential I-O").
ghost use Rattle.std.specs.Prelude.{◌≡◌, length, IfSome};
ghost use Rattle.std.specs.Result.{OnOk};
ghost use Rattle.cob_program.specs.Act as act;
ghost use Rattle.cob_program.specs.ActView.{plain_program, plain_stmts, plain_phrase};
ghost use Rattle.cob_runs.specs.Contents.{form_at};
ghost use Rattle.cob_runs.specs.Acts.{open_one, close_one};
ghost use Rattle.cob_runs.specs.Steps.{outcome_of, each_from, behind_read, done};
ghost use Rattle.cob_store.specs.WellFormed.{CanMove};
ghost use Rattle.cob_world.specs.Becoming.{Becomes};
ghost use Rattle.cob_step.specs.Views.{plain_control, plain_run};

use crate::control::Todo;
use crate::run::Run;
use cob_data::Sender;
use cob_program::{Opening, Stmt};
use cob_runs::Outcome;
use cob_store::MoveEnd;
use cob_tree::Bytes;
use cob_world::{World, is_fine};
use std::alloc::{AllocError, Global};

// A status that nothing handles ends the run.
fn outcome_of(number: u32, handled: bool, status: u8) -> Outcome
    ensures { result ≡ outcome_of number handled status }
{
    if is_fine(status) || handled {
        Outcome::Going
    } else {
        Outcome::IoStop {
            status,
            statement: number,
        }
    }
}

// OPEN of files, until one ends the run.
fn open_each(alloc: Global, number: u32, files: &[Opening], world: &mut World) -> Outcome
    ensures done { (world.new.world, result)
        ≡ each_from world.old.program.layout (open_one world.old.program.layout) (λ o. o.file) number files.now
        world.old.world }
    ensures kept { world.new.program ≡ world.old.program }
{
    match files {
        [] => Outcome::Going,
        [file, rest @ ..] => {
            let status = world.open_one(alloc, *file);
            match outcome_of(number, world.has_status(file.file as usize), status) {
                Outcome::Going => open_each(alloc, number, rest, world),
                outcome => outcome,
            }
        }
    }
}

// CLOSE of files, until one ends the run.
fn close_each(number: u32, files: &[u32], world: &mut World) -> Outcome
    ensures done { (world.new.world, result)
        ≡ each_from world.old.program.layout (close_one world.old.program.layout) (λ f. f) number files.now
        world.old.world }
    ensures kept { world.new.program ≡ world.old.program }
{
    match files {
        [] => Outcome::Going,
        [file, rest @ ..] => {
            let status = world.close_one(*file);
            match outcome_of(number, world.has_status(*file as usize), status) {
                Outcome::Going => close_each(number, rest, world),
                outcome => outcome,
            }
        }
    }
}

impl<'a> Run<'a> {
    pub fn do_open(&mut self, alloc: Global, number: u32, files: &[Opening]) -> Result<(), MoveEnd>
        ensures done { Becomes
            (done (plain_program self.old.world.program) None number (act.open_files files.now) self.old.world.world
            (plain_control self.old.control))
            result (plain_run self.old) (plain_run self.new) }
        ensures kept { self.new.world.program ≡ self.old.world.program }
    {
        self.outcome = open_each(alloc, number, files, &mut self.world);
        Ok(())
    }

    pub fn do_close(&mut self, number: u32, files: &[u32]) -> Result<(), MoveEnd>
        ensures done { Becomes
            (done (plain_program self.old.world.program) None number (act.close_files files.now) self.old.world.world
            (plain_control self.old.control))
            result (plain_run self.old) (plain_run self.new) }
        ensures kept { self.new.world.program ≡ self.old.world.program }
    {
        self.outcome = close_each(number, files, &mut self.world);
        Ok(())
    }

    pub fn do_read(
        &mut self,
        choice: &Option<Bytes>,
        number: u32,
        file: u32,
        into: Option<u32>,
        end: &'a Option<Vec<Stmt>>,
        fine: &'a [Stmt],
    ) -> Result<(), MoveEnd>
        requires going { self.old.outcome ≡ Outcome.Going }
        ensures done { Becomes
            (done (plain_program self.old.world.program) choice.now number
            (act.read file into (plain_phrase end.now) (plain_stmts fine.now))
            self.old.world.world (plain_control self.old.control))
            result (plain_run self.old) (plain_run self.new) }
        ensures kept { self.new.world.program ≡ self.old.world.program }
    {
        let has = self.world.has_status(file as usize);
        let status = self.world.read_one(choice, file, into);
        Ok(self.go_behind_read(number, has, end, fine, status)?)
    }

    // What a READ's status does.
    fn go_behind_read(
        &mut self,
        number: u32,
        has: bool,
        end: &'a Option<Vec<Stmt>>,
        fine: &'a [Stmt],
        status: u8,
    ) -> Result<(), AllocError>
        requires going { self.old.outcome ≡ Outcome.Going }
        ensures done { OnOk result (plain_run self.new
            ≡ behind_read number has (plain_phrase end.now) (plain_stmts fine.now) (plain_control self.old.control)
            (self.old.world.world, status)) }
        ensures kept { self.new.world ≡ self.old.world }
    {
        if is_fine(status) {
            return self.control.push(Todo::Rest(fine));
        }
        match end {
            Some(list) if status == 10 => self.control.push(Todo::Rest(list)),
            _ => {
                self.outcome = outcome_of(number, has, status);
                Ok(())
            }
        }
    }

    pub fn do_write(
        &mut self,
        alloc: Global,
        choice: &Option<Bytes>,
        number: u32,
        rec: u32,
        from: &Option<Sender>,
    ) -> Result<(), MoveEnd>
        requires able { IfSome from.now (λ x. CanMove self.old.world.program.layout x
            (form_at self.old.world.program.layout rec)) }
        requires going { self.old.outcome ≡ Outcome.Going }
        ensures done { Becomes
            (done (plain_program self.old.world.program) choice.now number (act.write rec from.now)
            self.old.world.world
            (plain_control self.old.control))
            result (plain_run self.old) (plain_run self.new) }
        ensures kept { self.new.world.program ≡ self.old.world.program }
    {
        match self.world.file_of(rec) {
            None => Ok(()),
            Some(file) => {
                self.world.move_if(alloc, from, rec)?;
                let status = self.world.write_one(alloc, choice, file, rec)?;
                self.outcome = outcome_of(number, self.world.has_status(file), status);
                Ok(())
            }
        }
    }
}
