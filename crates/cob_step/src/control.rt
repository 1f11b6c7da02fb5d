//! What a run has still to do.
ghost use Rattle.std.specs.Prelude.{◌≡◌, ◌<◌, ◌^◌, ◌-◌, ◌∷◌, [], suc, true, length, List, IfOk, IfSome, MatchOption};
ghost use Rattle.std.specs.Option.{option_map_or};
ghost use Rattle.std.specs.Result.{OnOk};
ghost use Rattle.cob_program.specs.Act as act;
ghost use Rattle.cob_program.specs.ActView.{plain_program, plain_stmts};
ghost use Rattle.cob_runs.specs.Files.{Choice};
ghost use Rattle.cob_runs.specs.State.{World, Doing, rest, paras, state};
ghost use Rattle.cob_runs.specs.Steps.{body_at, entered, settled, settled_on, gone_to, number_of};
ghost use Rattle.cob_step.specs.Views.{plain_doing, plain_control};
ghost use Rattle.cob_step.specs.Settling.{Begins};

use cob_program::{Body, Program, Stmt, Turns};
use cob_runs::Outcome;
use std::alloc::{AllocError, Global};

/// Something that is still to be done.
#[derive(Clone, Copy)]
pub enum Todo<'a> {
    /// The statements left of a list.
    Rest(&'a [Stmt]),
    /// The paragraphs from one to another, by their places from 0.
    Paras {
        first: usize,
        last: usize,
    },
    /// The test of a loop, with its statement's number.
    Testing {
        number: u32,
        body: &'a Body,
        turns: &'a Turns,
    },
    /// The augmenting of a loop, with its statement's number.
    Augmenting {
        number: u32,
        body: &'a Body,
        turns: &'a Turns,
    },
}

impl Todo<'_> {
    /// The number of the statement to which it belongs, 0 where there is none.
    pub fn number(&self) -> u32
        ensures { result ≡ number_of (plain_doing self.now) }
    {
        match self {
            Todo::Rest([stmt, ..]) => stmt.number,
            Todo::Rest([]) | Todo::Paras { .. } => 0,
            Todo::Testing { number, .. } | Todo::Augmenting { number, .. } => *number,
        }
    }
}

/// What is still to be done, the front last.
#[derive(Drop)]
pub struct Control<'a> {
    pub(crate) items: Vec<Todo<'a>>,
}

// The statements of a paragraph, none where there is no such paragraph.
fn body_at(program: &Program, place: usize) -> &[Stmt]
    ensures { plain_stmts result.now ≡ body_at (plain_program program.now) place }
{
    match program.paras.get().get(place) {
        None => &[],
        Some(para) => para.body.get(),
    }
}

// The first paragraph with statements, from one to another.
fn first_entered(program: &Program, first: usize, last: usize) -> Option<usize>
    ensures value { (ds behind : List Doing) → entered (plain_program program.now)
        (suc last - first) first last ds behind
        ≡ option_map_or (λ at. rest (body_at (plain_program program.now) at) ∷ paras (suc at) last ∷ ds) result behind }
    ensures fits { IfSome result (λ at. suc at < 2 ^ 64) }
{
    for place in first..program.paras.get().len() {
        if place > last {
            return None;
        }
        if !body_at(program, place).is_empty() {
            return Some(place);
        }
    }
    None
}

impl<'a> Control<'a> {
    /// Nothing.
    pub fn new(alloc: Global) -> Control<'a>
        ensures { plain_control result ≡ [] }
    {
        Control {
            items: Vec::new(alloc),
        }
    }

    /// All paragraphs of a program, where there is something to do in them.
    pub fn of(alloc: Global, program: &'a Program) -> Result<Control<'a>, AllocError>
        ensures { IfOk result (λ control. plain_control control ≡ settled (plain_program program.now)
            (rest (body_at (plain_program program.now) 0)
            ∷ paras 1 (length (plain_program program.now).paras - 1) ∷ [])) }
    {
        let mut control = Control::new(alloc);
        control.push(Todo::Paras {
            first: 1,
            last: program.paras.get().len().saturating_sub(1),
        })?;
        control.push(Todo::Rest(body_at(program, 0)))?;
        control.settle(program)?;
        Ok(control)
    }

    /// Forgets all of it.
    pub fn clear(&mut self)
        ensures { plain_control self.new ≡ [] }
    {
        self.items.clear();
    }

    /// Something to do first.
    pub fn push(&mut self, todo: Todo<'a>) -> Result<(), AllocError>
        ensures { OnOk result (plain_control self.new ≡ plain_doing todo.entry ∷ plain_control self.old) }
    {
        self.items.push(todo)?;
        Ok(())
    }

    /// Takes what is done first.
    pub fn pop(&mut self) -> Option<Todo<'a>>
        ensures { MatchOption result ((plain_control self.old ≡ []) × (plain_control self.new ≡ []))
            (λ todo. plain_control self.old ≡ plain_doing todo ∷ plain_control self.new) }
    {
        self.items.pop()
    }

    /// The outcome of a run that has this still to do and goes on: where it is nothing, the run has ended.
    pub fn outcome(&self) -> Outcome
        ensures { (p : act.Program) (c : Choice) (w : World) → settled_on p c w (plain_control self.now)
            ≡ state w (plain_control self.now) result }
    {
        if self.items.as_slice().is_empty() {
            Outcome::Ended
        } else {
            Outcome::Going
        }
    }

    // Puts what something to do begins with in front; answers whether there is anything in it.
    fn start(&mut self, program: &'a Program, todo: Todo<'a>) -> Result<bool, AllocError>
        ensures { IfOk result (λ begun. Begins (plain_program program.now) begun (plain_doing todo.entry)
            (plain_control self.old) (plain_control self.new)) }
    {
        match todo {
            Todo::Rest(list) => self.start_list(list),
            Todo::Paras { first, last } => self.enter(program, first, last),
            Todo::Testing { .. } => self.keep(todo),
            Todo::Augmenting { .. } => self.keep(todo),
        }
    }

    // Puts something in front that is there to do.
    fn keep(&mut self, todo: Todo<'a>) -> Result<bool, AllocError>
        ensures { IfOk result (λ begun. (begun ≡ true)
            × (plain_control self.new ≡ plain_doing todo.entry ∷ plain_control self.old)) }
    {
        self.push(todo)?;
        Ok(true)
    }

    fn start_list(&mut self, list: &'a [Stmt]) -> Result<bool, AllocError>
        ensures { IfOk result (λ begun. (p : act.Program) → Begins p begun (rest (plain_stmts list.now))
            (plain_control self.old) (plain_control self.new)) }
    {
        if list.is_empty() {
            return Ok(false);
        }
        self.push(Todo::Rest(list))?;
        Ok(true)
    }

    // Begins paragraphs.
    fn enter(&mut self, program: &'a Program, first: usize, last: usize) -> Result<bool, AllocError>
        ensures { IfOk result (λ begun. Begins (plain_program program.now) begun (paras first last)
            (plain_control self.old) (plain_control self.new)) }
    {
        match first_entered(program, first, last) {
            None => Ok(false),
            Some(place) => {
                self.push(Todo::Paras {
                    first: place + 1,
                    last,
                })?;
                self.push(Todo::Rest(body_at(program, place)))?;
                Ok(true)
            }
        }
    }

    /// Drops what is done already, so that the front is something to do.
    pub fn settle(&mut self, program: &'a Program) -> Result<(), AllocError>
        ensures { OnOk result (plain_control self.new
            ≡ settled (plain_program program.now) (plain_control self.old)) }
    {
        while let Some(todo) = self.pop() {
            if self.start(program, todo)? {
                return Ok(());
            }
        }
        Ok(())
    }

    /// GO TO goes on with its paragraph, among the innermost paragraphs that are being run.
    pub fn go_to(&mut self, place: u32) -> Result<(), AllocError>
        ensures { OnOk result (plain_control self.new ≡ gone_to place (plain_control self.old)) }
    {
        while let Some(todo) = self.pop() {
            if let Todo::Paras { last, .. } = todo {
                return self.push(Todo::Paras {
                    first: place as usize,
                    last,
                });
            }
        }
        Ok(())
    }
}
