//! Works in the making, shared by edges that do the same.
ghost use Rattle.std.specs.Prelude.{◌≡◌, IsTrue, IfOk, IfSome};
ghost use Rattle.std.specs.List.{All};
ghost use Rattle.cob_program.specs.ActView.{plain_program};
ghost use Rattle.cob_program.specs.Statements.{program_statements};
ghost use Rattle.graph_runs.specs.Sources.{IsSourceGraph};
ghost use Rattle.cell_laws.specs.Layer.{left};
ghost use Rattle.cell_layer.specs.NumberedStatements.{number_in};
ghost use Rattle.cell_layer.specs.Statements.{stated_in};
ghost use Rattle.cell_layer.specs.Works.{statement_of, IsOfProgram, IsPlaceOf, StandsAt, HasMore};

use crate::layer::guesses::Guesses;
use crate::layer::statements::{left_number, number_of, statement_with, tests_of};
use cob_graph::{Edge, Graph};
use cob_program::Program;
use cob_runs::Action;
use edge_parts::{EdgeWork, StatementTests};
use std::alloc::{AllocError, Global};

// whether a work is that of the statement with the number, by the action
fn is_of(work: &EdgeWork, number: u32, action: Action) -> bool
    ensures { IsTrue result → (number_in (statement_of work.now) ≡ number) × (work.now.action ≡ action) }
{
    number_of(work.statement) == number && work.action == action
}

/// Works of a program's statements.
#[derive(Drop)]
pub(crate) struct Sharing<'a> {
    program: &'a Program,
    graph: &'a Graph,
    statements: Vec<StatementTests<'a>>,
    guesses: Guesses,
    pub works: Vec<EdgeWork<'a>>,
    ghost source: { ∥ IsSourceGraph (plain_program program.now) graph.now ∥₁ },
    ghost listed: { ∥ stated_in statements.items ≡ program_statements (plain_program program.now) ∥₁ },
    ghost found: { ∥ All (IsOfProgram (plain_program program.now)) works.items ∥₁ },
}

impl<'a> Sharing<'a> {
    /// No works.
    pub fn new(
        alloc: Global,
        program: &'a Program,
        graph: &'a Graph,
    ) -> Result<Sharing<'a>, AllocError>
        requires source { ∥ IsSourceGraph (plain_program program.now) graph.now ∥₁ }
        ensures program { IfOk result (λ sharing. sharing.program.now ≡ program.now) }
        ensures graph { IfOk result (λ sharing. sharing.graph.now ≡ graph.now) }
    {
        let listed = program.statements(alloc)?;
        let statements = tests_of(alloc, listed.as_slice())?;
        let guesses = Guesses::new(alloc, statements.len())?;
        Ok(Sharing {
            program,
            graph,
            statements,
            guesses,
            works: Vec::new(alloc),
        })
    }

    // the guessed place, if the work of the statement with the number stands there
    fn shared(&self, number: u32, action: Action) -> Option<usize>
        ensures { IfSome result (StandsAt self.now.works.items number action) }
    {
        let place = self.guesses.place(number)?;
        let work = self.works.as_slice().get(place)?;
        if is_of(work, number, action) {
            Some(place)
        } else {
            None
        }
    }

    // takes a work of the statement with the number in
    fn add(&mut self, number: u32, work: EdgeWork<'a>) -> Result<usize, AllocError>
        requires of_program { ∥ IsOfProgram (plain_program self.old.program.now) work ∥₁ }
        ensures program { self.new.program.now ≡ self.old.program.now }
        ensures graph { self.new.graph.now ≡ self.old.graph.now }
        ensures more { IfOk result (λ _. HasMore self.old.works.items self.new.works.items) }
        ensures place { IfOk result (StandsAt self.new.works.items (number_in (statement_of work.entry)) work.entry.action) }
        ensures found { ∥ All (IsOfProgram (plain_program self.old.program.now)) self.new.works.items ∥₁ }
    {
        let place = self.works.len();
        self.works.push(work)?;
        self.guesses.add(number, place)?;
        Ok(place)
    }

    /// The place of an edge's work, if the program has the statement that it leaves.
    pub fn place_of(&mut self, alloc: Global, edge: Edge) -> Result<Option<usize>, AllocError>
        ensures program { self.new.program.now ≡ self.old.program.now }
        ensures graph { self.new.graph.now ≡ self.old.graph.now }
        ensures more { IfOk result (λ _. HasMore self.old.works.items self.new.works.items) }
        ensures place { IfOk result (λ place.
            ∥ IsPlaceOf (plain_program self.old.program.now) self.old.graph.now self.new.works.items edge place ∥₁) }
    {
        let number = left_number(self.graph, edge);
        if let Some(place) = self.shared(number, edge.action) {
            self.guesses.note(number, place);
            return Ok(Some(place));
        }
        match statement_with(self.statements.as_slice(), number) {
            Some(tests) => {
                let work = EdgeWork::among(alloc, self.program, tests, edge.action)?;
                Ok(Some(self.add(number, work)?))
            }
            None => Ok(None),
        }
    }
}
