//! The works of all edges of a program's graph.
ghost use Rattle.std.specs.Prelude.{◌≡◌, ◌<◌, length, slice_index_or, option_copied, IfOk, None};
ghost use Rattle.cob_program.specs.ActView.{plain_program};
ghost use Rattle.graph_runs.specs.Places.{no_edge};
ghost use Rattle.graph_runs.specs.Sources.{IsSourceGraph};
ghost use Rattle.cell_layer.specs.Forgetting.{AreMarks};
ghost use Rattle.cell_layer.specs.Works.{IsWorkOf, ArePlaces};

use crate::layer::sharing::Sharing;
use crate::row::beside::marks_of_cells;
use cob_graph::Graph;
use cob_program::Program;
use edge_parts::EdgeWork;
use std::alloc::{AllocError, Global};

/// What each edge of a program's graph does. Edges of copies of a statement that do the same share a work.
#[derive(Drop)]
pub struct EdgeWorks<'a> {
    pub program: &'a Program,
    pub graph: &'a Graph,
    /// For each cell the cells that have bytes of its item.
    pub marks: Vec<Vec<bool>>,
    works: Vec<EdgeWork<'a>>,
    // for each edge the place of its work, if the program has the statement that it leaves
    places: Vec<Option<usize>>,
    pub ghost marked: { AreMarks (plain_program program.now) graph.now.cells marks.items },
    ghost source: { ∥ IsSourceGraph (plain_program program.now) graph.now ∥₁ },
    ghost placed: { ∥ ArePlaces (plain_program program.now) graph.now works.items places.items ∥₁ },
}

impl<'a> EdgeWorks<'a> {
    /// The works of the edges of a source's graph.
    pub fn new(
        alloc: Global,
        program: &'a Program,
        graph: &'a Graph,
    ) -> Result<EdgeWorks<'a>, AllocError>
        requires source { ∥ IsSourceGraph (plain_program program.now) graph.now ∥₁ }
        ensures program { IfOk result (λ works. works.program.now ≡ program.now) }
        ensures graph { IfOk result (λ works. works.graph.now ≡ graph.now) }
    {
        let marks = marks_of_cells(alloc, program, graph.cells.get())?;
        let mut sharing = Sharing::new(alloc, program, graph)?;
        let mut places = Vec::new(alloc);
        for edge in graph.edges.get() {
            let place = sharing.place_of(alloc, *edge)?;
            places.push(place)?;
        }
        Ok(EdgeWorks {
            program,
            graph,
            marks,
            works: sharing.works,
            places,
        })
    }

    // the place of the work of an edge
    fn place(&self, at: usize) -> Option<usize>
        requires { at < length self.now.graph.now.edges }
        ensures { result ≡ slice_index_or self.now.places.items at None }
    {
        self.places.as_slice()[at]
    }

    /// What the edge does whose number, counted from 0, this is; none, if the program has no statement that it leaves.
    pub fn at(&self, at: usize) -> Option<&EdgeWork<'a>>
        requires { at < length self.now.graph.now.edges }
        ensures { ∥ IsWorkOf (plain_program self.now.program.now) self.now.graph.now
            (slice_index_or self.now.graph.now.edges at no_edge) (option_copied result) ∥₁ }
    {
        match self.place(at) {
            Some(place) => self.works.as_slice().get(place),
            None => None,
        }
    }
}
