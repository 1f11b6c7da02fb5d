//! Where a work may stand that an edge can share.
use std::alloc::{AllocError, Global};

/// Works of one statement follow each other in a ring, in the order in which they first came, so that the edges of a
/// copy of the statement come upon them in turn.
#[derive(Drop)]
pub(crate) struct Guesses {
    // for each statement, by its number, the place of the work that an edge had last; or of none
    latest: Vec<usize>,
    // for each work the place of the next one of its statement
    next: Vec<usize>,
}

impl Guesses {
    /// No works, and so many statements.
    pub fn new(alloc: Global, statements: usize) -> Result<Guesses, AllocError> {
        let latest = vec![in alloc; usize::MAX; statements.saturating_add(1)]?;
        Ok(Guesses {
            latest,
            next: Vec::new(alloc),
        })
    }

    // the place of the work of the statement that an edge had last
    fn latest(&self, statement: u32) -> Option<usize> {
        self.latest.as_slice().get(statement as usize).copied()
    }

    /// The place where the next work of the statement is expected.
    pub fn place(&self, statement: u32) -> Option<usize> {
        self.next.as_slice().get(self.latest(statement)?).copied()
    }

    /// An edge has this work of the statement.
    pub fn note(&mut self, statement: u32, place: usize) {
        if let Some(latest) = self.latest.as_mut_slice().get_mut(statement as usize) {
            *latest = place;
        }
    }

    // what follows a place, if there is a work
    fn follow(&mut self, latest: Option<usize>, place: usize) {
        if let Some(latest) = latest
            && let Some(next) = self.next.as_mut_slice().get_mut(latest)
        {
            *next = place;
        }
    }

    /// The work at this place is a new one of the statement, behind the one that an edge had last.
    pub fn add(&mut self, statement: u32, place: usize) -> Result<(), AllocError> {
        let next = self.place(statement).unwrap_or(place);
        self.follow(self.latest(statement), place);
        self.next.push(next)?;
        self.note(statement, place);
        Ok(())
    }
}
