//! What is handed over one by one: to a list, or to a search for one place, which takes no memory.
#![tactic(auto, using(crate::proofs::HandingLaws::getting, crate::proofs::HandingLaws::handing))]

ghost use Rattle.std.specs.Prelude.{◌≡◌, [], ◌∷◌, IfOk};
ghost use Rattle.cob_program.specs.LogicView.{plain_test};
ghost use Rattle.edge_parts.specs.PartView.{plain_part, plain_reference};
ghost use Rattle.edge_parts.specs.Handing.{Gets, ListGets, SearchGets, Takes, found_in, goes_on, items_in, left_in};

use crate::part::EdgePart;
use cob_program::Test;
use std::alloc::AllocError;
use std::ops::ControlFlow;

/// Whether more is taken: not where there is no memory for it, or what is sought is found.
pub type Going = ControlFlow<(), ()>;

/// A search for a place: how many stand before it that weren't handed over yet, and what stands there.
#[derive(Clone, Copy)]
pub struct Search<X> {
    pub left: u32,
    pub found: Option<X>,
}

#[derive(Drop)]
pub enum Taker<X> {
    List(Vec<X>),
    Search(Search<X>),
}

pub type PartTaker<'a> = Taker<EdgePart<'a>>;

pub type TestTaker<'a> = Taker<&'a Test>;

fn push<X: Copy>(list: &mut Vec<X>, x: X) -> Going
    ensures { ListGets list.old.items x (goes_on result) list.new.items }
{
    match list.push(x) {
        Ok(_) => ControlFlow::Continue(()),
        Err(_) => ControlFlow::Break(()),
    }
}

fn pass<X: Copy>(search: &mut Search<X>, x: X) -> Going
    ensures { SearchGets search.old x (goes_on result) search.new }
{
    if search.left == 0 {
        search.found = Some(x);
        return ControlFlow::Break(());
    }
    search.left -= 1;
    ControlFlow::Continue(())
}

fn hand<X: Copy>(taker: &mut Taker<X>, x: X) -> Going
    ensures { Gets taker.old x (goes_on result) taker.new }
{
    match taker {
        Taker::List(list) => push(list, x),
        Taker::Search(search) => pass(search, x),
    }
}

/// Hands a part over.
pub fn push_part<'a>(parts: &mut PartTaker<'a>, part: EdgePart<'a>) -> Going
    ensures { Takes plain_part parts.old (plain_part part.entry ∷ []) (goes_on result) parts.new }
{
    hand(parts, part)
}

/// Hands no part over.
pub fn no_parts<'a>(parts: &mut PartTaker<'a>) -> Going
    ensures { Takes plain_part parts.old [] (goes_on result) parts.new }
{
    ControlFlow::Continue(())
}

/// Hands two parts over.
pub fn push_two<'a>(parts: &mut PartTaker<'a>, first: EdgePart<'a>, second: EdgePart<'a>) -> Going
    ensures { Takes plain_part parts.old (plain_part first.entry ∷ plain_part second.entry ∷ [])
        (goes_on result) parts.new }
{
    push_part(parts, first)?;
    push_part(parts, second)
}

/// Hands a test over.
pub fn push_test<'a>(tests: &mut TestTaker<'a>, test: &'a Test) -> Going
    ensures { Takes plain_reference tests.old (plain_test test.now ∷ []) (goes_on result) tests.new }
{
    hand(tests, test)
}

/// Hands no test over.
pub fn no_tests<'a>(tests: &mut TestTaker<'a>) -> Going
    ensures { Takes plain_reference tests.old [] (goes_on result) tests.new }
{
    ControlFlow::Continue(())
}

/// The list; a search has none.
pub fn into_list<X: Copy>(taker: Taker<X>) -> Result<Vec<X>, AllocError>
    ensures { IfOk result (λ list. list.items ≡ items_in taker) }
{
    match taker {
        Taker::List(list) => Ok(list),
        Taker::Search(_) => Err(AllocError),
    }
}

/// What a search found.
pub fn found<X: Copy>(taker: &Taker<X>) -> Option<X>
    ensures { result ≡ found_in taker.now }
{
    match taker {
        Taker::List(_) => None,
        Taker::Search(search) => search.found,
    }
}

/// How many are still to be passed by a search.
pub fn left<X: Copy>(taker: &Taker<X>) -> u32
    ensures { result ≡ left_in taker.now }
{
    match taker {
        Taker::List(_) => 0,
        Taker::Search(search) => search.left,
    }
}
