//! Where control goes: the first node of what follows, by the number at which it begins and what follows that.
ghost use Rattle.std.specs.Prelude.{◌≡◌, ◌+◌, ◌-◌, ℕ, IfOk};
ghost use Rattle.cob_program.specs.Act as act;
ghost use Rattle.cob_program.specs.ActView.{plain_stmt, plain_program, plain_body, plain_turns, plain_stmts, plain_phrase, plain_when, plain_whens};
ghost use Rattle.cob_program.specs.LogicView.{plain_logics};
ghost use Rattle.cob_runs.specs.Acts.{has_status};
ghost use Rattle.cob_graph.specs.Laid.{LaidParas, LaidBody, list_size, size, phrase_size, whens_size, body_size, tests_in, tests_among};
ghost use Rattle.cob_graph.specs.Places.{first_of_list, first_of_paras, first_of_para, first_of_body, first_of_all, first_of_any, first_of_whens, body_at, tests_at, augment_at, body_next};
ghost use Rattle.cob_graph.specs.Nodes.{Copied, bad_to, end_to, list_nodes};
ghost use Rattle.cob_graph_build.specs.Tables.{lay_stmt, lay_list, lay_phrase, lay_whens, lay_body, lay_paras};
ghost use Rattle.cob_graph_build.specs.Growing.{plan, copies_of, copied_of};
ghost use Rattle.cob_graph_build.specs.Ways.{when_tests, when_body};

use crate::counting::{
    body_at, body_size, is_in, stmt_size, stmts_size, tests_among, tests_in, whens_size,
};
use crate::numbers::{exact, less, sum_of};
use crate::ways::{Way, way_of_all, way_of_any};
use crate::within::Within;
use cob_data::Layout;
use cob_program::{Body, Logic, Program, Stmt, Turns, When};
use std::alloc::AllocError;

// ---- how many nodes

impl<'a> Within<'a> {
    /// The nodes of a statement.
    pub fn stmt_nodes(&self, stmt: &Stmt) -> Result<u32, AllocError>
        ensures { IfOk result (λ n. n ≡ size (lay_stmt (plan self.now) (copies_of self.now) (plain_stmt stmt.now))) }
    {
        let nodes = exact(stmt_size(self.table, stmt))?;
        Ok(nodes)
    }

    /// The nodes of statements.
    pub fn list_nodes(&self, list: &[Stmt]) -> Result<u32, AllocError>
        ensures { IfOk result (λ n. n ≡ list_size (lay_list (plan self.now) (copies_of self.now)
            (plain_stmts list.now))) }
    {
        let nodes = exact(stmts_size(self.table, list))?;
        Ok(nodes)
    }

    /// The nodes of statements that may be left out.
    pub fn phrase_nodes(&self, phrase: &Option<Vec<Stmt>>) -> Result<u32, AllocError>
        ensures { IfOk result (λ n. n ≡ phrase_size (lay_phrase (plan self.now) (copies_of self.now)
            (plain_phrase phrase.now))) }
    {
        match phrase {
            None => Ok(0),
            Some(list) => self.list_nodes(list),
        }
    }

    /// The nodes of WHENs.
    pub fn whens_nodes(&self, whens: &[When]) -> Result<u32, AllocError>
        ensures { IfOk result (λ n. n ≡ whens_size (lay_whens (plan self.now) (copies_of self.now)
            (plain_whens whens.now))) }
    {
        let nodes = exact(whens_size(self.table, whens))?;
        Ok(nodes)
    }

    /// The nodes of what a PERFORM does.
    pub fn body_nodes(&self, body: &Body) -> Result<u32, AllocError>
        ensures { IfOk result (λ n. n ≡ body_size (lay_body (plan self.now) (copies_of self.now) (plain_body body.now))) }
    {
        let nodes = exact(body_size(self.table, body))?;
        Ok(nodes)
    }

    /// The first node of a paragraph.
    pub fn para_node(&self, place: u32) -> Result<u32, AllocError>
        ensures { IfOk result (λ n. n ≡ (copied_of self.now).para place) }
    {
        let mut skip = (place as usize).saturating_sub(self.first);
        let mut at = self.at;
        for from in self.first..self.end {
            if skip == 0 {
                return Ok(first_of_range(self.program, from, self.end, at, self.next));
            }
            skip -= 1;
            at = sum_of(at, self.list_nodes(body_at(self.program, from))?)?;
        }
        Ok(self.next)
    }

    /// The first node of what a PERFORM does.
    pub fn first_of_body(&self, body: &Body, at: u32, next: u32) -> u32
        ensures { result ≡ first_of_body
            (lay_body (plan self.now) (copies_of self.now) (plain_body body.now)) at next }
    {
        match body {
            Body::Range { first, last } => self.first_of_copy(*first, *last, at, next),
            Body::Inline(list) => self.first_of_own(list, at, next),
        }
    }

    fn first_of_own(&self, list: &[Stmt], at: u32, next: u32) -> u32
        ensures { result ≡ first_of_list (lay_list (plan self.now) (copies_of self.now) (plain_stmts list.now)) at next }
    {
        first_of_list(list, at, next)
    }

    fn first_of_copy(&self, first: u32, last: u32, at: u32, next: u32) -> u32
        ensures { result ≡ first_of_paras (copies_of self.now first last) at next }
    {
        if is_in(self.table, first, last) {
            first_of_range(self.program, first as usize, last as usize + 1, at, next)
        } else {
            next
        }
    }

    /// The first node of WHENs.
    pub fn first_of_whens(
        &self,
        whens: &[When],
        at: u32,
        other: u32,
        next: u32,
        left: u32,
    ) -> Result<u32, AllocError>
        ensures { IfOk result (λ n. n ≡ first_of_whens
            (lay_whens (plan self.now) (copies_of self.now) (plain_whens whens.now)) at other next) }
    {
        match whens {
            [] => Ok(other),
            [when, rest @ ..] => {
                let left = less(left)?;
                let tests = tests_of(when);
                match way_of_any(tests, at, left)? {
                    Way::At(first) => Ok(first),
                    Way::Held => {
                        let list_at = behind_tests(tests, at)?;
                        Ok(first_of_list(body_of(when), list_at, next))
                    }
                    Way::Failed => {
                        let list_at = behind_tests(tests, at)?;
                        let rest_at = sum_of(list_at, self.list_nodes(body_of(when))?)?;
                        self.first_of_whens(rest, rest_at, other, next, left)
                    }
                }
            }
        }
    }

    /// Where a status goes that nothing handles.
    pub fn bad_to(&self, file: u32, next: u32) -> u32
        ensures { result ≡ bad_to (copied_of self.now) 0 file next }
    {
        if has_status(&self.program.layout, file) {
            next
        } else {
            self.final_node
        }
    }

    /// Where the end of a file goes.
    pub fn end_to(&self, end: &Option<Vec<Stmt>>, file: u32, at: u32, next: u32) -> u32
        ensures { result ≡ end_to (copied_of self.now) 0
            (lay_phrase (plan self.now) (copies_of self.now) (plain_phrase end.now)) file at next }
    {
        match end {
            None => self.bad_to(file, next),
            Some(list) => first_of_list(list, at, next),
        }
    }
}

fn tests_of(when: &When) -> &[Logic]
    ensures { plain_logics result.now ≡ when_tests (plain_when when.now) }
{
    when.tests.get()
}

fn body_of(when: &When) -> &[Stmt]
    ensures { plain_stmts result.now ≡ when_body (plain_when when.now) }
{
    &when.body
}

/// What stands behind so many tests.
fn behind_tests(tests: &[Logic], at: u32) -> Result<u32, AllocError>
    ensures { IfOk result (λ n. n ≡ at + tests_among (plain_logics tests.now)) }
{
    sum_of(at, exact(tests_among(tests))?)
}

/// Whether a file has FILE STATUS.
fn has_status(layout: &Layout, file: u32) -> bool
    ensures { result ≡ has_status layout.now file }
{
    match layout.files.get().get(file as usize) {
        None => false,
        Some(file) => file.status.is_some(),
    }
}

/// The first node of a list of statements.
pub fn first_of_list(list: &[Stmt], at: u32, next: u32) -> u32
    ensures { (p : act.Program) (copies : ℕ → ℕ → LaidParas) →
        result ≡ first_of_list (lay_list p copies (plain_stmts list.now)) at next }
{
    match list {
        [] => next,
        _ => at,
    }
}

/// The first node of paragraphs from one up to, but not including, another.
pub fn first_of_range(program: &Program, from: usize, end: usize, at: u32, next: u32) -> u32
    ensures { (copies : ℕ → ℕ → LaidParas) → result ≡ first_of_paras
        (lay_paras (plain_program program.now) copies from (end - from)) at next }
{
    for place in from..end {
        if !body_at(program, place).is_empty() {
            return at;
        }
    }
    next
}

/// Where the statements of a paragraph go on: at the first node of the paragraphs behind it, which begin at another
/// number. Where there are no statements nothing goes on, and no node is looked for.
pub fn node_behind(within: &Within, list: &[Stmt], from: usize, at: u32) -> u32
    ensures { (c : Copied) (copies : ℕ → ℕ → LaidParas) (begin : ℕ) →
        list_nodes c (lay_list (plan within.now) copies (plain_stmts list.now)) begin result
        ≡ list_nodes c (lay_list (plan within.now) copies (plain_stmts list.now)) begin (first_of_paras
        (lay_paras (plan within.now) copies from (within.now.end - from)) at within.now.next) }
{
    if list.is_empty() {
        return at;
    }
    first_of_range(within.program, from, within.end, at, within.next)
}

// ---- conditions

/// The node at which conditions begin that are all to hold.
pub fn first_of_all(
    parts: &[Logic],
    at: u32,
    yes: u32,
    no: u32,
    left: u32,
) -> Result<u32, AllocError>
    ensures { IfOk result (λ n. n ≡ first_of_all (plain_logics parts.now) at yes no) }
{
    Ok(way_of_all(parts, at, left)?.led(yes, no))
}

/// The node at which conditions begin of which one is to hold.
pub fn first_of_any(
    parts: &[Logic],
    at: u32,
    yes: u32,
    no: u32,
    left: u32,
) -> Result<u32, AllocError>
    ensures { IfOk result (λ n. n ≡ first_of_any (plain_logics parts.now) at yes no) }
{
    Ok(way_of_any(parts, at, left)?.led(yes, no))
}

// ---- loops

/// Where the body of a loop begins.
pub fn inner_at(turns: &Turns, at: u32) -> Result<u32, AllocError>
    ensures { IfOk result (λ n. n ≡ body_at (plain_turns turns.now) at) }
{
    match turns {
        Turns::Once | Turns::Until { after: true, .. } | Turns::Varying { after: true, .. } => {
            sum_of(at, 1)
        }
        Turns::Times(_) => sum_of(at, 2),
        Turns::Until { after: false, test }
        | Turns::Varying {
            after: false,
            test,
            ..
        } => { sum_of(sum_of(at, 1)?, exact(tests_in(test))?) }
    }
}

/// The first test node of a loop whose body has so many nodes.
pub fn tests_at(turns: &Turns, at: u32, size: u32) -> Result<u32, AllocError>
    ensures { (body : LaidBody) → size ≡ body_size body →
        IfOk result (λ n. n ≡ tests_at (plain_turns turns.now) at body) }
{
    match turns {
        Turns::Once => Ok(at),
        Turns::Times(_) | Turns::Until { after: false, .. } | Turns::Varying { after: false, .. } =>
            sum_of(at, 1),
        Turns::Until { after: true, .. } | Turns::Varying { after: true, .. } => {
            sum_of(sum_of(at, 1)?, size)
        }
    }
}

/// The node that augments, or counts down.
pub fn augment_at(turns: &Turns, at: u32, size: u32) -> Result<u32, AllocError>
    ensures { (body : LaidBody) → size ≡ body_size body →
        IfOk result (λ n. n ≡ augment_at (plain_turns turns.now) at body) }
{
    match turns {
        Turns::Once | Turns::Until { .. } => Ok(at),
        Turns::Times(_) => sum_of(sum_of(at, 2)?, size),
        Turns::Varying {
            after: false,
            test,
            ..
        } => sum_of(sum_of(sum_of(at, 1)?, exact(tests_in(test))?)?, size),
        Turns::Varying {
            after: true,
            test,
            ..
        } => sum_of(sum_of(sum_of(at, 1)?, size)?, exact(tests_in(test))?),
    }
}

/// Where the body of a loop goes on.
pub fn body_next(turns: &Turns, at: u32, size: u32, next: u32) -> Result<u32, AllocError>
    ensures { (body : LaidBody) → size ≡ body_size body →
        IfOk result (λ n. n ≡ body_next (plain_turns turns.now) at body next) }
{
    match turns {
        Turns::Once => Ok(next),
        Turns::Times(_) | Turns::Varying { after: false, .. } => augment_at(turns, at, size),
        Turns::Until { .. } | Turns::Varying { after: true, .. } => tests_at(turns, at, size),
    }
}
