//! The nodes of statements, with copies of what they perform.
ghost use Rattle.std.specs.Prelude.{◌≡◌, ◌==◌, ◌-◌, ℕ, ◌∷◌, ◌++◌, [], true, is_some, OnOk, IfOk};
ghost use Rattle.cob_program.specs.ActView.{plain_stmt, plain_act, plain_body, plain_turns, plain_stmts, plain_phrase, plain_whens};
ghost use Rattle.cob_program.specs.LogicView.{plain_logic};
ghost use Rattle.cob_runs.specs.declared.action.Action.TheVariants as action;
ghost use Rattle.cob_graph.specs.Laid.{LaidBody, computing, deciding, choosing, performing, reading, copy, one_if, body_size};
ghost use Rattle.cob_graph.specs.Places.{first_of_list, first_of_body, body_at, body_next};
ghost use Rattle.cob_graph.specs.Nodes.{node, size_edges, open_nodes, close_nodes, read_nodes, write_nodes, loop_before, loop_behind, nodes, list_nodes, phrase_nodes, whens_nodes, body_nodes, paras_nodes, act_nodes};
ghost use Rattle.std.specs.Option.{option_map_or};
ghost use Rattle.std.specs.List.{list_any};
ghost use Rattle.cob_runs.specs.Acts.{file_from};
ghost use Rattle.cob_graph_build.specs.Tables.{lay_stmt, lay_list, lay_phrase, lay_act, lay_whens, lay_body, lay_paras};
ghost use Rattle.cob_graph_build.specs.Growing.{grown, plan, copies_of, paras_of, copied_of};

use crate::copies::{rest_in, sites_with};
use crate::counting::{body_at, tests_among, tests_in};
use crate::laying::{Fork, Laying};
use crate::numbers::{exact, less, sum_of};
use crate::places::{body_next, first_of_list, inner_at, node_behind};
use crate::within::Within;
use cob_data::Layout;
use cob_program::{Act, Body, Logic, Opening, Stmt, Turns, When};
use cob_runs::Action;
use std::alloc::AllocError;

/// The file of a record, 0 where it is none's.
fn file_of(layout: &Layout, record_place: u32) -> Result<u32, AllocError>
    ensures { IfOk result (λ file. file ≡ option_map_or (λ f. f) (file_from layout.now 0 layout.now.files record_place) 0) }
{
    let mut place: u32 = 0;
    for file in layout.files.get() {
        if has_record(file.records.get(), record_place) {
            return Ok(place);
        }
        place = sum_of(place, 1)?;
    }
    Ok(0)
}

fn has_record(records: &[u32], record_place: u32) -> bool
    ensures { result ≡ list_any (λ r. r == record_place) records.now }
{
    records.iter().any(|r| *r == record_place)
}

fn one_if(there: bool) -> u32
    ensures { result ≡ one_if there }
{
    if there { 1 } else { 0 }
}

impl Laying {
    // ---- statements without lists

    /// One node with one way on.
    fn lay_one(
        &mut self,
        within: &Within,
        number: u32,
        action: Action,
        to: u32,
    ) -> Result<(), AllocError>
        ensures { OnOk result (self.new ≡ grown self.old (node (copied_of within.now) number true ((action, to) ∷ []) ∷ [])) }
    {
        self.add(within, number, true, &[(action, to)])
    }

    fn lay_opens(
        &mut self,
        within: &Within,
        number: u32,
        starts: bool,
        files: &[Opening],
        k: u32,
        at: u32,
        next: u32,
    ) -> Result<(), AllocError>
        ensures { OnOk result (self.new ≡ grown self.old (open_nodes (copied_of within.now) number starts files.now k at next)) }
    {
        match files {
            [] => Ok(()),
            [file, rest @ ..] => {
                let behind = sum_of(at, 1)?;
                let fine = if rest.is_empty() { next } else { behind };
                let bad = within.bad_to(file.file, fine);
                let out = [(Action::Open(k), fine), (Action::Bad(k), bad)];
                self.add(within, number, starts, &out)?;
                self.lay_opens(within, number, false, rest, sum_of(k, 1)?, behind, next)
            }
        }
    }

    fn lay_closes(
        &mut self,
        within: &Within,
        number: u32,
        starts: bool,
        files: &[u32],
        k: u32,
        at: u32,
        next: u32,
    ) -> Result<(), AllocError>
        ensures { OnOk result (self.new ≡ grown self.old (close_nodes (copied_of within.now) number starts files.now k at next)) }
    {
        match files {
            [] => Ok(()),
            [file, rest @ ..] => {
                let behind = sum_of(at, 1)?;
                let fine = if rest.is_empty() { next } else { behind };
                let bad = within.bad_to(*file, fine);
                let out = [(Action::Close(k), fine), (Action::Bad(k), bad)];
                self.add(within, number, starts, &out)?;
                self.lay_closes(within, number, false, rest, sum_of(k, 1)?, behind, next)
            }
        }
    }

    fn lay_write(
        &mut self,
        within: &Within,
        number: u32,
        file: u32,
        from: bool,
        at: u32,
        next: u32,
    ) -> Result<(), AllocError>
        ensures { OnOk result (self.new ≡ grown self.old (write_nodes (copied_of within.now) number file from at next)) }
    {
        let out = [
            (Action::Write, next),
            (Action::Bad(0), within.bad_to(file, next)),
        ];
        if from {
            let write_at = sum_of(at, 1)?;
            self.lay_one(within, number, Action::Assign, write_at)?;
            self.add(within, number, false, &out)
        } else {
            self.add(within, number, true, &out)
        }
    }

    // ---- what stands before lists

    /// READ, whose end of file goes to one node, and what went well to another.
    fn lay_take(
        &mut self,
        within: &Within,
        number: u32,
        file: u32,
        into: bool,
        at: u32,
        end: u32,
        fine: u32,
        next: u32,
    ) -> Result<(), AllocError>
        ensures { OnOk result (self.new ≡ grown self.old (read_nodes (copied_of within.now) number file into at end fine next)) }
    {
        let bad = within.bad_to(file, next);
        let taken = if into { sum_of(at, 1)? } else { fine };
        self.add(
            within,
            number,
            true,
            &[
                (Action::Take, taken),
                (Action::AtEnd, end),
                (Action::Bad(0), bad),
            ],
        )?;
        if into {
            self.add(within, number, false, &[(Action::Assign, fine)])
        } else {
            Ok(())
        }
    }

    /// Arithmetic, whose phrase begins at one node; what went well goes on at another.
    fn lay_sum(
        &mut self,
        within: &Within,
        number: u32,
        size: &Option<Vec<Stmt>>,
        size_at: u32,
        fine: u32,
        next: u32,
    ) -> Result<(), AllocError>
        ensures { OnOk result (self.new ≡ grown self.old (node (copied_of within.now) number true ((action.Done, fine) ∷ size_edges (copied_of within.now) number (lay_phrase (plan within.now) (copies_of within.now) (plain_phrase size.now)) size_at next) ∷ [])) }
    {
        match size {
            None => self.lay_one(within, number, Action::Done, fine),
            Some(list) => {
                let failed = first_of_list(list, size_at, next);
                self.add(
                    within,
                    number,
                    true,
                    &[(Action::Done, fine), (Action::Size, failed)],
                )
            }
        }
    }

    // ---- loops

    /// The nodes before the body, which begins at `enter`.
    fn lay_before(
        &mut self,
        within: &Within,
        number: u32,
        turns: &Turns,
        at: u32,
        next: u32,
        enter: u32,
        left: u32,
    ) -> Result<(), AllocError>
        ensures { (body : LaidBody) → enter ≡ first_of_body body (body_at (plain_turns turns.now) at) (body_next (plain_turns turns.now) at body next) → OnOk result (self.new ≡ grown self.old (loop_before (copied_of within.now) number (plain_turns turns.now) body at next)) }
    {
        let begin = sum_of(at, 1)?;
        match turns {
            Turns::Once | Turns::Until { after: true, .. } => {
                self.lay_one(within, number, Action::Skip, enter)
            }
            Turns::Varying { after: true, .. } => {
                self.lay_one(within, number, Action::Assign, enter)
            }
            Turns::Times(_) => {
                self.lay_one(within, number, Action::SetCount, begin)?;
                self.add(
                    within,
                    number,
                    true,
                    &[(Action::True(0), enter), (Action::False(0), next)],
                )
            }
            Turns::Until { after: false, test } => {
                self.lay_one(within, number, Action::Skip, begin)?;
                let fork = Fork {
                    k: 0,
                    at: begin,
                    yes: next,
                    no: enter,
                };
                self.lay_logic(within, number, true, test, fork, left)
            }
            Turns::Varying {
                after: false,
                test,
                ..
            } => {
                self.lay_one(within, number, Action::Assign, begin)?;
                let fork = Fork {
                    k: 0,
                    at: begin,
                    yes: next,
                    no: enter,
                };
                self.lay_logic(within, number, true, test, fork, left)
            }
        }
    }

    /// The nodes behind the body.
    fn lay_behind(
        &mut self,
        within: &Within,
        number: u32,
        turns: &Turns,
        size: u32,
        at: u32,
        next: u32,
        enter: u32,
        left: u32,
    ) -> Result<(), AllocError>
        ensures { (body : LaidBody) → size ≡ body_size body → enter ≡ first_of_body body (body_at (plain_turns turns.now) at) (body_next (plain_turns turns.now) at body next) → OnOk result (self.new ≡ grown self.old (loop_behind (copied_of within.now) number (plain_turns turns.now) body at next)) }
    {
        let begin = sum_of(at, 1)?;
        match turns {
            Turns::Once | Turns::Until { after: false, .. } => Ok(()),
            Turns::Times(_) => self.lay_one(within, number, Action::Down, begin),
            Turns::Varying { after: false, .. } => {
                self.lay_one(within, number, Action::Done, begin)
            }
            Turns::Until { after: true, test } => {
                let tests_at = sum_of(begin, size)?;
                let fork = Fork {
                    k: 0,
                    at: tests_at,
                    yes: next,
                    no: enter,
                };
                self.lay_logic(within, number, true, test, fork, left)
            }
            Turns::Varying {
                after: true,
                test,
                ..
            } => {
                let tests_at = sum_of(begin, size)?;
                let tests = exact(tests_in(test))?;
                let no = sum_of(tests_at, tests)?;
                let fork = Fork {
                    k: 0,
                    at: tests_at,
                    yes: next,
                    no,
                };
                self.lay_logic(within, number, true, test, fork, left)?;
                self.lay_one(within, number, Action::Done, enter)
            }
        }
    }

    // ---- lists

    /// The nodes of statements.
    #[cycle(lists)]
    fn lay_list(
        &mut self,
        within: &Within,
        list: &[Stmt],
        at: u32,
        next: u32,
        left: u32,
    ) -> Result<(), AllocError>
        ensures { OnOk result (self.new ≡ grown self.old (list_nodes (copied_of within.now) (lay_list (plan within.now) (copies_of within.now) (plain_stmts list.now)) at next)) }
    {
        match list {
            [] => Ok(()),
            [stmt, rest @ ..] => {
                let left = less(left)?;
                let nodes = within.stmt_nodes(stmt)?;
                let behind = sum_of(at, nodes)?;
                let to = first_of_list(rest, behind, next);
                self.lay_stmt(within, stmt, at, to, left)?;
                self.lay_list(within, rest, behind, next, left)
            }
        }
    }

    #[cycle(lists)]
    fn lay_stmt(
        &mut self,
        within: &Within,
        stmt: &Stmt,
        at: u32,
        next: u32,
        left: u32,
    ) -> Result<(), AllocError>
        ensures { OnOk result (self.new ≡ grown self.old (nodes (copied_of within.now) (lay_stmt (plan within.now) (copies_of within.now) (plain_stmt stmt.now)) at next)) }
    {
        self.lay_act(within, stmt.number, &stmt.act, at, next, less(left)?)
    }

    #[cycle(lists)]
    fn lay_phrase(
        &mut self,
        within: &Within,
        phrase: &Option<Vec<Stmt>>,
        at: u32,
        next: u32,
        left: u32,
    ) -> Result<(), AllocError>
        ensures { OnOk result (self.new ≡ grown self.old (phrase_nodes (copied_of within.now) (lay_phrase (plan within.now) (copies_of within.now) (plain_phrase phrase.now)) at next)) }
    {
        match phrase {
            None => Ok(()),
            Some(list) => self.lay_list(within, list, at, next, less(left)?),
        }
    }

    #[cycle(lists)]
    fn lay_act(
        &mut self,
        within: &Within,
        number: u32,
        act: &Act,
        at: u32,
        next: u32,
        left: u32,
    ) -> Result<(), AllocError>
        ensures { OnOk result (self.new ≡ grown self.old (act_nodes (copied_of within.now) number (lay_act (plan within.now) (copies_of within.now) (plain_act act.now)) at next)) }
    {
        let left = less(left)?;
        match act {
            Act::Move { .. } => self.lay_one(within, number, Action::Assign, next),
            Act::Show(_) => self.lay_one(within, number, Action::Show, next),
            Act::Nothing => self.lay_one(within, number, Action::Skip, next),
            Act::Go(to) => self.lay_one(within, number, Action::Skip, within.para_node(*to)?),
            Act::Stop => self.lay_one(within, number, Action::Skip, within.final_node),
            Act::OpenFiles(files) => self.lay_opens(within, number, true, files.get(), 0, at, next),
            Act::CloseFiles(files) => self.lay_closes(
                within,
                number,
                true,
                files.get(),
                0,
                at,
                next,
            ),
            Act::Write { rec, from } => {
                let file = file_of(&within.program.layout, *rec)?;
                self.lay_write(within, number, file, from.is_some(), at, next)
            }
            Act::Arith { size, fine, .. } => {
                self.lay_arith(within, number, size, fine, at, next, left)
            }
            Act::If { test, yes, no } => {
                self.lay_if(within, number, test, yes, no, at, next, left)
            }
            Act::Evaluate { whens, other } => {
                self.lay_evaluate(within, number, whens, other, at, next, left)
            }
            Act::Perform { body, turns } => {
                self.lay_perform(within, number, body, turns, at, next, left)
            }
            Act::Read {
                file,
                into,
                end,
                fine,
            } => self.lay_read(
                within,
                number,
                *file,
                into.is_some(),
                end,
                fine,
                at,
                next,
                left,
            ),
        }
    }

    #[cycle(lists)]
    fn lay_arith(
        &mut self,
        within: &Within,
        number: u32,
        size: &Option<Vec<Stmt>>,
        fine: &[Stmt],
        at: u32,
        next: u32,
        left: u32,
    ) -> Result<(), AllocError>
        ensures { OnOk result (self.new ≡ grown self.old (act_nodes (copied_of within.now) number (computing (lay_phrase (plan within.now) (copies_of within.now) (plain_phrase size.now)) (lay_list (plan within.now) (copies_of within.now) (plain_stmts fine.now))) at next)) }
    {
        let left = less(left)?;
        let size_at = sum_of(at, 1)?;
        let nodes = within.phrase_nodes(size)?;
        let fine_at = sum_of(size_at, nodes)?;
        let to = first_of_list(fine, fine_at, next);
        self.lay_sum(within, number, size, size_at, to, next)?;
        self.lay_phrase(within, size, size_at, next, left)?;
        self.lay_list(within, fine, fine_at, next, left)
    }

    #[cycle(lists)]
    fn lay_if(
        &mut self,
        within: &Within,
        number: u32,
        test: &Logic,
        held: &[Stmt],
        other: &[Stmt],
        at: u32,
        next: u32,
        left: u32,
    ) -> Result<(), AllocError>
        ensures { OnOk result (self.new ≡ grown self.old (act_nodes (copied_of within.now) number (deciding (plain_logic test.now) (lay_list (plan within.now) (copies_of within.now) (plain_stmts held.now)) (lay_list (plan within.now) (copies_of within.now) (plain_stmts other.now))) at next)) }
    {
        let left = less(left)?;
        let tests = exact(tests_in(test))?;
        let held_at = sum_of(at, tests)?;
        let nodes = within.list_nodes(held)?;
        let other_at = sum_of(held_at, nodes)?;
        let yes = first_of_list(held, held_at, next);
        let no = first_of_list(other, other_at, next);
        let fork = Fork { k: 0, at, yes, no };
        self.lay_logic(within, number, true, test, fork, left)?;
        self.lay_list(within, held, held_at, next, left)?;
        self.lay_list(within, other, other_at, next, left)
    }

    #[cycle(lists)]
    fn lay_evaluate(
        &mut self,
        within: &Within,
        number: u32,
        whens: &[When],
        other: &[Stmt],
        at: u32,
        next: u32,
        left: u32,
    ) -> Result<(), AllocError>
        ensures { OnOk result (self.new ≡ grown self.old (act_nodes (copied_of within.now) number (choosing (lay_whens (plan within.now) (copies_of within.now) (plain_whens whens.now)) (lay_list (plan within.now) (copies_of within.now) (plain_stmts other.now))) at next)) }
    {
        let left = less(left)?;
        let whens_at = sum_of(at, 1)?;
        let nodes = within.whens_nodes(whens)?;
        let other_at = sum_of(whens_at, nodes)?;
        let to_other = first_of_list(other, other_at, next);
        let to = within.first_of_whens(whens, whens_at, to_other, next, left)?;
        self.lay_one(within, number, Action::Skip, to)?;
        self.lay_whens(within, number, whens, 0, whens_at, to_other, next, left)?;
        self.lay_list(within, other, other_at, next, left)
    }

    #[cycle(lists)]
    fn lay_whens(
        &mut self,
        within: &Within,
        number: u32,
        whens: &[When],
        k: u32,
        at: u32,
        other: u32,
        next: u32,
        left: u32,
    ) -> Result<(), AllocError>
        ensures { OnOk result (self.new ≡ grown self.old (whens_nodes (copied_of within.now) number (lay_whens (plan within.now) (copies_of within.now) (plain_whens whens.now)) k at other next)) }
    {
        match whens {
            [] => Ok(()),
            [when, rest @ ..] => {
                let left = less(left)?;
                let tests = exact(tests_among(when.tests.get()))?;
                let list_at = sum_of(at, tests)?;
                let nodes = within.list_nodes(&when.body)?;
                let rest_at = sum_of(list_at, nodes)?;
                let more = sum_of(k, tests)?;
                let yes = first_of_list(&when.body, list_at, next);
                let no = within.first_of_whens(rest, rest_at, other, next, left)?;
                let fork = Fork { k, at, yes, no };
                self.lay_some(within, number, false, when.tests.get(), fork, left)?;
                self.lay_list(within, &when.body, list_at, next, left)?;
                self.lay_whens(within, number, rest, more, rest_at, other, next, left)
            }
        }
    }

    #[cycle(lists)]
    fn lay_read(
        &mut self,
        within: &Within,
        number: u32,
        file: u32,
        into: bool,
        end: &Option<Vec<Stmt>>,
        fine: &[Stmt],
        at: u32,
        next: u32,
        left: u32,
    ) -> Result<(), AllocError>
        ensures { OnOk result (self.new ≡ grown self.old (act_nodes (copied_of within.now) number (reading file into (lay_phrase (plan within.now) (copies_of within.now) (plain_phrase end.now)) (lay_list (plan within.now) (copies_of within.now) (plain_stmts fine.now))) at next)) }
    {
        let left = less(left)?;
        let behind = sum_of(at, 1)?;
        let end_at = sum_of(behind, one_if(into))?;
        let nodes = within.phrase_nodes(end)?;
        let fine_at = sum_of(end_at, nodes)?;
        let to_end = within.end_to(end, file, end_at, next);
        let to_fine = first_of_list(fine, fine_at, next);
        self.lay_take(within, number, file, into, at, to_end, to_fine, next)?;
        self.lay_phrase(within, end, end_at, next, left)?;
        self.lay_list(within, fine, fine_at, next, left)
    }

    #[cycle(lists)]
    fn lay_perform(
        &mut self,
        within: &Within,
        number: u32,
        body: &Body,
        turns: &Turns,
        at: u32,
        next: u32,
        left: u32,
    ) -> Result<(), AllocError>
        ensures { OnOk result (self.new ≡ grown self.old (act_nodes (copied_of within.now) number (performing (lay_body (plan within.now) (copies_of within.now) (plain_body body.now)) (plain_turns turns.now)) at next)) }
    {
        let left = less(left)?;
        let size = within.body_nodes(body)?;
        let begin = inner_at(turns, at)?;
        let behind = body_next(turns, at, size, next)?;
        let enter = within.first_of_body(body, begin, behind);
        self.lay_before(within, number, turns, at, next, enter, left)?;
        self.lay_body(within, number, body, begin, behind, left)?;
        self.lay_behind(within, number, turns, size, at, next, enter, left)
    }

    #[cycle(lists)]
    fn lay_body(
        &mut self,
        within: &Within,
        number: u32,
        body: &Body,
        at: u32,
        next: u32,
        left: u32,
    ) -> Result<(), AllocError>
        ensures { OnOk result (self.new ≡ grown self.old (body_nodes (copied_of within.now) number (lay_body (plan within.now) (copies_of within.now) (plain_body body.now)) at next)) }
    {
        let left = less(left)?;
        match body {
            Body::Inline(list) => self.lay_list(within, list, at, next, left),
            Body::Range { first, last } => {
                self.lay_copy(within, number, *first, *last, at, next, left)
            }
        }
    }

    #[cycle(lists)]
    fn lay_copy(
        &mut self,
        within: &Within,
        number: u32,
        first: u32,
        last: u32,
        at: u32,
        next: u32,
        left: u32,
    ) -> Result<(), AllocError>
        ensures { OnOk result (self.new ≡ grown self.old (body_nodes (copied_of within.now) number (copy first (copies_of within.now first last)) at next)) }
    {
        let left = less(left)?;
        match rest_in(within.table, first, last) {
            None => Ok(()),
            Some(table) => {
                let sites = sites_with(self.allocator(), within.sites, number)?;
                let inner = Within {
                    program: within.program,
                    table,
                    sites: sites.as_slice(),
                    first: first as usize,
                    end: last as usize + 1,
                    at,
                    next,
                    final_node: within.final_node,
                };
                self.lay_paras(&inner, left)
            }
        }
    }

    /// The paragraphs of a copy.
    #[cycle(lists)]
    pub fn lay_paras(&mut self, within: &Within, left: u32) -> Result<(), AllocError>
        ensures { OnOk result (self.new ≡ grown self.old (paras_nodes (copied_of within.now) (paras_of within.now) within.now.at within.now.next)) }
    {
        let left = less(left)?;
        let mut at = within.at;
        for place in within.first..within.end {
            let list = body_at(within.program, place);
            let nodes = within.list_nodes(list)?;
            let behind = sum_of(at, nodes)?;
            let to = node_behind(within, list, place + 1, behind);
            self.lay_list(within, list, at, to, left)?;
            at = behind;
        }
        Ok(())
    }
}
