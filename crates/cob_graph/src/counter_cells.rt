//! The cells of the counters of PERFORMs with TIMES.
#![tactic(auto, using(crate::proofs::LeftLemmas::found_first, crate::proofs::LeftLemmas::left_behind))]

ghost use Rattle.std.specs.Prelude.{◌≡◌, ◌++◌};
ghost use Rattle.cob_program.specs.ActView.{plain_act, plain_stmt, plain_stmts, plain_when, plain_whens, plain_body, plain_turns, plain_para, plain_paras, plain_program};
ghost use Rattle.cob_program.specs.Statements.{list_statements, with_inner_statements, whens_statements, when_statements, body_statements, para_statements, paras_statements};
ghost use Rattle.cob_graph.specs.Graphs.{cells_of};
ghost use Rattle.cob_graph.specs.declared.homes.Home.TheVariants.{Count as of_count};
ghost use Rattle.cob_graph.specs.Homes.{turns_homes, act_homes, stmt_homes, count_homes};
ghost use Rattle.cob_graph.specs.Numbers.{list_homes, inner_homes, left_at, number_of};

use crate::item_cells::item_count;
use cob_program::{Act, Body, Para, Program, Stmt, Turns, When};
use cob_runs::Cell;
use std::ops::ControlFlow;

/// How many counters are left from one on, where that is found, or else behind those that were looked at.
type Left = ControlFlow<usize, usize>;

fn at_turns(statement: u32, number: u32, turns: &Turns, left: usize) -> Left
    ensures { result ≡ left_at statement (turns_homes number (plain_turns turns.now)) left }
{
    match turns {
        Turns::Times(_) => {
            if number == statement {
                ControlFlow::Break(left)
            } else {
                ControlFlow::Continue(left.saturating_sub(1))
            }
        }
        _ => ControlFlow::Continue(left),
    }
}

fn at_act(statement: u32, number: u32, act: &Act, left: usize) -> Left
    ensures { result ≡ left_at statement (act_homes number (plain_act act.now)) left }
{
    match act {
        Act::Perform { turns, .. } => at_turns(statement, number, turns, left),
        _ => ControlFlow::Continue(left),
    }
}

fn at_statement(statement: u32, here: &Stmt, left: usize) -> Left
    ensures { result ≡ left_at statement (stmt_homes (plain_stmt here.now)) left }
{
    at_act(statement, here.number, &here.act, left)
}

#[cycle(counters)]
fn in_list(statement: u32, list: &[Stmt], left: usize) -> Left
    ensures { result ≡ left_at statement (count_homes (list_statements (plain_stmts list.now))) left }
{
    let mut left = left;
    for here in list {
        left = from_statement(statement, here, left)?;
    }
    ControlFlow::Continue(left)
}

#[cycle(counters)]
fn in_block(statement: u32, block: &Vec<Stmt>, left: usize) -> Left
    ensures { result ≡ left_at statement (list_homes (plain_stmts block.now.items)) left }
{
    in_list(statement, block, left)
}

#[cycle(counters)]
fn from_statement(statement: u32, here: &Stmt, left: usize) -> Left
    ensures { result ≡ left_at statement (count_homes (with_inner_statements (plain_stmt here.now))) left }
{
    let left = at_statement(statement, here, left)?;
    in_act(statement, &here.act, left)
}

#[cycle(counters)]
fn in_act(statement: u32, act: &Act, left: usize) -> Left
    ensures { result ≡ left_at statement (inner_homes (plain_act act.now)) left }
{
    match act {
        Act::Arith { size, fine, .. } => match size {
            None => in_block(statement, fine, left),
            Some(list) => {
                let left = in_block(statement, list, left)?;
                in_block(statement, fine, left)
            }
        },
        Act::If { yes, no, .. } => {
            let left = in_block(statement, yes, left)?;
            in_block(statement, no, left)
        }
        Act::Evaluate { whens, other } => {
            let left = in_choices(statement, whens, left)?;
            in_block(statement, other, left)
        }
        Act::Perform { body, .. } => in_body(statement, body, left),
        Act::Read { end, fine, .. } => match end {
            None => in_block(statement, fine, left),
            Some(list) => {
                let left = in_block(statement, list, left)?;
                in_block(statement, fine, left)
            }
        },
        _ => ControlFlow::Continue(left),
    }
}

#[cycle(counters)]
fn in_choices(statement: u32, whens: &Vec<When>, left: usize) -> Left
    ensures { result ≡ left_at statement (count_homes (whens_statements (plain_whens whens.now.items))) left }
{
    in_whens(statement, whens, left)
}

#[cycle(counters)]
fn in_whens(statement: u32, whens: &[When], left: usize) -> Left
    ensures { result ≡ left_at statement (count_homes (whens_statements (plain_whens whens.now))) left }
{
    let mut left = left;
    for when in whens {
        left = in_when(statement, when, left)?;
    }
    ControlFlow::Continue(left)
}

#[cycle(counters)]
fn in_when(statement: u32, when: &When, left: usize) -> Left
    ensures { result ≡ left_at statement (count_homes (when_statements (plain_when when.now))) left }
{
    in_list(statement, &when.body, left)
}

#[cycle(counters)]
fn in_body(statement: u32, body: &Body, left: usize) -> Left
    ensures { result ≡ left_at statement (count_homes (body_statements (plain_body body.now))) left }
{
    match body {
        Body::Range { .. } => ControlFlow::Continue(left),
        Body::Inline(list) => in_list(statement, list, left),
    }
}

fn in_para(statement: u32, para: &Para, left: usize) -> Left
    ensures { result ≡ left_at statement (count_homes (para_statements (plain_para para.now))) left }
{
    in_list(statement, para.body.get(), left)
}

fn in_paras(statement: u32, paras: &[Para], left: usize) -> Left
    ensures { result ≡ left_at statement (count_homes (paras_statements (plain_paras paras.now))) left }
{
    let mut left = left;
    for para in paras {
        left = in_para(statement, para, left)?;
    }
    ControlFlow::Continue(left)
}

/// The number of the cell of a statement's counter, if it has one.
pub fn cell_of_count(program: &Program, cells: &[Cell], statement: u32) -> Option<usize>
    requires { cells.now ≡ cells_of (plain_program program.now) }
    ensures { result ≡ number_of (plain_program program.now) (of_count statement) }
{
    let all = cells.len();
    let counters = all - item_count(cells);
    match in_paras(statement, program.paras.get(), counters) {
        ControlFlow::Break(left) => Some(all - left),
        ControlFlow::Continue(_) => None,
    }
}
