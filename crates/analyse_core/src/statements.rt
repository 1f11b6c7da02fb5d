//! The literals of statements, each statement's own before those of its lists.
ghost use Rattle.std.specs.Prelude.{◌≡◌, ◌++◌, OnOk};
ghost use Rattle.cob_program.specs.ActView.{
  plain_act,
  plain_body,
  plain_para,
  plain_paras,
  plain_stmt,
  plain_stmts,
  plain_turns,
  plain_when,
  plain_whens,
};
ghost use Rattle.analyse_core.specs.Literals.{
  act_literals,
  body_literals,
  para_literals,
  paras_literals,
  stmt_literals,
  stmts_literals,
  turns_literals,
  when_literals,
  whens_literals,
  numbers_of,
};

use crate::conditions::{add_logic, add_tests};
use crate::literals::{add_sender, add_senders, add_value};
use crate::sums::add_sum;
use cob_program::{Act, Body, Para, Stmt, Turns, When};
use cob_tree::Num;
use std::alloc::AllocError;

fn add_turns<'a>(literals: &mut Vec<&'a Num>, turns: &'a Turns) -> Result<(), AllocError>
    ensures { OnOk result (numbers_of literals.new.items ≡ numbers_of literals.old.items ++ turns_literals (plain_turns turns.now)) }
{
    match turns {
        Turns::Once => Ok(()),
        Turns::Times(count) => add_sender(literals, count),
        Turns::Until { test, .. } => add_logic(literals, test),
        Turns::Varying {
            start,
            by,
            test,
            ..
        } => {
            add_sender(literals, start)?;
            add_sender(literals, by)?;
            add_logic(literals, test)
        }
    }
}

#[cycle(statements)]
fn add_list<'a>(literals: &mut Vec<&'a Num>, list: &'a [Stmt]) -> Result<(), AllocError>
    ensures { OnOk result (numbers_of literals.new.items ≡ numbers_of literals.old.items ++ stmts_literals (plain_stmts list.now)) }
{
    for statement in list {
        add_statement(literals, statement)?;
    }
    Ok(())
}

#[cycle(statements)]
fn add_statement<'a>(literals: &mut Vec<&'a Num>, statement: &'a Stmt) -> Result<(), AllocError>
    ensures { OnOk result (numbers_of literals.new.items ≡ numbers_of literals.old.items ++ stmt_literals (plain_stmt statement.now)) }
{
    add_act(literals, &statement.act)
}

#[cycle(statements)]
fn add_act<'a>(literals: &mut Vec<&'a Num>, act: &'a Act) -> Result<(), AllocError>
    ensures { OnOk result (numbers_of literals.new.items ≡ numbers_of literals.old.items ++ act_literals (plain_act act.now)) }
{
    match act {
        Act::Move { from, .. } => add_sender(literals, from),
        Act::Arith {
            common,
            size: None,
            fine,
            ..
        } => {
            add_sum(literals, common)?;
            add_list(literals, fine)
        }
        Act::Arith {
            common,
            size: Some(list),
            fine,
            ..
        } => {
            add_sum(literals, common)?;
            add_list(literals, list)?;
            add_list(literals, fine)
        }
        Act::If { test, yes, no } => {
            add_logic(literals, test)?;
            add_list(literals, yes)?;
            add_list(literals, no)
        }
        Act::Evaluate { whens, other } => {
            add_whens(literals, whens)?;
            add_list(literals, other)
        }
        Act::Perform { body, turns } => {
            add_turns(literals, turns)?;
            add_body(literals, body)
        }
        Act::Read {
            end: None,
            fine,
            ..
        } => add_list(literals, fine),
        Act::Read {
            end: Some(list),
            fine,
            ..
        } => {
            add_list(literals, list)?;
            add_list(literals, fine)
        }
        Act::Write { from, .. } => add_value(literals, from),
        Act::Show(senders) => add_senders(literals, senders.get()),
        _ => Ok(()),
    }
}

#[cycle(statements)]
fn add_whens<'a>(literals: &mut Vec<&'a Num>, whens: &'a [When]) -> Result<(), AllocError>
    ensures { OnOk result (numbers_of literals.new.items ≡ numbers_of literals.old.items ++ whens_literals (plain_whens whens.now)) }
{
    for when in whens {
        add_when(literals, when)?;
    }
    Ok(())
}

#[cycle(statements)]
fn add_when<'a>(literals: &mut Vec<&'a Num>, when: &'a When) -> Result<(), AllocError>
    ensures { OnOk result (numbers_of literals.new.items ≡ numbers_of literals.old.items ++ when_literals (plain_when when.now)) }
{
    add_tests(literals, when.tests.get())?;
    add_list(literals, &when.body)
}

#[cycle(statements)]
fn add_body<'a>(literals: &mut Vec<&'a Num>, body: &'a Body) -> Result<(), AllocError>
    ensures { OnOk result (numbers_of literals.new.items ≡ numbers_of literals.old.items ++ body_literals (plain_body body.now)) }
{
    match body {
        Body::Range { .. } => Ok(()),
        Body::Inline(list) => add_list(literals, list),
    }
}

fn add_para<'a>(literals: &mut Vec<&'a Num>, para: &'a Para) -> Result<(), AllocError>
    ensures { OnOk result (numbers_of literals.new.items ≡ numbers_of literals.old.items ++ para_literals (plain_para para.now)) }
{
    add_list(literals, para.body.get())
}

/// Adds the literals of paragraphs.
pub fn add_paras<'a>(literals: &mut Vec<&'a Num>, paras: &'a [Para]) -> Result<(), AllocError>
    ensures { OnOk result (numbers_of literals.new.items ≡ numbers_of literals.old.items ++ paras_literals (plain_paras paras.now)) }
{
    for para in paras {
        add_para(literals, para)?;
    }
    Ok(())
}
