//! What statements and paragraphs mention, each statement's own before that of its lists.
ghost use Rattle.std.specs.Prelude.{◌≡◌, ◌++◌, OnOk, IfOk};
ghost use Rattle.cob_program.specs.ActView.{
  plain_act,
  plain_body,
  plain_para,
  plain_paras,
  plain_stmt,
  plain_stmts,
  plain_turns,
  plain_when,
  plain_whens,
};
ghost use Rattle.analyse_core.specs.Mentions.{
  act_mentions,
  body_mentions,
  inner_mentions,
  lists_of,
  own_mentions,
  para_mentions,
  stmt_mentions,
  stmts_mentions,
  texts_of,
  turns_mentions,
  when_mentions,
  whens_mentions,
};

use crate::mention::{Mention, add_if, add_item, add_range, add_targets};
use crate::mentioned_conditions::{add_logic, add_tests};
use cob_program::{Act, Body, Para, Stmt, Turns, When};
use std::alloc::{AllocError, Global};

fn add_turns(mentions: &mut Vec<Mention>, turns: &Turns) -> Result<(), AllocError>
    ensures { OnOk result (mentions.new.items ≡ mentions.old.items ++ turns_mentions (plain_turns turns.now)) }
{
    match turns {
        Turns::Once | Turns::Times(_) => Ok(()),
        Turns::Until { test, .. } => add_logic(mentions, test),
        Turns::Varying { item, test, .. } => {
            add_item(mentions, *item)?;
            add_logic(mentions, test)
        }
    }
}

// What a statement mentions beside its lists.
fn add_own(mentions: &mut Vec<Mention>, act: &Act) -> Result<(), AllocError>
    ensures { OnOk result (mentions.new.items ≡ mentions.old.items ++ own_mentions (plain_act act.now)) }
{
    match act {
        Act::Arith {
            targets,
            remainder,
            ..
        } => {
            add_targets(mentions, targets.get())?;
            add_if(mentions, *remainder)
        }
        Act::If { test, .. } => add_logic(mentions, test),
        Act::Perform { turns, .. } => add_turns(mentions, turns),
        _ => Ok(()),
    }
}

#[cycle(statements)]
fn add_list(mentions: &mut Vec<Mention>, list: &[Stmt]) -> Result<(), AllocError>
    ensures { OnOk result (mentions.new.items ≡ mentions.old.items ++ stmts_mentions (plain_stmts list.now)) }
{
    for statement in list {
        add_statement(mentions, statement)?;
    }
    Ok(())
}

#[cycle(statements)]
fn add_statement(mentions: &mut Vec<Mention>, statement: &Stmt) -> Result<(), AllocError>
    ensures { OnOk result (mentions.new.items ≡ mentions.old.items ++ stmt_mentions (plain_stmt statement.now)) }
{
    add_act(mentions, &statement.act)
}

#[cycle(statements)]
#[tactic(auto, using(crate::proofs::OwnFirst::own_first))]
fn add_act(mentions: &mut Vec<Mention>, act: &Act) -> Result<(), AllocError>
    ensures { OnOk result (mentions.new.items ≡ mentions.old.items ++ act_mentions (plain_act act.now)) }
{
    add_own(mentions, act)?;
    add_inner(mentions, act)
}

// What the lists of a statement mention.
#[cycle(statements)]
fn add_inner(mentions: &mut Vec<Mention>, act: &Act) -> Result<(), AllocError>
    ensures { OnOk result (mentions.new.items ≡ mentions.old.items ++ inner_mentions (plain_act act.now)) }
{
    match act {
        Act::Arith { size, fine, .. } => match size {
            None => add_list(mentions, fine),
            Some(list) => {
                add_list(mentions, list)?;
                add_list(mentions, fine)
            }
        },
        Act::If { yes, no, .. } => {
            add_list(mentions, yes)?;
            add_list(mentions, no)
        }
        Act::Evaluate { whens, other } => {
            add_whens(mentions, whens)?;
            add_list(mentions, other)
        }
        Act::Perform { body, .. } => add_body(mentions, body),
        Act::Read { end, fine, .. } => match end {
            None => add_list(mentions, fine),
            Some(list) => {
                add_list(mentions, list)?;
                add_list(mentions, fine)
            }
        },
        _ => Ok(()),
    }
}

#[cycle(statements)]
fn add_whens(mentions: &mut Vec<Mention>, whens: &[When]) -> Result<(), AllocError>
    ensures { OnOk result (mentions.new.items ≡ mentions.old.items ++ whens_mentions (plain_whens whens.now)) }
{
    for when in whens {
        add_when(mentions, when)?;
    }
    Ok(())
}

#[cycle(statements)]
fn add_when(mentions: &mut Vec<Mention>, when: &When) -> Result<(), AllocError>
    ensures { OnOk result (mentions.new.items ≡ mentions.old.items ++ when_mentions (plain_when when.now)) }
{
    add_tests(mentions, when.tests.get())?;
    add_list(mentions, &when.body)
}

#[cycle(statements)]
fn add_body(mentions: &mut Vec<Mention>, body: &Body) -> Result<(), AllocError>
    ensures { OnOk result (mentions.new.items ≡ mentions.old.items ++ body_mentions (plain_body body.now)) }
{
    match body {
        Body::Range { first, last } => add_range(mentions, *first, *last),
        Body::Inline(list) => add_list(mentions, list),
    }
}

/// What a statement mentions.
pub fn mentions_of(alloc: Global, statement: &Stmt) -> Result<Vec<Mention>, AllocError>
    ensures { IfOk result (λ mentions. mentions.items ≡ stmt_mentions (plain_stmt statement.now)) }
{
    let mut mentions = Vec::new(alloc);
    add_statement(&mut mentions, statement)?;
    Ok(mentions)
}

fn mentions_in(alloc: Global, para: &Para) -> Result<Vec<Mention>, AllocError>
    ensures { IfOk result (λ mentions. mentions.items ≡ para_mentions (plain_para para.now)) }
{
    let mut mentions = Vec::new(alloc);
    add_list(&mut mentions, para.body.get())?;
    Ok(mentions)
}

/// What each paragraph mentions.
pub fn texts_of(alloc: Global, paras: &[Para]) -> Result<Vec<Vec<Mention>>, AllocError>
    ensures { IfOk result (λ texts. lists_of texts.items ≡ texts_of (plain_paras paras.now)) }
{
    let mut texts = Vec::new(alloc);
    for para in paras {
        texts.push(mentions_in(alloc, para)?)?;
    }
    Ok(texts)
}
