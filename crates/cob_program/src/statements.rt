//! The statements of a program in the order of the source, each before the statements of its own lists.
ghost use Rattle.std.specs.Prelude.{◌≡◌, ◌++◌, ◌∷◌, [], IfOk, OnOk};
ghost use Rattle.cob_program.specs.ActView.{plain_stmt, plain_stmts, plain_act, plain_when, plain_whens, plain_body, plain_para, plain_paras, plain_program};
ghost use Rattle.cob_program.specs.Statements.{list_statements, with_inner_statements, inner_statements, whens_statements, when_statements, body_statements, para_statements, paras_statements, program_statements, plain_references};

use crate::act::{Act, Body, Stmt, When};
use crate::program::{Para, Program};
use std::alloc::{AllocError, Global};

#[cycle(lists)]
fn add_list<'a>(statements: &mut Vec<&'a Stmt>, list: &'a [Stmt]) -> Result<(), AllocError>
    ensures { OnOk result (plain_references statements.new.items
        ≡ plain_references statements.old.items ++ list_statements (plain_stmts list.now)) }
{
    for statement in list {
        add_with_inner(statements, statement)?;
    }
    Ok(())
}

fn add_one<'a>(statements: &mut Vec<&'a Stmt>, statement: &'a Stmt) -> Result<(), AllocError>
    ensures { OnOk result (plain_references statements.new.items
        ≡ plain_references statements.old.items ++ plain_stmt statement.now ∷ []) }
{
    statements.push(statement)?;
    Ok(())
}

#[cycle(lists)]
fn add_with_inner<'a>(statements: &mut Vec<&'a Stmt>, statement: &'a Stmt) -> Result<(), AllocError>
    ensures { OnOk result (plain_references statements.new.items
        ≡ plain_references statements.old.items ++ with_inner_statements (plain_stmt statement.now)) }
{
    add_one(statements, statement)?;
    add_inner(statements, &statement.act)
}

#[cycle(lists)]
fn add_inner<'a>(statements: &mut Vec<&'a Stmt>, act: &'a Act) -> Result<(), AllocError>
    ensures { OnOk result (plain_references statements.new.items
        ≡ plain_references statements.old.items ++ inner_statements (plain_act act.now)) }
{
    match act {
        Act::Arith {
            size: None,
            fine,
            ..
        } => add_list(statements, fine),
        Act::Arith {
            size: Some(list),
            fine,
            ..
        } => {
            add_list(statements, list)?;
            add_list(statements, fine)
        }
        Act::If { yes, no, .. } => {
            add_list(statements, yes)?;
            add_list(statements, no)
        }
        Act::Evaluate { whens, other } => {
            add_whens(statements, whens)?;
            add_list(statements, other)
        }
        Act::Perform { body, .. } => add_body(statements, body),
        Act::Read {
            end: None,
            fine,
            ..
        } => add_list(statements, fine),
        Act::Read {
            end: Some(list),
            fine,
            ..
        } => {
            add_list(statements, list)?;
            add_list(statements, fine)
        }
        _ => Ok(()),
    }
}

#[cycle(lists)]
fn add_whens<'a>(statements: &mut Vec<&'a Stmt>, whens: &'a [When]) -> Result<(), AllocError>
    ensures { OnOk result (plain_references statements.new.items
        ≡ plain_references statements.old.items ++ whens_statements (plain_whens whens.now)) }
{
    for when in whens {
        add_when(statements, when)?;
    }
    Ok(())
}

#[cycle(lists)]
fn add_when<'a>(statements: &mut Vec<&'a Stmt>, when: &'a When) -> Result<(), AllocError>
    ensures { OnOk result (plain_references statements.new.items
        ≡ plain_references statements.old.items ++ when_statements (plain_when when.now)) }
{
    add_list(statements, &when.body)
}

#[cycle(lists)]
fn add_body<'a>(statements: &mut Vec<&'a Stmt>, body: &'a Body) -> Result<(), AllocError>
    ensures { OnOk result (plain_references statements.new.items
        ≡ plain_references statements.old.items ++ body_statements (plain_body body.now)) }
{
    match body {
        Body::Range { .. } => Ok(()),
        Body::Inline(list) => add_list(statements, list),
    }
}

fn add_paras<'a>(statements: &mut Vec<&'a Stmt>, paras: &'a [Para]) -> Result<(), AllocError>
    ensures { OnOk result (plain_references statements.new.items
        ≡ plain_references statements.old.items ++ paras_statements (plain_paras paras.now)) }
{
    for para in paras {
        add_list(statements, para.body.get())?;
    }
    Ok(())
}

impl Para {
    /// Its statements in the order of the source, each before the statements of its own lists.
    pub fn statements<'a>(&'a self, alloc: Global) -> Result<Vec<&'a Stmt>, AllocError>
        ensures { IfOk result (λ all. plain_references all.items ≡ para_statements (plain_para self.now)) }
    {
        let mut statements = Vec::new(alloc);
        add_list(&mut statements, self.body.get())?;
        Ok(statements)
    }
}

impl Program {
    /// Its statements in the order of the source, each before the statements of its own lists.
    pub fn statements<'a>(&'a self, alloc: Global) -> Result<Vec<&'a Stmt>, AllocError>
        ensures { IfOk result (λ all. plain_references all.items ≡ program_statements (plain_program self.now)) }
    {
        let mut statements = Vec::new(alloc);
        add_paras(&mut statements, self.paras.get())?;
        Ok(statements)
    }
}
