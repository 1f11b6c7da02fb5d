//! PERFORM and GO TO: how often a body is done, and which paragraphs are meant.
ghost use Rattle.std.specs.Prelude.{◌≡◌, option_map, IfOk, OnOk};
ghost use Rattle.std.specs.Option.{option_copied};
ghost use Rattle.cob_tree.specs.Stmt.{times};
ghost use Rattle.cob_tree.specs.StmtView.{plain_loop};
ghost use Rattle.cob_program.specs.ActView.{plain_act, plain_turns};
ghost use Rattle.cob_program.specs.LogicView.{plain_logic};
ghost use Rattle.cob_typed_exprs.specs.Judged.{noted};
ghost use Rattle.cob_typed_exprs.specs.Scope.{the_para};
ghost use Rattle.cob_typed.specs.Statements.{is_after, number_operand, varied, turns_until, turns_of, last_para, range_act, go_act};

use crate::acts::{go_of, perform_of, range_of};
use cob_data::{Rule, Sender};
use cob_program::{Act, Logic, Turns};
use cob_tree::{Loop, Name, Opnd, Ref, TestPoint, Varying};
use cob_typed_conds::condition;
use cob_typed_exprs::{Finding, Scope, demand, exactly_one, is_number_form};
use std::alloc::AllocError;

// ---- loops

fn is_after(place: Option<TestPoint>) -> bool
    ensures { result ≡ is_after place }
{
    match place {
        Some(TestPoint::After) => true,
        _ => false,
    }
}

fn number_operand(
    scope: &Scope,
    findings: &mut Vec<Finding>,
    line: u32,
    given: &Opnd,
) -> Result<Sender, AllocError>
    ensures value { IfOk result (λ value. value ≡ (number_operand scope.now given.now).value) }
    ensures noted { OnOk result (findings.new.items ≡ noted line findings.old.items (number_operand scope.now given.now).broken) }
{
    let value = scope.operand(findings, line, given)?;
    demand(findings, line, Rule::Q10, scope.is_number(&value))?;
    Ok(value)
}

fn varied(
    scope: &Scope,
    findings: &mut Vec<Finding>,
    line: u32,
    item: &Ref,
) -> Result<u32, AllocError>
    ensures value { IfOk result (λ place. place ≡ (varied scope.now item.now).value) }
    ensures noted { OnOk result (findings.new.items ≡ noted line findings.old.items (varied scope.now item.now).broken) }
{
    let place = scope.the_item(findings, line, item)?;
    demand(findings, line, Rule::Q10, is_number_form(scope.form(place)))?;
    Ok(place)
}

fn turns_until(
    scope: &Scope,
    findings: &mut Vec<Finding>,
    line: u32,
    at: Option<TestPoint>,
    varying: Option<&Varying>,
    test: Logic,
) -> Result<Turns, AllocError>
    ensures value { IfOk result (λ turns. plain_turns turns ≡ (turns_until scope.now at (option_copied varying.entry) (plain_logic test)).value) }
    ensures noted { OnOk result (findings.new.items ≡ noted line findings.old.items (turns_until scope.now at (option_copied varying.entry) (plain_logic test)).broken) }
{
    let after = is_after(at);
    match varying {
        None => Ok(Turns::Until { after, test }),
        Some(varying) => {
            let item = or_leave!(varied(scope, findings, line, &varying.item), test);
            let start = or_leave!(number_operand(scope, findings, line, &varying.from), test);
            let by = or_leave!(
                number_operand(scope, findings, line, &varying.by),
                start,
                test
            );
            Ok(Turns::Varying {
                after,
                item,
                start,
                by,
                test,
            })
        }
    }
}

fn turns_times(
    scope: &Scope,
    findings: &mut Vec<Finding>,
    line: u32,
    count: &Opnd,
) -> Result<Turns, AllocError>
    ensures value { IfOk result (λ turns. plain_turns turns ≡ (turns_of scope.now (Some (times count.now))).value) }
    ensures noted { OnOk result (findings.new.items ≡ noted line findings.old.items (turns_of scope.now (Some (times count.now))).broken) }
{
    let value = scope.operand(findings, line, count)?;
    demand(findings, line, Rule::Q10, scope.is_whole(&value))?;
    Ok(Turns::Times(value))
}

/// How often PERFORM does its body.
pub fn turns_of(
    scope: &Scope,
    findings: &mut Vec<Finding>,
    line: u32,
    given: Option<&Loop>,
) -> Result<Turns, AllocError>
    ensures value { IfOk result (λ turns. plain_turns turns ≡ (turns_of scope.now (option_map plain_loop (option_copied given.entry))).value) }
    ensures noted { OnOk result (findings.new.items ≡ noted line findings.old.items (turns_of scope.now (option_map plain_loop (option_copied given.entry))).broken) }
{
    match given {
        None => Ok(Turns::Once),
        Some(Loop::Times(count)) => turns_times(scope, findings, line, count),
        Some(
            Loop::Until {
                test,
                varying,
                until,
            },
        ) => {
            let logic = condition(scope, findings, line, until)?;
            Ok(turns_until(scope, findings, line, *test, varying.as_ref(), logic)?)
        }
    }
}

// ---- paragraphs

fn the_para(
    scope: &Scope,
    findings: &mut Vec<Finding>,
    line: u32,
    name: &Name,
) -> Result<u32, AllocError>
    ensures value { IfOk result (λ place. place ≡ (the_para scope.now name.now).value) }
    ensures noted { OnOk result (findings.new.items ≡ noted line findings.old.items (the_para scope.now name.now).broken) }
{
    Ok(exactly_one(findings, line, scope.para(name.get()))?)
}

fn last_para(
    scope: &Scope,
    findings: &mut Vec<Finding>,
    line: u32,
    first: u32,
    thru: Option<&Name>,
) -> Result<u32, AllocError>
    ensures value { IfOk result (λ place. place ≡ (last_para scope.now first (option_copied thru.entry)).value) }
    ensures noted { OnOk result (findings.new.items ≡ noted line findings.old.items (last_para scope.now first (option_copied thru.entry)).broken) }
{
    match thru {
        None => Ok(first),
        Some(name) => the_para(scope, findings, line, name),
    }
}

/// PERFORM of paragraphs.
pub fn range_act(
    scope: &Scope,
    findings: &mut Vec<Finding>,
    line: u32,
    first: &Name,
    thru: Option<&Name>,
    turns: Option<&Loop>,
) -> Result<Act, AllocError>
    ensures value { IfOk result (λ act. plain_act act ≡ (range_act scope.now first.now (option_copied thru.entry) (option_map plain_loop (option_copied turns.entry))).value) }
    ensures noted { OnOk result (findings.new.items ≡ noted line findings.old.items (range_act scope.now first.now (option_copied thru.entry) (option_map plain_loop (option_copied turns.entry))).broken) }
{
    let first = the_para(scope, findings, line, first)?;
    let last = last_para(scope, findings, line, first, thru)?;
    let turns = turns_of(scope, findings, line, turns)?;
    Ok(perform_of(range_of(first, last), turns))
}

/// GO TO
pub fn go_act(
    scope: &Scope,
    findings: &mut Vec<Finding>,
    line: u32,
    name: &Name,
) -> Result<Act, AllocError>
    ensures value { IfOk result (λ act. plain_act act ≡ (go_act scope.now name.now).value) }
    ensures noted { OnOk result (findings.new.items ≡ noted line findings.old.items (go_act scope.now name.now).broken) }
{
    Ok(go_of(the_para(scope, findings, line, name)?))
}
