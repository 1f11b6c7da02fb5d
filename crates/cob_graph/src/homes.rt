//! What the cells of a program are of: items, and counters of PERFORM with TIMES.
ghost use Rattle.std.specs.Prelude.{◌≡◌, ◌+◌, ◌++◌, ◌∷◌, [], OnOk, IfOk};
ghost use Rattle.cob_tree.specs.declared.form.Form.TheVariants as form;
ghost use Rattle.cob_program.specs.ActView.{plain_act, plain_stmt, plain_turns, plain_program};
ghost use Rattle.cob_program.specs.Statements.{plain_references, program_statements};
ghost use Rattle.cob_runs.specs.Contents.{scale_of};
ghost use Rattle.cob_graph.specs.declared.homes.Home.TheVariants.{Item as of_item};
ghost use Rattle.cob_graph.specs.Homes.{home_of, if_named, item_homes, turns_homes, act_homes, stmt_homes, count_homes, homes_of, digits_read, is_signed, cell_of_form, cell_of_home};

use cob_data::{Item, Layout};
use cob_program::{Act, Program, Stmt, Turns};
use cob_runs::Cell;
use cob_tree::Form;
use std::alloc::{AllocError, Global};

/// What a cell is of.
#[derive(Clone, Copy, PartialEq, Eq)]
pub enum Home {
    /// The item at a place.
    Item(u32),
    /// The counter of the PERFORM with TIMES that has a statement's number.
    Count(u32),
}

/// The longest text that has a cell.
const LONGEST_TEXT: u32 = 18;

// ---- homes of items

fn following(place: u32) -> Result<u32, AllocError>
    ensures { IfOk result (λ next. next ≡ place + 1) }
{
    match place.checked_add(1) {
        None => Err(AllocError),
        Some(next) => Ok(next),
    }
}

fn add_item_home(homes: &mut Vec<Home>, place: u32) -> Result<(), AllocError>
    ensures { OnOk result (homes.new.items ≡ homes.old.items ++ of_item place ∷ []) }
{
    homes.push(Home::Item(place))?;
    Ok(())
}

fn add_text(homes: &mut Vec<Home>, place: u32, length: u32) -> Result<(), AllocError>
    ensures { OnOk result (homes.new.items ≡ homes.old.items ++ home_of place (form.Text length)) }
{
    if length <= LONGEST_TEXT {
        add_item_home(homes, place)
    } else {
        Ok(())
    }
}

fn add_form(homes: &mut Vec<Home>, place: u32, form: &Form) -> Result<(), AllocError>
    ensures { OnOk result (homes.new.items ≡ homes.old.items ++ home_of place form.now) }
{
    match form {
        Form::Number { .. } => add_item_home(homes, place),
        Form::Text { length } => add_text(homes, place, *length),
        Form::Group | Form::Edited { .. } => Ok(()),
    }
}

fn add_item(homes: &mut Vec<Home>, place: u32, item: &Item) -> Result<(), AllocError>
    ensures { OnOk result (homes.new.items ≡ homes.old.items ++ if_named item.now.name (home_of place item.now.form)) }
{
    match item.name {
        None => Ok(()),
        Some(_) => add_form(homes, place, &item.form),
    }
}

fn add_items(homes: &mut Vec<Home>, items: &[Item]) -> Result<(), AllocError>
    ensures { OnOk result (homes.new.items ≡ homes.old.items ++ item_homes 0 items.now) }
{
    let mut place: u32 = 0;
    for item in items {
        add_item(homes, place, item)?;
        place = following(place)?;
    }
    Ok(())
}

// ---- homes of counters

fn add_turns(homes: &mut Vec<Home>, statement: u32, turns: &Turns) -> Result<(), AllocError>
    ensures { OnOk result (homes.new.items ≡ homes.old.items ++ turns_homes statement (plain_turns turns.now)) }
{
    match turns {
        Turns::Times(_) => {
            homes.push(Home::Count(statement))?;
            Ok(())
        }
        Turns::Once | Turns::Until { .. } | Turns::Varying { .. } => Ok(()),
    }
}

fn add_act(homes: &mut Vec<Home>, statement: u32, act: &Act) -> Result<(), AllocError>
    ensures { OnOk result (homes.new.items ≡ homes.old.items ++ act_homes statement (plain_act act.now)) }
{
    match act {
        Act::Perform { turns, .. } => add_turns(homes, statement, turns),
        _ => Ok(()),
    }
}

fn add_statement(homes: &mut Vec<Home>, statement: &Stmt) -> Result<(), AllocError>
    ensures { OnOk result (homes.new.items ≡ homes.old.items ++ stmt_homes (plain_stmt statement.now)) }
{
    add_act(homes, statement.number, &statement.act)
}

fn add_counters(homes: &mut Vec<Home>, statements: &[&Stmt]) -> Result<(), AllocError>
    ensures { OnOk result (homes.new.items ≡ homes.old.items ++ count_homes (plain_references statements.now)) }
{
    for statement in statements {
        add_statement(homes, statement)?;
    }
    Ok(())
}

/// What each cell of a program is of, in the order of its cells: its named numbers and short texts, and then its
/// PERFORMs with TIMES, of which these are all statements.
pub fn homes_of(
    alloc: Global,
    program: &Program,
    statements: &[&Stmt],
) -> Result<Vec<Home>, AllocError>
    requires { plain_references statements.now ≡ program_statements (plain_program program.now) }
    ensures { IfOk result (λ homes. homes.items ≡ homes_of (plain_program program.now)) }
{
    let mut homes = Vec::new(alloc);
    add_items(&mut homes, program.layout.items.get())?;
    add_counters(&mut homes, statements)?;
    Ok(homes)
}

// ---- cells

fn digits_read(form: &Form) -> u32
    ensures { result ≡ digits_read form.now }
{
    match form {
        Form::Number { digits, .. } | Form::Edited { digits, .. } => *digits,
        Form::Text { length } => *length,
        Form::Group => 0,
    }
}

fn scale_of(form: &Form) -> u32
    ensures { result ≡ scale_of form.now }
{
    match form {
        Form::Number { scale, .. } | Form::Edited { scale, .. } => *scale,
        Form::Text { .. } | Form::Group => 0,
    }
}

fn is_signed(form: &Form) -> bool
    ensures { result ≡ is_signed form.now }
{
    match form {
        Form::Number { signed, .. } => *signed,
        Form::Text { .. } | Form::Edited { .. } | Form::Group => false,
    }
}

fn cell_of_form(place: u32, form: &Form, times: u32) -> Cell
    ensures { result ≡ cell_of_form place form.now times }
{
    Cell {
        item: Some(place),
        digits: digits_read(form),
        scale: scale_of(form),
        signed: is_signed(form),
        times,
    }
}

fn cell_of_item(layout: &Layout, place: u32) -> Cell
    ensures { result ≡ cell_of_home layout.now (of_item place) }
{
    match layout.items.get().get(place as usize) {
        Some(item) => cell_of_form(place, &item.form, item.times),
        None => cell_of_form(place, &Form::Group, 1),
    }
}

/// The cell of a home: the digits, decimals and sign of the numbers that it holds, and for how many occurrences it
/// stands.
pub fn cell_of_home(layout: &Layout, home: Home) -> Cell
    ensures { result ≡ cell_of_home layout.now home }
{
    match home {
        Home::Item(place) => cell_of_item(layout, place),
        Home::Count(_) => Cell {
            item: None,
            digits: 18,
            scale: 0,
            signed: true,
            times: 1,
        },
    }
}
