//! The cases, by their calls.
ghost use Rattle.std.specs.Prelude.{◌^◌, ◌<◌, ◌≤◌, ◌≤ℤ◌, unsigned_abs};

use crate::inputs::{Input, class_of, form_of, matrix_of, place_of, range_of};
use crate::rows::{reclose_case, row_case};
use crate::shown::Answer;
use diff_bounds::{Lin, assign, close, demand, lin_add, lin_scale, upper};
use interval_domain::{Interval, class_join, sub_i};

fn close_case(numbers: &[i128]) -> Option<Answer> {
    if numbers.len() != 81 {
        return None;
    }
    let mut m = matrix_of(numbers);
    if close(8, &mut m) {
        Some(Answer::Words(m))
    } else {
        Some(Answer::None)
    }
}

fn upper_case(numbers: &[i128]) -> Option<Answer> {
    let input = Input::of(numbers)?;
    Some(Answer::Number(upper(8, &input.words, &input.form)))
}

#[tactic(auto, using(crate::proofs::Whole::over_all))]
fn demand_case(numbers: &[i128]) -> Option<Answer> {
    let input = Input::of(numbers)?;
    let mut m = input.words;
    demand(8, &mut m, &input.form);
    Some(Answer::Words(m))
}

#[tactic(auto, using(crate::proofs::Whole::over_all))]
fn assign_case(to: usize, numbers: &[i128]) -> Option<Answer>
    requires { to ≤ 8 }
{
    if to == 0 {
        return None;
    }
    let input = Input::of(numbers)?;
    let mut m = input.words;
    assign(8, &mut m, to, &input.form);
    Some(Answer::Words(m))
}

fn reclosed(to: usize, numbers: &[i128]) -> Option<Answer>
    requires { to ≤ 8 }
{
    if to == 0 {
        return None;
    }
    reclose_case(&Input::of(numbers)?, to)
}

fn row_closed(at: usize, numbers: &[i128]) -> Option<Answer>
    requires { at ≤ 8 }
{
    if numbers.len() != 99 {
        return None;
    }
    let m = matrix_of(numbers);
    row_case(&m, at, &numbers[81..90], &numbers[90..])
}

fn form_answer(form: Option<Lin>) -> Option<Answer> {
    match form {
        Some(form) => Some(Answer::Form(form)),
        None => Some(Answer::None),
    }
}

fn add_case(numbers: &[i128]) -> Option<Answer> {
    if numbers.len() != 20 {
        return None;
    }
    form_answer(lin_add(&form_of(&numbers[..10]), &form_of(&numbers[10..])))
}

fn scale_case(by: i128, numbers: &[i128]) -> Option<Answer> {
    if numbers.len() != 10 {
        return None;
    }
    form_answer(lin_scale(&form_of(numbers), by))
}

// ---- ranges and classes

fn difference(a: Interval, b: Interval) -> Interval
    requires a_low { unsigned_abs a.low < 10 ^ 18 }
    requires a_high { unsigned_abs a.high < 10 ^ 18 }
    requires a_ordered { a.low ≤ℤ a.high }
    requires b_low { unsigned_abs b.low < 10 ^ 18 }
    requires b_high { unsigned_abs b.high < 10 ^ 18 }
    requires b_ordered { b.low ≤ℤ b.high }
{
    sub_i(a, b)
}

fn difference_case(numbers: &[i128]) -> Option<Answer> {
    if numbers.len() != 4 {
        return None;
    }
    let a = range_of(numbers[0], numbers[1])?;
    let b = range_of(numbers[2], numbers[3])?;
    Some(Answer::Range(difference(a, b)))
}

/// The answer to a case of two classes, nothing where they can't be read.
pub fn class_case(words: &str) -> Option<Answer> {
    let (a, b) = words.split_once(' ')?;
    Some(Answer::Class(class_join(class_of(a)?, class_of(b)?)))
}

// ---- all

fn answer_at(call: &str, at: usize, numbers: &[i128]) -> Option<Answer>
    requires { at ≤ 8 }
{
    match call {
        "row" => row_closed(at, numbers),
        "assign" => assign_case(at, numbers),
        "reclose" => reclosed(at, numbers),
        _ => None,
    }
}

/// The answer to a case of numbers, nothing where it can't be read.
pub fn answer_to(call: &str, numbers: &[i128]) -> Option<Answer> {
    match call {
        "close" => close_case(numbers),
        "upper" => upper_case(numbers),
        "demand" => demand_case(numbers),
        "add" => add_case(numbers),
        "scale" => scale_case(*numbers.first()?, &numbers[1..]),
        "difference" => difference_case(numbers),
        _ => answer_at(call, place_of(*numbers.first()?)?, &numbers[1..]),
    }
}
