//! Numbers, places, ranges, classes, matrices and forms, read.
ghost use Rattle.std.specs.Prelude.{◌≡◌, ◌+◌, ◌<◌, ◌≤◌, ◌≤ℤ◌, ◌^◌, neg_ℤ, length, unsigned_abs, IfSome, IsTrue};
ghost use Rattle.diff_bounds.specs.Matrix.{largest, IsMatrix};
ghost use Rattle.diff_bounds.specs.Forms.{IsSmallForm};

use diff_bounds::{LARGEST, Lin, NONE, add_bound, lin_scale};
use interval_domain::{Class, Interval};
use std::alloc::{AllocError, Global};

/// The numbers of a line, without what is none.
pub fn numbers_of(alloc: Global, words: &str) -> Result<Vec<i128>, AllocError> {
    let mut numbers = Vec::new(alloc);
    for word in words.split(' ') {
        if let Some(number) = word.parse::<i128>().ok() {
            numbers.push(number)?;
        }
    }
    Ok(numbers)
}

/// A place of a matrix.
pub fn place_of(number: i128) -> Option<usize>
    ensures { IfSome result (λ place. place ≤ 8) }
{
    if 0 <= number && number <= 8 {
        Some(number as usize)
    } else {
        None
    }
}

/// A number that a word can be, where it is no more than the limit.
pub fn bound_of(number: i128) -> Option<i128>
    ensures { IfSome result (λ most. (neg_ℤ largest ≤ℤ most) × (most ≤ℤ largest)) }
{
    if -LARGEST <= number && number <= LARGEST {
        Some(number)
    } else {
        None
    }
}

// Whether a number has at most 18 digits.
fn is_short(number: i128) -> bool
    ensures { IsTrue result → unsigned_abs number < 10 ^ 18 }
{
    -1_000_000_000_000_000_000 < number && number < 1_000_000_000_000_000_000
}

/// The range between two numbers of at most 18 digits.
pub fn range_of(low: i128, high: i128) -> Option<Interval>
    ensures low { IfSome result (λ range. unsigned_abs range.low < 10 ^ 18) }
    ensures high { IfSome result (λ range. unsigned_abs range.high < 10 ^ 18) }
    ensures ordered { IfSome result (λ range. range.low ≤ℤ range.high) }
{
    if low <= high && is_short(low) && is_short(high) {
        Some(Interval { low, high })
    } else {
        None
    }
}

/// The class that a word is.
pub fn class_of(word: &str) -> Option<Class> {
    match word {
        "unknown" => Some(Class::Unknown),
        "numeric" => Some(Class::Numeric),
        _ => None,
    }
}

fn no_bounds() -> [i128; 81]
    ensures { IsMatrix 8 result }
{
    let mut words = [NONE; 81];
    for place in 0..9usize {
        words[place * 9 + place] = 0;
    }
    words
}

// lowers a word off the diagonal to a number
fn put(m: &mut [i128; 81], row: usize, column: usize, number: i128)
    requires m { IsMatrix 8 m.old }
    requires row { row < 9 }
    requires column { column < 9 }
    ensures { IsMatrix 8 m.new }
{
    if row != column {
        if let Some(most) = bound_of(number) {
            add_bound(8, m, row, column, most);
        }
    }
}

/// The matrix with the first 81 words. Those that no word can be are none.
pub fn matrix_of(numbers: &[i128]) -> [i128; 81]
    requires { 81 ≤ length numbers.now }
    ensures { IsMatrix 8 result }
{
    let mut words = no_bounds();
    for row in 0..9usize {
        for column in 0..9usize {
            put(&mut words, row, column, numbers[row * 9 + column]);
        }
    }
    words
}

/// The form with these coefficients and this constant, whose ends may stand the other way round.
pub fn form_of(numbers: &[i128]) -> Lin
    requires { length numbers.now ≡ 10 }
    ensures { result.constant.low ≤ℤ result.constant.high }
{
    let mut coefs = [0; 8];
    coefs.copy_from_slice(&numbers[..8]);
    Lin {
        coefs,
        constant: Interval {
            low: numbers[8].min(numbers[9]),
            high: numbers[8].max(numbers[9]),
        },
    }
}

/// A matrix and a form over its cells.
#[derive(Clone, Copy)]
pub struct Input {
    pub words: [i128; 81],
    pub form: Lin,
    ghost is_matrix: { IsMatrix 8 words },
    ghost is_small: { IsSmallForm form },
    ghost is_ordered: { form.constant.low ≤ℤ form.constant.high },
}

impl Input {
    /// The input of a list of 91 numbers, where those of the form are below 10^37 in absolute value.
    pub fn of(numbers: &[i128]) -> Option<Input> {
        if numbers.len() != 91 {
            return None;
        }
        let form = lin_scale(&form_of(&numbers[81..]), 1)?;
        let words = matrix_of(numbers);
        Some(Input { words, form })
    }
}
