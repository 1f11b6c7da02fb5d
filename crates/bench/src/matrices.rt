//! Measures `close` and `close_row` of `diff_bounds` on generated matrices for eight
//! cells, for bench/matrices. The number is how often the matrices are gone through; the sums of the words go to
//! standard output, and the times to standard error.

use crate::matrix_inputs::{Changed, Matrix, Numbers, Shape};
use diff_bounds::{close, close_row};
use std::alloc::{AllocError, Global};
use std::io;
use std::time::CpuClock;

const INPUTS: u32 = 64;

fn matrices(alloc: Global, shape: Shape) -> Result<Vec<Matrix>, AllocError> {
    let mut numbers = Numbers::new();
    let mut all = Vec::new(alloc);
    for _ in 0..INPUTS {
        all.push(numbers.matrix(shape)).map_err(AllocError::from)?;
    }
    Ok(all)
}

fn sum_of_words(words: &[i128]) -> i128 {
    let mut sum: i128 = 0;
    for word in words {
        sum = sum.wrapping_add(*word);
    }
    sum
}

// copies each matrix and closes it, and adds up a word of each
fn sum_of_closures(matrices: &[Matrix], turns: u32) -> i128 {
    let mut sum: i128 = 0;
    for turn in 0..turns {
        for matrix in matrices {
            let mut words = matrix.words;
            if close(8, &mut words) {
                sum = sum.wrapping_add(words[(turn as usize + 1) % 81]);
            }
        }
    }
    sum
}

fn sum_of_all(matrices: &[Matrix]) -> i128 {
    let mut sum: i128 = 0;
    for matrix in matrices {
        let mut words = matrix.words;
        if close(8, &mut words) {
            sum = sum.wrapping_add(sum_of_words(&words));
        }
    }
    sum
}

fn measure(rt: &HostRuntime, name: &str, shape: Shape, turns: u32) -> io::Result<()> {
    let matrices = matrices(rt.alloc(), shape)?;
    let all = sum_of_all(&matrices);
    let start = rt.process_cpu_time()?;
    let sum = sum_of_closures(&matrices, turns);
    let taken = rt.process_cpu_time()?.saturating_sub(start).as_nanos();
    println!(rt; "{name} {all} {sum}")?;
    eprintln!(rt; "{name} {taken}")
}

// the dense matrices closed, and then each changed in a row
fn changed_matrices(alloc: Global) -> Result<Vec<Changed>, AllocError> {
    let mut numbers = Numbers::new();
    let mut all = Vec::new(alloc);
    for matrix in matrices(alloc, Shape::Dense)? {
        let at = (numbers.next() % 9) as usize;
        if let Some(changed) = numbers.changed(&matrix, at) {
            all.push(changed).map_err(AllocError::from)?;
        }
    }
    Ok(all)
}

fn sum_of_row_closures(matrices: &[Changed], turns: u32) -> i128 {
    let mut sum: i128 = 0;
    for turn in 0..turns {
        for matrix in matrices {
            let mut words = matrix.words;
            if close_row(8, &mut words, matrix.at) {
                sum = sum.wrapping_add(words[(turn as usize + 1) % 81]);
            }
        }
    }
    sum
}

fn sum_of_all_rows(matrices: &[Changed]) -> i128 {
    let mut sum: i128 = 0;
    for matrix in matrices {
        let mut words = matrix.words;
        if close_row(8, &mut words, matrix.at) {
            sum = sum.wrapping_add(sum_of_words(&words));
        }
    }
    sum
}

fn measure_rows(rt: &HostRuntime, turns: u32) -> io::Result<()> {
    let matrices = changed_matrices(rt.alloc())?;
    let all = sum_of_all_rows(&matrices);
    let start = rt.process_cpu_time()?;
    let sum = sum_of_row_closures(&matrices, turns);
    let taken = rt.process_cpu_time()?.saturating_sub(start).as_nanos();
    println!(rt; "row {all} {sum}")?;
    eprintln!(rt; "row {taken}")
}

/// Goes through the matrices so often.
pub(super) fn time_matrices(rt: &HostRuntime, turns: u32) -> io::Result<()> {
    measure(rt, "dense", Shape::Dense, turns)?;
    measure(rt, "chain", Shape::Chain, turns)?;
    measure_rows(rt, turns)
}
