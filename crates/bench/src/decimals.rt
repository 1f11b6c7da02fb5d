//! Measures `quot` and `fit` of `dec_num` on generated inputs, for bench/decimals. The number is how
//! often the inputs are gone through; the sums of the answers go to standard output, and the times to
//! standard error.

use crate::decimal_inputs::{Division, Numbers, Value};
use dec_num::{Fit, Quot, fit, quot};
use std::alloc::AllocError;
use std::io;
use std::time::CpuClock;

const INPUTS: u32 = 1024;

fn sum_of_quotients(divisions: &[Division], turns: u32) -> i128 {
    let mut sum: i128 = 0;
    for _ in 0..turns {
        for c in divisions {
            let answer = match quot(c.n, c.d, c.up, c.mode) {
                Quot::ZeroDivisor | Quot::Over => 1,
                Quot::Is(q) => q,
            };
            sum = sum.wrapping_add(answer);
        }
    }
    sum
}

fn sum_of_fits(values: &[Value], turns: u32) -> i128 {
    let mut sum: i128 = 0;
    for _ in 0..turns {
        for c in values {
            let answer = match fit(c.value, c.digits, c.scale, c.mode) {
                Fit::TooBig => 2,
                Fit::Stored(z) => z as i128,
            };
            sum = sum.wrapping_add(answer);
        }
    }
    sum
}

/// Goes through the inputs so often.
pub(super) fn time_decimals(rt: &HostRuntime, turns: u32) -> io::Result<()> {
    let mut numbers = Numbers::new();
    let mut divisions = Vec::new(rt.alloc());
    let mut values = Vec::new(rt.alloc());
    for _ in 0..INPUTS {
        divisions
            .push(numbers.division())
            .map_err(AllocError::from)?;
    }
    for _ in 0..INPUTS {
        values.push(numbers.value()).map_err(AllocError::from)?;
    }
    let start = rt.process_cpu_time()?;
    let sum = sum_of_quotients(&divisions, turns);
    let taken = rt.process_cpu_time()?.saturating_sub(start).as_nanos();
    println!(rt; "quot {sum}")?;
    eprintln!(rt; "quot {taken}")?;
    let start = rt.process_cpu_time()?;
    let sum = sum_of_fits(&values, turns);
    let taken = rt.process_cpu_time()?.saturating_sub(start).as_nanos();
    println!(rt; "fit {sum}")?;
    eprintln!(rt; "fit {taken}")
}
