//! Cases of sums.
use crate::known::{Known, table_of};
use crate::shown::shown_sum;
use case_words::sum_of;
use cob_program::Sum;
use std::alloc::{AllocError, Global};
use sum_ranges::{may_vanish, sum_range};

#[tactic(auto, using(crate::proofs::Bounded::known_are_bounded))]
fn answer_to_sum(alloc: Global, known: &Known, sum: &Sum) -> Result<Option<String>, AllocError> {
    if !known.is_small_sum(sum) {
        return Ok(None);
    }
    let range = sum_range(known, sum);
    let vanishes = may_vanish(known, sum);
    Ok(Some(shown_sum(alloc, range, vanishes)?))
}

/// The range of a sum.
pub fn sum_case(
    alloc: Global,
    items: &[&str],
    words: &[&str],
) -> Result<Option<String>, AllocError> {
    let (Some(table), Some(sum)) = (table_of(alloc, items)?, sum_of(alloc, words)?) else {
        return Ok(None);
    };
    match table.known(alloc)? {
        None => Ok(None),
        Some(known) => answer_to_sum(alloc, &known, &sum),
    }
}
