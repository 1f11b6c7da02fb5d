//! Answers in words.
use interval_domain::Interval;
use std::alloc::{AllocError, Global};
use sum_ranges::Ranged;
use transfer_ranges::{Cut, Cuts, Stored};

fn shown_interval(alloc: Global, units: Option<Interval>) -> Result<String, AllocError> {
    match units {
        None => String::from_str(alloc, "none"),
        Some(Interval { low, high }) => format!(in alloc; "{low} {high}"),
    }
}

/// The range of a sum, its scale, and whether a divisor may be 0.
pub fn shown_sum(
    alloc: Global,
    range: Option<Ranged>,
    may_vanish: bool,
) -> Result<String, AllocError> {
    match range {
        None => format!(in alloc; "none {may_vanish}"),
        Some(
            Ranged {
                units: Interval { low, high },
                scale,
            },
        ) => format!(in alloc; "{low} {high} {scale} {may_vanish}"),
    }
}

fn shown_cut(alloc: Global, cut: Option<Cut>) -> Result<String, AllocError> {
    match cut {
        None => String::from_str(alloc, "-"),
        Some(
            Cut {
                item,
                units: Interval { low, high },
            },
        ) => format!(in alloc; "i{item} {low} {high}"),
    }
}

/// What is left of both sides.
pub fn shown_cuts(alloc: Global, cuts: Option<Cuts>) -> Result<String, AllocError> {
    match cuts {
        None => String::from_str(alloc, "none"),
        Some(Cuts { left, right }) => {
            let left = shown_cut(alloc, left)?;
            let right = shown_cut(alloc, right)?;
            format!(in alloc; "{left} {right}")
        }
    }
}

/// What a receiver holds, and whether a result may not fit.
pub fn shown_stored(alloc: Global, stored: Stored) -> Result<String, AllocError> {
    let units = shown_interval(alloc, stored.units)?;
    let may_fail = stored.may_fail;
    format!(in alloc; "{units} {may_fail}")
}
