//! Cases of exact decimals.
use dec_num::{Fit, Mode, Quot, SIZE_LIMIT, Scaled, fit, pow10, quot};
use std::alloc::{AllocError, Global};

fn mode_of(word: &str) -> Option<Mode> {
    match word {
        "cut" => Some(Mode::Trunc),
        "rounded" => Some(Mode::Round),
        _ => None,
    }
}

fn shown(alloc: Global, number: i128) -> Result<Option<String>, AllocError> {
    Ok(Some(format!(in alloc; "{number}")?))
}

fn word(alloc: Global, word: &str) -> Result<Option<String>, AllocError> {
    Ok(Some(String::from_str(alloc, word)?))
}

// A dividend, a divisor, and the power of ten that the quotient is multiplied by.
fn division_of(n: &str, d: &str, up: &str) -> Option<(i128, i128, i32)> {
    Some((
        n.parse::<i128>().ok()?,
        d.parse::<i128>().ok()?,
        up.parse::<i32>().ok()?,
    ))
}

fn divide(
    alloc: Global,
    n: i128,
    d: i128,
    up: i32,
    mode: Mode,
) -> Result<Option<String>, AllocError> {
    if SIZE_LIMIT <= n.unsigned_abs() || SIZE_LIMIT <= d.unsigned_abs() || up < -37 || 55 < up {
        return Ok(None);
    }
    match quot(n, d, up, mode) {
        Quot::ZeroDivisor => word(alloc, "zero"),
        Quot::Over => word(alloc, "over"),
        Quot::Is(quotient) => shown(alloc, quotient),
    }
}

/// `quotient N D UP cut|rounded`: N * 10^UP / D.
pub fn quotient_case(alloc: Global, given: &[&str]) -> Result<Option<String>, AllocError> {
    match given {
        [n, d, up, mode] => match (division_of(n, d, up), mode_of(mode)) {
            (Some((n, d, up)), Some(mode)) => divide(alloc, n, d, up, mode),
            _ => Ok(None),
        },
        _ => Ok(None),
    }
}

// A value, and the digits and the scale of its receiver.
fn receiver_of(units: &str, scale: &str, digits: &str, to: &str) -> Option<(Scaled, u32, u32)> {
    let value = Scaled {
        units: units.parse::<i128>().ok()?,
        scale: scale.parse::<u32>().ok()?,
    };
    Some((value, digits.parse::<u32>().ok()?, to.parse::<u32>().ok()?))
}

fn fit_in(
    alloc: Global,
    value: Scaled,
    digits: u32,
    scale: u32,
    mode: Mode,
) -> Result<Option<String>, AllocError> {
    if SIZE_LIMIT <= value.units.unsigned_abs() || 37 < value.scale {
        return Ok(None);
    }
    if digits < 1 || 18 < digits || digits < scale {
        return Ok(None);
    }
    match fit(value, digits, scale, mode) {
        Fit::TooBig => word(alloc, "big"),
        Fit::Stored(units) => shown(alloc, units as i128),
    }
}

/// `fit UNITS SCALE DIGITS SCALE cut|rounded`: the units of a value in a receiver.
pub fn fit_case(alloc: Global, given: &[&str]) -> Result<Option<String>, AllocError> {
    match given {
        [units, scale, digits, to, mode] => {
            match (receiver_of(units, scale, digits, to), mode_of(mode)) {
                (Some((value, digits, to)), Some(mode)) => fit_in(alloc, value, digits, to, mode),
                _ => Ok(None),
            }
        }
        _ => Ok(None),
    }
}

/// `power K`: the power of ten.
pub fn power_case(alloc: Global, given: &[&str]) -> Result<Option<String>, AllocError> {
    match given {
        [exponent] => match exponent.parse::<u32>() {
            Ok(exponent) if exponent <= 38 => shown(alloc, pow10(exponent)),
            _ => Ok(None),
        },
        _ => Ok(None),
    }
}
