//! Exact decimals: sums, products and quotients of numbers with a decimal point, and their cutting
//! or rounding to the digits of a receiver, as the arithmetic statements of ISO 1989:1985 need them.
//!
//! A decimal is a pair of units and scale; `Scaled { units: 1234, scale: 2 }` is 12.34. No call takes
//! memory, and none loses a digit without saying so.
#![tactic(auto)]

mod fitting;
mod limits;
mod quotient;
mod rounding;
mod scaled;
mod tens;
mod types;

pub use fitting::fit;
pub use limits::{LIMIT, NO_NUMBER, SIZE_LIMIT};
pub use quotient::quot;
pub use scaled::{add, align, mul, sub};
pub use tens::pow10;
pub use types::{Fit, Mode, Quot, Scaled};
