//! Sums, arithmetic statements and conditions as they are worked out at run time (ISO 1989:1985, "Arithmetic
//! statements" and "Conditional expressions"). Each call's contract is its definition. No call takes memory.
#![tactic(auto)]

mod arithmetic;
mod comparing;
mod conditions;
mod contents;
mod exact;
mod laws;
mod numbers;
mod operand;
mod operands;
mod receivers;
mod sides;
mod stored;
mod sums;
mod texts;
mod worked;
mod working;

pub use arithmetic::compute;
pub use contents::Contents;
pub use exact::Exact;
pub use laws::exact_values_are_stored;
