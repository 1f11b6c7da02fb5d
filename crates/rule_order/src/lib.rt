//! The first broken rule of a table, and the first line that breaks it. The rules on data, on typing and on nesting
//! are told in this order.
#![tactic(auto)]

ghost use Rattle.std.specs.Prelude.{◌≡◌};
ghost use Rattle.rule_order.specs.Order.{lesser, noted};

/// The lesser of two lines, where there are any.
pub fn lesser(a: Option<u32>, b: Option<u32>) -> Option<u32>
    ensures { result ≡ lesser a b }
{
    match (a, b) {
        (None, other) => other,
        (Some(line), None) => Some(line),
        (Some(line), Some(other)) => Some(line.min(other)),
    }
}

/// The least line so far, with one more where this is broken.
pub fn noted(least: Option<u32>, broken: bool, line: u32) -> Option<u32>
    ensures { result ≡ noted least broken line }
{
    if broken {
        lesser(least, Some(line))
    } else {
        least
    }
}
