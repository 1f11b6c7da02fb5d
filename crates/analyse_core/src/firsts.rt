//! The first so many numbers, each once.
ghost use Rattle.std.specs.Prelude.{◌≡◌, ◌==◌, OnOk};
ghost use Rattle.analyse_core.specs.Firsts.{holds, noted};

use std::alloc::AllocError;

/// Whether a list holds a number.
pub fn holds(list: &[u32], number: u32) -> bool
    ensures { result ≡ holds (λ a b. a == b) list.now number }
{
    for other in list {
        if *other == number {
            return true;
        }
    }
    false
}

/// Adds a number to a list of so many at most, unless it holds it.
pub fn note(list: &mut Vec<u32>, most: usize, number: u32) -> Result<(), AllocError>
    ensures { OnOk result (list.new.items ≡ noted (λ a b. a == b) most list.old.items number) }
{
    if holds(list.as_slice(), number) || most <= list.len() {
        return Ok(());
    }
    list.push(number)?;
    Ok(())
}
