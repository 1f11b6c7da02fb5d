//! Where the parts of an edge stand.
ghost use Rattle.cell_laws.specs.Places.{ArithmeticIsDone, PartsAreInPlace};

/// A law: each part of an edge stands behind what it needs: a store behind what is read for it and behind the divisors of
/// its sum, a receiver's own number right before its store, a divisor behind those that stand in it.
pub fn parts_are_in_place()
    ensures parts { PartsAreInPlace }
    ensures arithmetic { ArithmeticIsDone }
{}
