//! Laws of how runs end.
ghost use Rattle.cob_interp.specs.OneEnd.{OneEnd, SomeEnd};

/// A law: a run on told files ends in one way within a budget, unless the outside or memory fails.
pub fn one_end()
    ensures { OneEnd }
{}

/// A law: a run on told files ends within a budget, in one of the ways that no refusal tells.
pub fn some_end()
    ensures { SomeEnd }
{}
