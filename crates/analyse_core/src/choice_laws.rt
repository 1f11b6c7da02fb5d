//! What holds of all programs.
ghost use Rattle.analyse_core.specs.Reaching.{ReachedAreMarked};

/// A law: the paragraphs that are marked as reached from a statement are just those that it performs, or that a reached
/// one performs.
pub fn reached_paragraphs_are_marked()
    ensures { ReachedAreMarked }
{}
