//! What holds of the counter of each PERFORM with TIMES.
ghost use Rattle.graph_runs.specs.Counts.{CountersArePositive, CountsArePositive};
ghost use Rattle.graph_runs.specs.Sent.{SentCountsAreShort};

/// A law: where a way through a program's graph comes to a node that counts down, its counter is above 0, and so is each
/// counter that stands for it. A loop's body and its counting down are entered by its test alone, also where GO TO
/// leaves them or a paragraph is performed from several places; and as no PERFORM performs itself, its counter is set by
/// none of the statements in its body.
pub fn counts_are_positive()
    ensures counts { CountsArePositive }
    ensures counters { CountersArePositive }
{}

/// A law: the number that a counter is set to has at most 18 digits, as have numeric items and numerals.
pub fn sent_counts_are_short()
    ensures { SentCountsAreShort }
{}
