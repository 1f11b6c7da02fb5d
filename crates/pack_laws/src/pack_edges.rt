//! Laws of edges, over packs of cells.
ghost use Rattle.pack_laws.specs.Showing.{AmountsAreShown, OperandsAreThere, SendersAreShown, CountersAreShown, DivisorsAreShown, GuardsKeep};
ghost use Rattle.pack_laws.specs.Rising.{AmountsRise, SendersRise, LoweredFormsRise, DivisorsRise, DifferencesRise, SignsRise};
ghost use Rattle.pack_laws.specs.EdgeLaws.{PostsStand, ClearedIsntMet, PostsFit, PostsRise, ClearsStay};

/// A law: what a receiver, a counter or a divisor gets is one of the numbers that its form over a pack's cells can be, its
/// operands have a range, and what a test leaves of a pack is true of the storage in which it came out so.
pub fn amounts_are_shown()
    ensures amounts { AmountsAreShown }
    ensures operands { OperandsAreThere }
    ensures senders { SendersAreShown }
    ensures counters { CountersAreShown }
    ensures divisors { DivisorsAreShown }
    ensures guards { GuardsKeep }
{}

/// A law: where less is seen before a store, the form of what is stored is narrower, and its sign is surer.
pub fn amounts_rise()
    ensures amounts { AmountsRise }
    ensures senders { SendersRise }
    ensures counters { LoweredFormsRise }
    ensures signs { SignsRise }
{}

/// A law: where less is seen, the forms of divisors and of the two sides of a relation are narrower.
pub fn differences_rise()
    ensures divisors { DivisorsRise }
    ensures differences { DifferencesRise }
{}

/// A law: what is known of differences behind an edge is true of the storage to which its parts lead.
pub fn posts_stand()
    ensures { PostsStand }
{}

/// A law: a fault that an edge clears by both layers is met by none of its parts.
pub fn cleared_faults_are_not_met()
    ensures { ClearedIsntMet }
{}

/// A law: what an edge makes of matrices are matrices, and no higher where less is known of cells or of differences; what is
/// cleared stays so.
pub fn posts_rise()
    ensures fits { PostsFit }
    ensures rises { PostsRise }
    ensures stays { ClearsStay }
{}
