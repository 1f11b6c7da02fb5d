//! Laws of edges.
ghost use Rattle.cell_laws.specs.Storing.{StoresStand, StoresRise};
ghost use Rattle.cell_laws.specs.EdgeLaws.{EdgesAreWalked, PostsFit, PostsRise, ClearsStay, FlagsRise, PostsStand, ClearedIsntMet};

/// A law: each edge's parts, walked in turn, rise with what is seen before them and keep it true; what is cleared below
/// stays so and isn't met. So what an edge makes of cells lies in their own ranges and rises with what is known of them.
pub fn edges_are_sound()
    ensures walks { EdgesAreWalked }
    ensures fits { PostsFit }
    ensures rises { PostsRise }
    ensures stays { ClearsStay }
{}

/// A law: a store that may keep its receiver's value, or may change it, may do so where more is seen before it.
pub fn flags_rise()
    ensures { FlagsRise }
{}

/// A law: what is known behind a store into one occurrence of an item stands for all of them, however many there are, and
/// for all other items, and rises with what is known before it.
pub fn stores_stand()
    ensures stand { StoresStand }
    ensures rise { StoresRise }
{}

/// A law: what is known behind an edge is true of the storage to which its parts lead.
pub fn posts_stand()
    ensures { PostsStand }
{}

/// A law: a fault that an edge clears is met by none of its parts.
pub fn cleared_faults_are_not_met()
    ensures { ClearedIsntMet }
{}
