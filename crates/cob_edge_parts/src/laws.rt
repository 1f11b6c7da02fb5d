//! What holds of the parts of each edge.
ghost use Rattle.cob_edge_parts.specs.Edges.{FaultsAreMet, PartsArePassed, PartsArePassedBeside};
ghost use Rattle.cob_edge_parts.specs.Ranges.{OccurrencesChangeAlone, RangesChangeAlone};

/// Where an edge is taken, its parts are passed in turn and leave storage and counters as the edge does, also with
/// counters that stand for those that no loop has set. Where its statement meets a fault, one of the parts meets it,
/// behind others that are passed.
pub fn parts_do_what_edges_do()
    ensures passed { PartsArePassed }
    ensures beside { PartsArePassedBeside }
    ensures met { FaultsAreMet }
{}

/// An area that changes, and an item's occurrence that gets as many bytes as it has, leave storage apart from them as
/// it is, and so each other occurrence.
pub fn parts_change_their_bytes_alone()
    ensures ranges { RangesChangeAlone }
    ensures occurrences { OccurrencesChangeAlone }
{}
