//! What holds of each edge of a source's program.
ghost use Rattle.cell_laws.specs.Sizes.{EdgesAreSmallOfSources};

/// A law: along each edge of a source's program machine words hold the numbers of divisors, of stores, of tests and of
/// counters, whatever is known of items within their pictures.
pub fn edges_are_small_of_sources()
    ensures { EdgesAreSmallOfSources }
{}
