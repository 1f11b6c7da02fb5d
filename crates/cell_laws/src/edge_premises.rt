//! What holds of each edge of a source's program.
ghost use Rattle.cell_laws.specs.Edges.{EdgesAreSoundOfSources};

/// A law: a source's program has sound items, each counter is a TIMES', its edges store values in numeric and edited
/// items alone, and change bytes within storage.
pub fn edges_are_sound_of_sources()
    ensures { EdgesAreSoundOfSources }
{}
