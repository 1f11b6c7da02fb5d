//! What holds of each source's program and of its graph.
ghost use Rattle.source_facts.specs.Control.{SourcesHaveGraphsOrCauses, SourcesHaveTargets};
ghost use Rattle.source_facts.specs.Sources.{SourcesHaveSourceGraphs};
ghost use Rattle.source_facts.specs.Statements.{SourcesCountStatements, SourcesNumberStatements};

/// A law: the statements of a source's program have the numbers from one on, in the order of the source, and are as many
/// as the program says; so the number by which a statement is found is one of these.
pub fn statements_are_counted()
    ensures order { SourcesNumberStatements }
    ensures counted { SourcesCountStatements }
{}

/// A law: a source's program with its graph has all that an analysis needs. It can be run; no item is a table's; items
/// that begin with a value have no byte in common; an item whose sign is a byte of its own has a sign; and each
/// statement's number lies within their count.
pub fn sources_have_source_graphs()
    ensures { SourcesHaveSourceGraphs }
{}

/// A law: each GO TO of a source's program goes to a paragraph of it. The program keeps the rules on PERFORM and GO TO and
/// has a graph within the limits; or there is a cause why not: the first rule that it breaks, or too many cells or nodes.
pub fn sources_have_graphs_or_causes()
    ensures targets { SourcesHaveTargets }
    ensures graphs { SourcesHaveGraphsOrCauses }
{}
