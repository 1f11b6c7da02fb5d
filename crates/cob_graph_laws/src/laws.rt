//! What holds of each program's graph, and of each way through it.
ghost use Rattle.cob_graph.specs.Graphs.{OneCount, OneGraph, OneMainCopy};
ghost use Rattle.cob_graph_laws.specs.AsLaid.{EdgesAreLaid, NodesAreLaid};
ghost use Rattle.cob_graph_laws.specs.Kept.{UnmadeFilesAreKept};
ghost use Rattle.cob_graph_laws.specs.Told.{WaysTellOfRuns};
ghost use Rattle.cob_graph_laws.specs.Ways.{RunsAreWays};

/// A law: so many steps of a run are a way through the graph from its first node, with the same storage, files and shown
/// text. While the run goes on the way has left as many nodes at which a step begins, and stands at one of the statement
/// that is to be done next. Once the run is over it has left at most as many: then it stands at the final node, has come
/// there by an edge on which a statement meets the status that ends the run, or stands at a node of the statement that
/// meets the fault, on one of its edges. A status ends the run where neither FILE STATUS nor AT END handles it, and no
/// other edge of the way has such a status.
pub fn runs_are_ways()
    ensures { RunsAreWays }
{}

/// A law, of runs in which what a statement leaves undefined keeps what stood there. A way to the final node tells
/// after how many steps the run has ended, and with which world; a way to a node with an edge on which its statement
/// meets a fault, or a status that nothing handles, tells that the run is over so. In each case it goes on before. A
/// way to a node at which a step begins tells that the run goes on, with which world, and with which statement.
pub fn ways_tell_of_runs()
    ensures { WaysTellOfRuns }
{}

/// A law: a file that no statement opens for output holds, after any number of steps, what it held at the beginning,
/// and isn't being written then.
pub fn unmade_files_are_kept()
    ensures { UnmadeFilesAreKept }
{}

/// A law: the nodes and edges of a graph are those of the program with its copies written in.
pub fn graphs_are_as_laid()
    ensures nodes { NodesAreLaid }
    ensures edges { EdgesAreLaid }
{}

/// A law: a program has one main copy at most, one count of nodes and one graph.
pub fn graphs_are_one()
    ensures copy { OneMainCopy }
    ensures count { OneCount }
    ensures graph { OneGraph }
{}
