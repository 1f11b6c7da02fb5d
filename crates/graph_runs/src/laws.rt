//! What holds of a program's graph as a system, and of each run against it.
ghost use Rattle.cob_graph.specs.declared.graph.Graph.{Graph};
ghost use Rattle.cob_program.specs.Act.{Program};
ghost use Rattle.dom_laws.specs.Flow.{IsInductive};
ghost use Rattle.dom_laws.specs.Meaning.{IsGranted};
ghost use Rattle.graph_runs.specs.Clearing.{ClearIsFaultless, ClearedIsNotMet, IsLayerOf};
ghost use Rattle.graph_runs.specs.Flows.{GraphsAreFlows};
ghost use Rattle.graph_runs.specs.Following.{FaultsAreReached, WaysAreFollowed};

use dom_laws::{Layer, Rows};

/// A law: a program's graph is a system, whatever its rows are. Each edge leads from a node to a node, and edges stand
/// in the order of the nodes that they leave.
pub fn graphs_are_flows()
    ensures { GraphsAreFlows }
{}

/// A law: what a program does along its graph follows each way through the graph. Where a way comes to a node, a
/// storage with the way's bytes comes there, whose counters stand for the way's counts.
pub fn ways_are_followed()
    ensures { WaysAreFollowed }
{}

/// A law: each fault that a run meets, whatever files hold, what is undefined and how long it runs, is met at a node of
/// its statement by a storage that comes there.
pub fn faults_are_reached()
    ensures { FaultsAreReached }
{}

/// A law for every layer whose runs are those of a program along its graph, and for rows that the layer's edges keep. A
/// fault is met by no run where the rows of all nodes of its statement clear it. So where each row clears every fault,
/// no run of the program meets one.
pub fn clear_programs_are_faultless<L: Layer, R: Rows>(layer: &L, rows: &R)
    requires inductive { IsInductive (L.lattice layer.now) (L.flow layer.now) (R.row_at rows.now) }
    requires granted { IsGranted (L.flow layer.now) (L.meaning layer.now) }
    ensures cleared { let f = L.flow layer.now in let m = L.meaning layer.now in
        (p : Program) (g : Graph) → IsLayerOf p g f m → ClearedIsNotMet f m (R.row_at rows.now) p g }
    ensures clear { let f = L.flow layer.now in let m = L.meaning layer.now in
        (p : Program) (g : Graph) → IsLayerOf p g f m → ClearIsFaultless f m (R.row_at rows.now) p }
{}
