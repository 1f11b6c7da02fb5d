//! A plan's node, and what is done there.

/// What is done at a node of the graph, and the numbers of the nodes to which it leads. The number of a test, or of a
/// file in its statement's list, counts from 0.
#[derive(Clone, Copy)]
pub enum Op {
    Skip { to: u32 },
    /// A MOVE, the setting of VARYING, READ's INTO, WRITE's FROM.
    Assign { to: u32 },
    Show { to: u32 },
    SetCount { to: u32 },
    CountDown { to: u32 },
    /// Arithmetic, or the augmenting of VARYING.
    Compute { fine: u32, size: Option<u32> },
    Test { test: u32, held: u32, other: u32 },
    Open { file: u32, fine: u32, bad: u32 },
    Close { file: u32, fine: u32, bad: u32 },
    Read { found: u32, end: u32, bad: u32 },
    Write { fine: u32, bad: u32 },
    Final,
}

/// A node: its statement's number, whether a step begins there, and what is done.
#[derive(Clone, Copy)]
pub struct PlanNode {
    pub statement: u32,
    pub starts: bool,
    pub op: Op,
}
