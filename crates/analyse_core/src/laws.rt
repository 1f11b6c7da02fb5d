//! What follows for all programs.
ghost use Rattle.analyse_core.specs.Assignments.{CertificatesAssign};
ghost use Rattle.analyse_core.specs.Plain.{PlainEvaluationAssigns};

/// A law: on a graph without edges that go back, the plain evaluation is one of the assignments of which the analysis
/// misses nothing. Each node's element is the join of what comes along its edges, in the order of their sources.
pub fn plain_evaluation_assigns()
    ensures { PlainEvaluationAssigns }
{}

/// What a certificate without leaks claims of cells is an assignment with thresholds at its heads, if the ends that it
/// writes there are thresholds: the analysis clears what it clears.
pub fn certificates_assign()
    ensures { CertificatesAssign }
{}
