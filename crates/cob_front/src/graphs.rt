//! From a program to its control graph, or why there is none.
ghost use Rattle.std.specs.Prelude.{◌≡◌, ℕ, Err};
ghost use Rattle.cob_data.specs.declared.end.Rule.{Rule};
ghost use Rattle.cob_data.specs.declared.end.Which.{Which};
ghost use Rattle.cob_program.specs.ActView.{plain_program};
ghost use Rattle.cob_graph.specs.Nesting.{IsNested, IsOutside};
ghost use Rattle.cob_graph.specs.Graphs.{IsGraph, IsOver};
ghost use Rattle.cob_front.specs.declared.refusal.Refusal.{Refusal as End};
ghost use Rattle.cob_front.specs.declared.refusal.Refusal.TheVariants as front;
ghost use Rattle.cob_front.specs.Source.{Answers, IsRefused};
ghost use Rattle.cob_front.specs.Control.{IsControlCause};

use crate::refusal::Refusal;
use cob_graph_build::{FlowEnd, Graph, graph_of, nested};
use cob_program::Program;
use std::alloc::Global;

// The graph of a program whose PERFORMs nest.
fn laid_out(alloc: Global, program: &Program) -> Result<Graph, Refusal>
    requires { IsNested (plain_program program.now) }
    ensures answer { Answers (IsGraph (plain_program program.now)) (IsControlCause (plain_program program.now)) result }
    ensures inside { (rule : Rule) (line : ℕ) → result ≡ Err (front.Outside rule line) → ⊥ }
    ensures limits { (which : Which) (count : ℕ) → IsOver (plain_program program.now) which count
        → IsRefused result (front.Limit which count) }
{
    match graph_of(alloc, program) {
        Ok(graph) => Ok(graph),
        Err(FlowEnd::Outside { .. }) => unreachable!(),
        Err(FlowEnd::Limit { which, count }) => Err(Refusal::Limit { which, count }),
        Err(FlowEnd::Memory) => Err(Refusal::Memory),
    }
}

/// The control graph of a program. Or the first broken rule on how PERFORMs nest and where GO TOs go, with its first
/// line; or else the count of cells, or of nodes, that exceeds its limit.
pub fn graph_in(alloc: Global, program: &Program) -> Result<Graph, Refusal>
    ensures answer { Answers (IsGraph (plain_program program.now)) (IsControlCause (plain_program program.now)) result }
    ensures outside { (rule : Rule) (line : ℕ) → IsOutside (plain_program program.now) rule line
        → IsRefused result (front.Outside rule line) }
    ensures refused { (end : End) → IsControlCause (plain_program program.now) end → IsRefused result end }
{
    match nested(alloc, program) {
        Ok(()) => laid_out(alloc, program),
        Err(FlowEnd::Outside { rule, line }) => Err(Refusal::Outside { rule, line }),
        Err(FlowEnd::Limit { .. }) => unreachable!(),
        Err(FlowEnd::Memory) => Err(Refusal::Memory),
    }
}
