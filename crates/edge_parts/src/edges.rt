//! What an edge is: one of size errors, and of a single receiver.
ghost use Rattle.std.specs.Prelude.{◌≡◌};
ghost use Rattle.cob_program.specs.ActView.{plain_act, plain_phrase};
ghost use Rattle.cob_runs.specs.Steps.{is_given};
ghost use Rattle.cob_edge_parts.specs.Parts.{has_phrase, is_handled};
ghost use Rattle.cell_steps.specs.Stores.{is_one_receiver, has_one_receiver, keeps_receiver};

use cob_program::{Act, Stmt, Target};
use cob_runs::Action;

fn is_given(phrase: &Option<Vec<Stmt>>) -> bool
    ensures { result ≡ is_given (plain_phrase phrase.now) }
{
    match phrase {
        None => false,
        Some(_) => true,
    }
}

/// Whether a statement has the SIZE ERROR phrase.
pub fn has_phrase(act: &Act) -> bool
    ensures { result ≡ has_phrase (plain_act act.now) }
{
    match act {
        Act::Arith { size, .. } => is_given(size),
        _ => false,
    }
}

/// Whether an edge goes to the list of ON SIZE ERROR.
pub fn is_handled(act: &Act, action: Action) -> bool
    ensures { result ≡ is_handled (plain_act act.now) action }
{
    match action {
        Action::Size => has_phrase(act),
        _ => false,
    }
}

fn is_one_receiver(targets: &[Target], remainder: Option<u32>) -> bool
    ensures { result ≡ is_one_receiver targets.now remainder }
{
    match (targets, remainder) {
        ([_], None) => true,
        _ => false,
    }
}

// Whether a statement has one receiver, and no REMAINDER.
fn has_one_receiver(act: &Act) -> bool
    ensures { result ≡ has_one_receiver (plain_act act.now) }
{
    match act {
        Act::Arith {
            targets,
            remainder,
            ..
        } => is_one_receiver(targets.get(), *remainder),
        _ => false,
    }
}

/// Whether an edge goes to the list of ON SIZE ERROR of a statement with one receiver, which has failed there and keeps its
/// value.
pub fn keeps_receiver(act: &Act, action: Action) -> bool
    ensures { result ≡ keeps_receiver (plain_act act.now) action }
{
    is_handled(act, action) && has_one_receiver(act)
}
