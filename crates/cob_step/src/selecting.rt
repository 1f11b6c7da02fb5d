//! EVALUATE (ISO 1989:1985, "The EVALUATE statement").
ghost use Rattle.std.specs.Prelude.{◌≡◌, length, MatchResult};
ghost use Rattle.cob_program.specs.Act as act;
ghost use Rattle.cob_program.specs.ActView.{plain_program, plain_when, plain_stmts, plain_whens};
ghost use Rattle.cob_runs.specs.Files.{Choice};
ghost use Rattle.cob_runs.specs.Steps.{chosen};
ghost use Rattle.cob_world.specs.Doing.{CanDoWhens};
ghost use Rattle.cob_step.specs.Choosing.{when_holds, list_in};

use cob_program::{Stmt, When};
use cob_tree::Kind;
use cob_world::World;

// Whether a WHEN matches.
fn when_holds(world: &World, when: &When) -> Result<bool, Kind>
    requires able { CanDoWhens world.now.program.layout (act.more_whens (plain_when when.now) act.no_whens) }
    ensures { result ≡ when_holds world.now.program.layout world.now.world (plain_when when.now) }
{
    world.some_holds(when.tests.get())
}

fn list_in(when: &When) -> &[Stmt]
    ensures { plain_stmts result.now ≡ list_in (plain_when when.now) }
{
    &when.body
}

/// The list of the first WHEN that matches, or else that of WHEN OTHER.
pub fn chosen<'a>(world: &World, whens: &'a [When], other: &'a [Stmt]) -> Result<&'a [Stmt], Kind>
    requires able { CanDoWhens world.now.program.layout (plain_whens whens.now) }
    ensures { MatchResult result
        (λ list. (c : Choice) → chosen (plain_program world.now.program) c world.now.world (plain_whens whens.now)
        (plain_stmts other.now) ≡ Ok (plain_stmts list.now))
        (λ kind. (c : Choice) → chosen (plain_program world.now.program) c world.now.world (plain_whens whens.now)
        (plain_stmts other.now) ≡ Err kind) }
{
    for when in whens {
        match when_holds(world, when) {
            Err(kind) => return Err(kind),
            Ok(true) => return Ok(list_in(when)),
            Ok(false) => {}
        }
    }
    Ok(other)
}
