//! Statements that hold statements, put together where contracts see them as plain data.
ghost use Rattle.std.specs.Prelude.{◌≡◌, map};
ghost use Rattle.cob_program.specs.Act.{arith, if_, evaluate, perform, go, stop, read, MkWhen, range, inline};
ghost use Rattle.cob_program.specs.ActView.{plain_act, plain_when, plain_body, plain_stmts, plain_phrase, plain_whens, plain_turns};
ghost use Rattle.cob_program.specs.LogicView.{plain_logic};
ghost use Rattle.cob_program.specs.SumView.{plain_sum};

use cob_program::{Act, Body, Logic, Stmt, Turns, When};
use cob_tree::Many;
use cob_typed_verbs::Worked;

pub fn arith_of(worked: Worked, size: Option<Vec<Stmt>>, fine: Vec<Stmt>) -> Act
    ensures { plain_act result ≡ arith (plain_sum worked.common) worked.targets.items worked.remainder (plain_phrase size) (plain_stmts fine.items) }
{
    Act::Arith {
        common: worked.common,
        targets: Many::of(worked.targets),
        remainder: worked.remainder,
        size,
        fine,
    }
}

pub fn if_of(test: Logic, yes: Vec<Stmt>, no: Vec<Stmt>) -> Act
    ensures { plain_act result ≡ if_ (plain_logic test) (plain_stmts yes.items) (plain_stmts no.items) }
{
    Act::If { test, yes, no }
}

pub fn evaluate_of(whens: Vec<When>, other: Vec<Stmt>) -> Act
    ensures { plain_act result ≡ evaluate (plain_whens whens.items) (plain_stmts other.items) }
{
    Act::Evaluate { whens, other }
}

pub fn when_of(tests: Vec<Logic>, body: Vec<Stmt>) -> When
    ensures { plain_when result ≡ MkWhen (map plain_logic tests.items) (plain_stmts body.items) }
{
    When {
        tests: Many::of(tests),
        body,
    }
}

pub fn range_of(first: u32, last: u32) -> Body
    ensures { plain_body result ≡ range first last }
{
    Body::Range { first, last }
}

pub fn inline_of(body: Vec<Stmt>) -> Body
    ensures { plain_body result ≡ inline (plain_stmts body.items) }
{
    Body::Inline(body)
}

pub fn perform_of(body: Body, turns: Turns) -> Act
    ensures { plain_act result ≡ perform (plain_body body) (plain_turns turns) }
{
    Act::Perform { body, turns }
}

pub fn go_of(place: u32) -> Act
    ensures { plain_act result ≡ go place }
{
    Act::Go(place)
}

pub fn stop() -> Act
    ensures { plain_act result ≡ stop }
{
    Act::Stop
}

pub fn read_of(file: u32, into: Option<u32>, end: Option<Vec<Stmt>>, fine: Vec<Stmt>) -> Act
    ensures { plain_act result ≡ read file into (plain_phrase end) (plain_stmts fine.items) }
{
    Act::Read {
        file,
        into,
        end,
        fine,
    }
}
