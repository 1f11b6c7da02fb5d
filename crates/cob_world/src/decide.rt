//! Conditions of a world (ISO 1989:1985, "Conditional expressions").
ghost use Rattle.std.specs.Prelude.{◌≡◌, map};
ghost use Rattle.cob_program.specs.Logic.{logics_of};
ghost use Rattle.cob_program.specs.LogicView.{plain_test, plain_logic};
ghost use Rattle.cob_runs.specs.Deciding.{test_holds, logic_holds, some_holds};
ghost use Rattle.cob_calc.specs.Comparing.{CanTest, CanDecide, CanDecideAll};

use crate::world::World;
use cob_calc::Contents;
use cob_program::{Logic, Test};
use cob_tree::Kind;

impl<'p> World<'p> {
    /// Whether a simple condition holds.
    pub fn test(&self, test: &Test) -> Result<bool, Kind>
        requires can { CanTest self.now.program.layout (plain_test test.now) }
        ensures { result ≡ test_holds self.now.program.layout self.now.world.storage (plain_test test.now) }
    {
        Contents::of(&self.program.layout, self.storage.as_slice()).test(test)
    }

    /// Whether a condition holds. It is decided from left to right.
    pub fn holds(&self, condition: &Logic) -> Result<bool, Kind>
        requires can { CanDecide self.now.program.layout (plain_logic condition.now) }
        ensures { result ≡ logic_holds self.now.program.layout self.now.world.storage (plain_logic condition.now) }
    {
        Contents::of(&self.program.layout, self.storage.as_slice()).holds(condition)
    }

    /// Whether one of some conditions holds. They are decided from left to right, until one does.
    pub fn some_holds(&self, conditions: &[Logic]) -> Result<bool, Kind>
        requires can { CanDecideAll self.now.program.layout (logics_of (map plain_logic conditions.now)) }
        ensures { result ≡ some_holds self.now.program.layout self.now.world.storage
            (logics_of (map plain_logic conditions.now)) }
    {
        Contents::of(&self.program.layout, self.storage.as_slice()).some_holds(conditions)
    }
}
