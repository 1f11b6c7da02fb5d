//! Calls by number, some of which are to fail.

// Which calls of an object are to fail, and how many calls there were.
#[derive(Drop)]
pub struct FailingCalls {
    listed: Vec<u64>,
    made: u64,
}

impl FailingCalls {
    ghost use Rattle.batch_io.specs.Failing.{NumbersCall, StartsCalls};

    // The calls of these numbers are to fail. The first call has the number 1.
    pub fn new(listed: Vec<u64>) -> FailingCalls
        ensures { StartsCalls listed.items result }
    {
        FailingCalls { listed, made: 0 }
    }

    // Numbers a call, and says whether it is to fail.
    pub fn next_fails(&mut self) -> bool
        ensures { NumbersCall self.old self.new result }
    {
        self.made = self.made.saturating_add(1);
        self.listed.contains(&self.made)
    }
}
