//! Calls that are counted, some of which fail.

ghost use Rattle.std.specs.Prelude.{◌≡◌, ◌+◌};
ghost use Rattle.hs_base.specs.Memory.{no_calls, is_due, calls_after};

use hs_expr::List;

/// The calls that were made of something in memory: those that are to fail, how many were made and
/// have failed, and whether the last one did.
#[derive(Debug, Drop)]
pub struct Calls {
    pub fails: List<u32>,
    pub made: u32,
    pub faults: u64,
    pub failed: bool,
}

impl Calls {
    pub fn new(fails: List<u32>) -> Calls
        ensures { result ≡ no_calls fails }
    {
        Calls {
            fails,
            made: 0,
            faults: 0,
            failed: false,
        }
    }

    /// Whether the next call is to fail.
    pub fn is_next_due(&self) -> bool
        ensures { result ≡ is_due self.now.fails (self.now.made + 1) }
    {
        let next = u64::from(self.made) + 1;
        self.fails.iter().any(|n| u64::from(*n) == next)
    }

    /// Notes one more call, and whether it failed.
    pub fn note(&mut self, failed: bool)
        ensures { self.new ≡ calls_after failed self.old }
    {
        self.made = self.made.saturating_add(1);
        self.failed = failed;
        if failed {
            self.faults = self.faults.saturating_add(1);
        }
    }
}
