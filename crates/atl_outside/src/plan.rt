// Which calls on an object in memory fail.
ghost use Rattle.std.specs.Prelude.{◌≡◌, ◌≤◌, ◌+◌, ◌==◌};
ghost use Rattle.std.specs.List.{list_any};
ghost use Rattle.atl_outside.specs.Plan.{new_plan, fails_next, plan_after};

use std::marker::Model;

/// The numbers of the calls that fail, how many calls there were, and how often the object has failed.
#[derive(Drop)]
pub struct CallPlan {
    fails: Vec<u64>,
    calls: u64,
    faults: u64,
}

impl Model for CallPlan {
    ghost use Rattle.atl_outside.specs.Plan.{Plan};

    ghost Value = { Plan };

    ghost view = { λ plan. record { fails = plan.fails.items; calls = plan.calls; faults = plan.faults } };
}

/// Whether the number behind this many calls is listed.
fn has_next(fails: &[u64], calls: u64) -> bool
    ensures { result ≡ list_any (λ number. number == calls + 1) fails.now }
{
    fails.iter().any(
        |number| -> bool
            ensures { result ≡ (number.now == calls + 1) }
        { *number > 0 && *number - 1 == calls },
    )
}

impl CallPlan {
    /// These numbers, before the first call.
    pub fn new(fails: Vec<u64>) -> CallPlan
        ensures { result ≡ new_plan fails.items }
    {
        CallPlan {
            fails,
            calls: 0,
            faults: 0,
        }
    }

    /// Whether the next call fails by plan.
    pub fn fails_next(&self) -> bool
        ensures { result ≡ fails_next self.now }
    {
        has_next(&self.fails, self.calls)
    }

    /// Counts a call that failed or didn't.
    pub fn count(&mut self, failed: bool)
        ensures after { self.new ≡ plan_after failed self.old }
        ensures grows { self.old.faults ≤ self.new.faults }
    {
        self.calls = self.calls.saturating_add(1);
        if failed {
            self.faults = self.faults.saturating_add(1);
        }
    }
}
