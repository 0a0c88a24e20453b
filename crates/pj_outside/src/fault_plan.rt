//! Which calls of an object in memory are to fail.
ghost use Rattle.std.specs.Prelude.{◌≡◌, ◌↔◌, IsTrue, IsErr, OnOk, OnErr, Contains};
ghost use Rattle.pj_outside.specs.InMemory.{new_plan, IsDue, called, failed};
ghost use Rattle.pj_outside.specs.Faults.{Rises, next_count};

use crate::refused::Failed;
use pj_base::Numbers;
use std::marker::Model;

/// The numbers of the calls that are to fail, and the counts of calls and faults. A count stands still at its type's
/// end.
#[derive(Drop)]
pub struct FaultPlan {
    fail: Numbers,
    calls: u64,
    faults: u64,
}

impl Model for FaultPlan {
    ghost use Rattle.pj_outside.specs.InMemory as memory;

    ghost Value = { memory.FaultPlan };

    ghost view = { λ p. record { fail = p.fail; calls = p.calls; faults = p.faults } };
}

impl FaultPlan {
    /// A plan of an object that was not called yet.
    pub fn new(fail: Numbers) -> FaultPlan
        ensures { result ≡ new_plan fail }
    {
        FaultPlan {
            fail,
            calls: 0,
            faults: 0,
        }
    }

    /// How many calls were counted.
    pub fn calls(&self) -> u64
        ensures { result ≡ self.now.calls }
    {
        self.calls
    }

    /// How many faults were counted.
    pub fn faults(&self) -> u64
        ensures { result ≡ self.now.faults }
    {
        self.faults
    }

    /// Whether the call of this number is to fail.
    fn is_to_fail(&self, call: u64) -> bool
        ensures { IsTrue result ↔ Contains self.now.fail call }
    {
        self.fail
            .as_slice()
            .iter()
            .any(|number| u64::from(*number) == call)
    }

    #[tactic(auto, using(crate::proofs::Counts::rises_next))]
    /// Counts a call, and fails exactly where it is to fail.
    pub fn next_call(&mut self) -> Result<(), Failed>
        ensures due { IsErr result ↔ IsDue self.old }
        ensures ok { OnOk result (self.new ≡ called self.old) }
        ensures err { OnErr result (self.new ≡ failed self.old) }
        ensures rises { OnErr result (Rises self.old.faults self.new.faults) }
    {
        self.calls = self.calls.saturating_add(1);
        if self.is_to_fail(self.calls) {
            return Err(self.fault());
        }
        Ok(())
    }

    #[tactic(auto, using(crate::proofs::Counts::rises_next))]
    /// Counts a fault of the call that was counted last.
    pub fn fault(&mut self) -> Failed
        ensures counted { self.new ≡ record self.old { faults = next_count self.old.faults } }
        ensures rises { Rises self.old.faults self.new.faults }
    {
        self.faults = self.faults.saturating_add(1);
        Failed
    }
}
