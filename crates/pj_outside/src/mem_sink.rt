//! A sink in memory.
ghost use Rattle.std.specs.Prelude.{◌≡◌, ◌++◌, [], Some, OnOk, OnErr, IsErr};
ghost use Rattle.pj_outside.specs.Faults.{CountsFailed};
ghost use Rattle.pj_outside.specs.InMemory.{new_plan, IsDue, PlanAfterPut};

use crate::fault_plan::FaultPlan;
use crate::refused::Failed;
use crate::sink::Sink;
use pj_base::{Bytes, Numbers};
use std::alloc::Global;
use std::marker::Model;
use std::mem;

/// A sink that keeps what it got, with the numbers of the calls that are to fail, counted from 1.
#[derive(Drop)]
pub struct MemSink {
    alloc: Global,
    bytes: Bytes,
    plan: FaultPlan,
}

impl Model for MemSink {
    ghost use Rattle.pj_outside.specs.InMemory.{SinkHeld};

    ghost Value = { SinkHeld };

    ghost view = { λ s. record { bytes = s.bytes; plan = s.plan } };
}

impl MemSink {
    /// An empty sink, which takes no memory.
    pub fn new(alloc: Global, fail: Numbers) -> MemSink
        ensures { result ≡ record { bytes = []; plan = new_plan fail } }
    {
        MemSink {
            alloc,
            bytes: Bytes::new(alloc),
            plan: FaultPlan::new(fail),
        }
    }

    /// The bytes that it got.
    pub fn bytes(&self) -> &Bytes
        ensures { result.now ≡ self.now.bytes }
    {
        &self.bytes
    }
}

impl Sink for MemSink {
    ghost held = { λ s. Some s.bytes };

    ghost faults = { λ s. s.plan.faults };

    fn put(&mut self, piece: &[u8]) -> Result<(), Failed>
        ensures got { OnOk result (self.new.bytes ≡ self.old.bytes ++ piece.now) }
        ensures same { OnErr result (self.new.bytes ≡ self.old.bytes) }
        ensures counts_faults { CountsFailed self.old.plan.faults self.new.plan.faults result }
        ensures fails { IsDue self.old.plan → IsErr result }
        ensures plan { PlanAfterPut self.old.plan self.new.plan result }
    {
        self.plan.next_call()?;
        let mut bytes = mem::replace(&mut self.bytes, Bytes::new(self.alloc)).into_vec();
        let extended = bytes.extend_from_slice(piece);
        self.bytes = Bytes::from_vec(bytes);
        match extended {
            Ok(()) => Ok(()),
            Err(_) => Err(self.plan.fault()),
        }
    }
}
