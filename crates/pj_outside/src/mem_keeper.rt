//! A keeper in memory.
ghost use Rattle.std.specs.Prelude.{◌≡◌, ◌↔◌, [], Some, IfOk, IsErr, IsErrOf, OnErr, OnOk};
ghost use Rattle.std.specs.Option.{option_copied};
ghost use Rattle.pj_outside.specs.Faults.{CountsFailed, CountsFaults};
ghost use Rattle.pj_outside.specs.Files.{bytes_at, read_at, IsAtMost};
ghost use Rattle.pj_outside.specs.InMemory.{new_plan, IsDue, PlanAfter, PlanAfterPut};
ghost use Rattle.pj_outside.specs.Keeping.{place_of, replaced};

use crate::fault_plan::FaultPlan;
use crate::files::{Files, find_bytes, read_bytes};
use crate::keeper::Keeper;
use crate::refused::{Failed, Reading, Refused};
use pj_base::{Bytes, NoMemory, Numbers, Text};
use std::alloc::Global;
use std::marker::Model;
use std::mem;

/// A keeper of names with bytes, with the numbers of the calls that are to fail. All calls are counted together, from 1.
#[derive(Drop)]
pub struct MemKeeper {
    alloc: Global,
    files: Files,
    plan: FaultPlan,
}

impl Model for MemKeeper {
    ghost use Rattle.pj_outside.specs.InMemory.{KeeperHeld};

    ghost Value = { KeeperHeld };

    ghost view = { λ k. record { files = k.files; plan = k.plan } };
}

impl MemKeeper {
    /// An empty keeper, which takes no memory.
    pub fn new(alloc: Global, fail: Numbers) -> MemKeeper
        ensures { result ≡ record { files = []; plan = new_plan fail } }
    {
        MemKeeper {
            alloc,
            files: Files::new(alloc),
            plan: FaultPlan::new(fail),
        }
    }

    /// The bytes under the name, `None` exactly where the keeper does not have it.
    pub fn get(&self, name: &str) -> Option<&Bytes>
        ensures { option_copied result ≡ bytes_at self.now.files name.now }
    {
        find_bytes(&self.files, name.as_bytes())
    }
}

/// A name with bytes of its own.
fn owned_pair(alloc: Global, name: &str, bytes: &[u8]) -> Result<(Text, Bytes), NoMemory>
    ensures { IfOk result (λ pair. pair ≡ (name.now, bytes.now)) }
{
    let name = Text::from_str(alloc, name)?;
    let bytes = Bytes::from_vec(Vec::from_slice(alloc, bytes)?);
    Ok((name, bytes))
}

/// The place of the first pair of the name, or the number of pairs.
fn place_of(pairs: &[(Text, Bytes)], name: &Text) -> usize
    ensures { result ≡ place_of pairs.now name.now }
{
    for (i, (other, _)) in pairs.iter().enumerate() {
        if other == name {
            return i;
        }
    }
    pairs.len()
}

/// Puts the pair in the place of the first one of its name, or behind all others.
fn put_pair(pairs: &mut Vec<(Text, Bytes)>, pair: (Text, Bytes)) -> Result<(), NoMemory>
    ensures ok { OnOk result (pairs.new.items ≡ replaced pair.0 pair.1 pairs.old.items) }
    ensures err { OnErr result (pairs.new.items ≡ pairs.old.items) }
{
    let place = place_of(pairs.as_slice(), &pair.0);
    if place < pairs.len() {
        pairs[place] = pair;
    } else {
        pairs.push(pair)?;
    }
    Ok(())
}

impl MemKeeper {
    /// Puts a file in place of the one of its name, without counting a call.
    fn put(&mut self, name: &str, bytes: &[u8]) -> Result<(), NoMemory>
        ensures ok { OnOk result (self.new.files ≡ replaced name.now bytes.now self.old.files) }
        ensures err { OnErr result (self.new.files ≡ self.old.files) }
        ensures plan { self.new.plan ≡ self.old.plan }
    {
        let pair = owned_pair(self.alloc, name, bytes)?;
        let mut pairs = mem::replace(&mut self.files, Files::new(self.alloc)).into_vec();
        let put = put_pair(&mut pairs, pair);
        self.files = Files::from_vec(pairs);
        put
    }
}

impl Keeper for MemKeeper {
    ghost holds = { λ k. Some k.files };

    ghost faults = { λ k. k.plan.faults };

    fn load(&mut self, name: &str, most: u64) -> Result<Reading, Refused>
        ensures same_names { self.new.files ≡ self.old.files }
        ensures counts_faults { CountsFaults self.old.plan.faults self.new.plan.faults result }
        ensures within { IfOk result (IsAtMost most) }
        ensures reading { IfOk result (λ reading. reading ≡ read_at self.old.files name.now most) }
        ensures fails { IsErrOf result Refused.Failed ↔ IsDue self.old.plan }
        ensures plan { PlanAfter self.old.plan self.new.plan result }
    {
        self.plan.next_call()?;
        Ok(read_bytes(find_bytes(&self.files, name.as_bytes()), most)?)
    }

    fn replace(&mut self, name: &str, bytes: &[u8]) -> Result<(), Failed>
        ensures replaced { OnOk result (self.new.files ≡ replaced name.now bytes.now self.old.files) }
        ensures same { OnErr result (self.new.files ≡ self.old.files) }
        ensures counts_faults { CountsFailed self.old.plan.faults self.new.plan.faults result }
        ensures fails { IsDue self.old.plan → IsErr result }
        ensures plan { PlanAfterPut self.old.plan self.new.plan result }
    {
        self.plan.next_call()?;
        match self.put(name, bytes) {
            Ok(()) => Ok(()),
            Err(_) => Err(self.plan.fault()),
        }
    }
}
