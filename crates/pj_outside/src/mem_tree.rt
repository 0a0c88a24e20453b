//! A tree of source files in memory.
ghost use Rattle.std.specs.Prelude.{◌≡◌, ◌≢◌, ◌↔◌, ◌++◌, ◌∷◌, [], ℕ, List, Some, IfSome, IfOk, IsErrOf, OnOk, OnErr, IsTrue, nat_eq, drop, length, filter, map};
ghost use Rattle.std.specs.List.{starts_with};
ghost use Rattle.pj_outside.specs.Faults.{CountsFaults};
ghost use Rattle.pj_outside.specs.Files.{is_at_or_below, listed_at, read_at, HasPath, AreAtOrBelow, IsAtMost};
ghost use Rattle.pj_outside.specs.InMemory.{new_plan, IsDue, PlanAfter};

use crate::fault_plan::FaultPlan;
use crate::files::{Files, find_bytes, read_bytes};
use crate::refused::{Reading, Refused};
use crate::tree::Tree;
use pj_base::{Copied, Names, NoMemory, Numbers};
use std::alloc::Global;
use std::marker::Model;

/// A tree over a list of files, with the numbers of the calls that are to fail. All calls are counted together,
/// from 1.
#[derive(Drop)]
pub struct MemTree {
    alloc: Global,
    files: Files,
    plan: FaultPlan,
}

impl Model for MemTree {
    ghost use Rattle.pj_outside.specs.InMemory.{TreeHeld};

    ghost Value = { TreeHeld };

    ghost view = { λ t. record { files = t.files; plan = t.plan } };
}

impl MemTree {
    /// A tree of these files, which takes no memory.
    pub fn new(alloc: Global, files: Files, fail: Numbers) -> MemTree
        ensures { result ≡ record { files = files; plan = new_plan fail } }
    {
        MemTree {
            alloc,
            files,
            plan: FaultPlan::new(fail),
        }
    }

    /// The paths of the files that lie at a path or below it.
    fn paths_at(&self, at: &str) -> Result<Names, NoMemory>
        ensures { IfOk result (λ paths. paths ≡ filter (is_at_or_below at.now) (map (λ f. f.0) self.now.files)) }
    {
        let mut paths = Names::new(self.alloc);
        for (path, _) in self.files.as_slice() {
            if is_path_at(path.as_str(), at) {
                paths.push(path.copied()?)?;
            }
        }
        Ok(paths)
    }
}

/// Whether the path is `at` or begins with it and `/`.
fn is_path_at(path: &str, at: &str) -> bool
    ensures { result ≡ is_at_or_below at.now path.now }
{
    path == at || is_path_below(path.as_bytes(), at.as_bytes())
}

/// What stands behind a front of a path.
fn behind<'a>(path: &'a [u8], at: &[u8]) -> &'a [u8]
    requires { IsTrue (starts_with nat_eq path.now at.now) }
    ensures { result.now ≡ drop (length at.now) path.now }
{
    path.split_at(at.len()).1
}

/// Whether a path leads below another one.
fn is_path_below(path: &[u8], at: &[u8]) -> bool
    ensures { result ≡ starts_with nat_eq path.now (at.now ++ 47 ∷ []) }
{
    path.starts_with(at) && behind(path, at).starts_with(b"/")
}

impl Tree for MemTree {
    ghost holds = { λ t. Some t.files };

    ghost faults = { λ t. t.plan.faults };

    ghost never_fails = { λ t. t.plan.fail ≡ [] };

    fn list(&mut self, at: &str) -> Result<Option<Names>, Refused>
        ensures same_files { self.new.files ≡ self.old.files }
        ensures counts_faults { CountsFaults self.old.plan.faults self.new.plan.faults result }
        ensures some { IfOk result HasPath }
        ensures at_or_below { IfOk result (AreAtOrBelow at.now) }
        ensures listed { IfOk result (λ paths. paths ≡ listed_at self.old.files at.now) }
        ensures fails { IsErrOf result Refused.Failed ↔ IsDue self.old.plan }
        ensures plan { PlanAfter self.old.plan self.new.plan result }
        ensures steady { self.old.plan.fail ≡ [] → (self.new.plan.fail ≡ []) × (result ≢ Err Refused.Failed) }
    {
        self.plan.next_call()?;
        let paths = self.paths_at(at)?;
        if paths.is_empty() {
            Ok(None)
        } else {
            Ok(Some(paths))
        }
    }

    fn read(&mut self, path: &str, most: u64) -> Result<Reading, Refused>
        ensures same_files { self.new.files ≡ self.old.files }
        ensures counts_faults { CountsFaults self.old.plan.faults self.new.plan.faults result }
        ensures within { IfOk result (IsAtMost most) }
        ensures reading { IfOk result (λ reading. reading ≡ read_at self.old.files path.now most) }
        ensures fails { IsErrOf result Refused.Failed ↔ IsDue self.old.plan }
        ensures plan { PlanAfter self.old.plan self.new.plan result }
        ensures steady { self.old.plan.fail ≡ [] → (self.new.plan.fail ≡ []) × (result ≢ Err Refused.Failed) }
    {
        self.plan.next_call()?;
        Ok(read_bytes(find_bytes(&self.files, path.as_bytes()), most)?)
    }
}
