//! The classes that the entries of a cache of format 1 name.
ghost use Rattle.std.specs.Prelude.{◌≡◌, OnOk, IfOk};
ghost use Rattle.pj_cache_format.specs.FormatTwo.{with_more};
ghost use Rattle.pj_old_format.specs.FormatOne.{old_names_of};

use pj_base::{Copied, NoMemory};
use pj_cache::{OldEntry, SharedName};
use std::alloc::Global;
use std::collections::BTreeSet;

/// Puts names to others.
fn note_names(held: &mut BTreeSet<SharedName>, names: &[SharedName]) -> Result<(), NoMemory>
    ensures { OnOk result (held.new.keys ≡ with_more held.old.keys names.now) }
{
    for name in names {
        held.insert(name.copied()?)?;
    }
    Ok(())
}

/// The members of a set in their order.
fn listed_names(alloc: Global, held: &BTreeSet<SharedName>) -> Result<Vec<SharedName>, NoMemory>
    ensures { IfOk result (λ list. list.items ≡ held.now.keys) }
{
    let mut list = Vec::new(alloc);
    for name in held {
        list.push(name.copied()?)?;
    }
    Ok(list)
}

/// The classes that entries name, in the order of their bytes, each once.
pub(crate) fn old_names_of(alloc: Global, entries: &[OldEntry]) -> Result<Vec<SharedName>, NoMemory>
    ensures { IfOk result (λ names. names.items ≡ old_names_of entries.now) }
{
    let mut held = BTreeSet::new(alloc);
    for entry in entries {
        note_names(&mut held, entry.names.as_slice())?;
    }
    listed_names(alloc, &held)
}
