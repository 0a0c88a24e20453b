//! Copies of what a cache keeps, which share its keys and the names of classes.
ghost use Rattle.std.specs.Prelude.{◌≡◌, IfOk};

use crate::cache::{CachedResult, Entry, KeyRows};
use pj_base::{Copied, NoMemory};
use pj_reports::{Head, Ruled};

/// An equal value.
fn copied_rows(rows: &Ruled) -> Result<Ruled, NoMemory>
    ensures { IfOk result (λ copy. copy ≡ rows.now) }
{
    Ok(match rows {
        Ruled::Spots(spots) => Ruled::Spots(spots.copied()?),
        Ruled::Message(message) => Ruled::Message(message.copied()?),
    })
}

/// An equal value.
fn copied_head(head: &Head) -> Result<Head, NoMemory>
    ensures { IfOk result (λ copy. copy ≡ head.now) }
{
    Ok(match head {
        Head::Package(name) => Head::Package(name.copied()?),
        Head::Message(message) => Head::Message(message.copied()?),
    })
}

impl Copied for KeyRows {
    fn copied(&self) -> Result<KeyRows, NoMemory> {
        Ok(KeyRows {
            key: self.key.copied()?,
            rows: copied_rows(&self.rows)?,
        })
    }
}

impl Copied for CachedResult {
    fn copied(&self) -> Result<CachedResult, NoMemory> {
        Ok(CachedResult {
            group: self.group.copied()?,
            names: self.names.copied()?,
        })
    }
}

impl Copied for Entry {
    fn copied(&self) -> Result<Entry, NoMemory> {
        Ok(Entry {
            path: self.path.copied()?,
            bytes: self.bytes.copied()?,
            head: copied_head(&self.head)?,
            results: self.results.copied()?,
        })
    }
}
