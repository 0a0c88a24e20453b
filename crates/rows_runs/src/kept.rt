//! A keeper that rows change between runs.
use crate::calls::Failing;
use pj_base::{Bytes, Copied, NoMemory, Numbers};
use pj_outside::{Failed, Keeper, MemKeeper, Reading, Refused};
use std::alloc::Global;

/// The name of the cache in all rows.
pub static NAME: &str = "c";

/// A keeper in memory whose calls fail by their numbers, and whose next load may find too many bytes. The calls of runs are counted from 1, and the
/// changes of rows do not count.
#[derive(Drop)]
pub struct RowKeeper {
    alloc: Global,
    keeper: MemKeeper,
    failing: Failing,
    /// How many calls the runs made.
    calls: u32,
    /// Whether the next load finds more bytes than a cache may have.
    is_longer: bool,
}

/// Puts the number that a call of a run has for a keeper which is as old as so many calls of runs and so many changes.
fn put_number(fail: &mut Numbers, number: u32, calls: u32, changes: u32) -> Result<(), NoMemory> {
    if number > calls {
        fail.push(number.saturating_sub(calls).saturating_add(changes))?;
    }
    Ok(())
}

/// The numbers of the calls that fail, for a keeper that is as old as so many calls of runs and so many changes.
fn numbers_of(
    alloc: Global,
    failing: Failing,
    calls: u32,
    changes: u32,
) -> Result<Numbers, NoMemory> {
    let mut fail = Numbers::new(alloc);
    put_number(&mut fail, failing.keeper, calls, changes)?;
    put_number(&mut fail, failing.then, calls, changes)?;
    Ok(fail)
}

impl RowKeeper {
    /// An empty keeper of which these calls fail.
    pub fn new(alloc: Global, failing: Failing) -> Result<RowKeeper, NoMemory> {
        let fail = numbers_of(alloc, failing, 0, 0)?;
        Ok(RowKeeper {
            alloc,
            keeper: MemKeeper::new(alloc, fail),
            failing,
            calls: 0,
            is_longer: false,
        })
    }

    /// What stands under the name of the cache.
    pub fn cache(&self) -> Option<&Bytes> {
        self.keeper.get(NAME)
    }

    /// Takes away what stands under the name of the cache.
    fn take_away(&mut self) -> Result<(), NoMemory> {
        let fail = numbers_of(self.alloc, self.failing, self.calls, 0)?;
        self.keeper = MemKeeper::new(self.alloc, fail);
        Ok(())
    }

    /// Puts bytes under the name of the cache.
    pub fn put(&mut self, bytes: &[u8]) -> Result<(), NoMemory> {
        let fail = numbers_of(self.alloc, self.failing, self.calls, 1)?;
        let mut keeper = MemKeeper::new(self.alloc, fail);
        let _ = keeper.replace(NAME, bytes);
        self.keeper = keeper;
        Ok(())
    }

    /// The bytes of the cache, copied; none where nothing stands there.
    fn copied_bytes(&self) -> Result<Bytes, NoMemory> {
        match self.cache() {
            Some(bytes) => bytes.copied(),
            None => Ok(Bytes::new(self.alloc)),
        }
    }

    /// Leaves only so many first bytes of the cache.
    pub fn cut_to(&mut self, length: usize) -> Result<(), NoMemory> {
        let mut bytes = self.copied_bytes()?.into_vec();
        bytes.truncate(length);
        self.put(bytes.as_slice())
    }

    /// Changes the lowest bit of the byte at this place.
    pub fn flip(&mut self, place: usize) -> Result<(), NoMemory> {
        let mut bytes = self.copied_bytes()?.into_vec();
        if place < bytes.len() {
            bytes[place] ^= 1;
        }
        self.put(bytes.as_slice())
    }

    /// Changes what stands under the name of the cache: `(gone)` takes it away, `(long)` makes it too long for the next load, `(cut 5)` takes the last five bytes
    /// away, `(flip 40)` changes the lowest bit of the byte 40, and all other bytes stand there then.
    pub fn change(&mut self, written: &[u8]) -> Result<(), NoMemory> {
        let text = str::from_utf8(written).unwrap_or("");
        if text == "(long)" {
            self.is_longer = true;
            return Ok(());
        }
        if text == "(gone)" {
            return self.take_away();
        }
        if let Some(count) = number_in(text, "(cut ") {
            let length = self.copied_bytes()?.len().saturating_sub(count);
            return self.cut_to(length);
        }
        if let Some(place) = number_in(text, "(flip ") {
            return self.flip(place);
        }
        self.put(written)
    }
}

/// The number behind a word, up to a closing bracket.
fn number_in(written: &str, word: &str) -> Option<usize> {
    let number = written.strip_prefix(word)?.strip_suffix(")")?;
    number.parse::<usize>().ok()
}

impl Keeper for RowKeeper {
    ghost use Rattle.std.specs.Prelude.{None};

    ghost holds = { λ _. None };

    ghost faults = { λ k. ⟦<MemKeeper as Keeper>⟧.faults k.keeper };

    fn load(&mut self, name: &str, most: u64) -> Result<Reading, Refused> {
        self.calls = self.calls.saturating_add(1);
        let reading = self.keeper.load(name, most)?;
        if self.is_longer {
            self.is_longer = false;
            return Ok(Reading::Longer);
        }
        Ok(reading)
    }

    fn replace(&mut self, name: &str, bytes: &[u8]) -> Result<(), Failed> {
        self.calls = self.calls.saturating_add(1);
        self.keeper.replace(name, bytes)
    }
}
