//! What caches serve in a world, and which classes are asked for to tell it.
ghost use Rattle.pj_cache_format.specs.Ordered.{IsInOrder};

use crate::bytes::bytes_of;
use crate::caches::read;
use crate::row_fault::{RowFault, answer_text};
use pj_base::{Bytes, NoMemory, Text};
use pj_cache::{Cache, Entry, Key, Keys};
use pj_names::{Answers, AskFault, MapOracle};
use pj_reuse::served;
use pj_rows::{Row, Section, Table};
use std::alloc::Global;

/// The table.
pub struct Served;

impl Table for Served {
    fn has_setting(&self, name: &str) -> bool {
        name == "cache" || name == "now"
    }

    fn answer(&self, alloc: Global, section: &Section, row: &Row) -> Result<String, NoMemory> {
        answer_text(alloc, answer(alloc, section, row.given.as_str()))
    }
}

fn answer(alloc: Global, section: &Section, given: &str) -> Result<String, RowFault> {
    let bytes = bytes_of(alloc, section.setting("cache").unwrap_or(""))?;
    let Ok(cache) = read(alloc, &bytes)? else {
        return Err(RowFault::Unread("@cache is no cache"));
    };
    let bytes = bytes_of(alloc, section.setting("now").unwrap_or(""))?;
    let Ok(now) = read(alloc, &bytes)? else {
        return Err(RowFault::Unread("@now is no cache"));
    };
    served_text(alloc, &cache, now.answers, given)
}

/// The keys of words.
fn keys_of(alloc: Global, words: &str) -> Result<Keys, RowFault> {
    let mut keys = Keys::new(alloc);
    for word in words.split_whitespace() {
        let bytes = Bytes::from_vec(Vec::from_slice(alloc, word.as_bytes())?);
        keys.push(Key::new(alloc, bytes)?)?;
    }
    Ok(keys)
}

/// What the cache serves at a path, the first word, for the keys, the other words.
fn served_text(alloc: Global, cache: &Cache, now: Answers, given: &str) -> Result<String, RowFault>
    requires { IsInOrder cache.now }
{
    let (path, words) = given.split_once(" ").unwrap_or((given, ""));
    let keys = keys_of(alloc, words)?;
    let path = Text::from_str(alloc, path)?;
    match cache.find(&path) {
        Some(entry) => text_of(alloc, cache, entry, now, &keys),
        None => Ok(String::from_str(alloc, "no entry")?),
    }
}

/// The places that an entry serves, and the names that were asked.
fn text_of(
    alloc: Global,
    cache: &Cache,
    entry: &Entry,
    now: Answers,
    keys: &Keys,
) -> Result<String, RowFault>
    requires { IsInOrder cache.now }
{
    let mut oracle = MapOracle::new(alloc, now);
    let places = match served(alloc, &mut oracle, entry, cache, keys) {
        Ok(places) => places,
        Err(AskFault::Memory) => return Err(RowFault::Memory),
        Err(AskFault::Failed) => return Err(RowFault::Unread("asking failed")),
    };
    let mut text = String::from_str(alloc, "served")?;
    for place in places.as_slice() {
        let shown = format!(in alloc; " {place}")?;
        text.push_str(shown.as_str())?;
    }
    text.push_str("; asked")?;
    for name in oracle.asked().names(alloc)?.as_slice() {
        text.push_str(" ")?;
        text.push_str(name.as_str())?;
    }
    Ok(text)
}
