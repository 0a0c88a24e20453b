//! Bytes of caches of either format, with the cache that they spell or what is wrong with them; what one of format 1 becomes.
ghost use Rattle.std.specs.Prelude.{IfOk, map};
ghost use Rattle.std.specs.List.Sorted.{IsStrictlySortedBy};
ghost use Rattle.pj_cache.specs.Places.{byte_order};
ghost use Rattle.pj_old_format.specs.AnyStored.{IsWritable};

use crate::bytes::{bytes_of, range_of};
use crate::caches::{fault_text, fault_word};
use crate::row_fault::{RowFault, answer_text};
use crate::shown::{cache_text, old_text};
use pj_base::{Bytes, NoMemory};
use pj_cache::{Key, Keys, OldCache, Stored};
use pj_cache_format::{CacheFault, CacheRefused};
use pj_carrying::carry;
use pj_old_format::{any_spelled_is_its_text, encode_one, old_order_is_strict};
use pj_old_reading::decode_any;
use pj_rows::{Row, Section, Table};
use std::alloc::Global;

/// The table.
pub struct OldCaches;

impl Table for OldCaches {
    fn has_setting(&self, name: &str) -> bool {
        name == "cache" || name == "key" || name == "keys" || name == "shows"
    }

    fn answer(&self, alloc: Global, section: &Section, row: &Row) -> Result<String, NoMemory> {
        answer_text(alloc, answer(alloc, section, row.given.as_str()))
    }
}

fn answer(alloc: Global, section: &Section, given: &str) -> Result<String, RowFault> {
    let cache = bytes_of(alloc, section.setting("cache").unwrap_or(""))?;
    match section.setting("shows").unwrap_or("") {
        "cut" => faults_of_range(alloc, &cache, given, true),
        "flipped" => faults_of_range(alloc, &cache, given, false),
        "cache" => decoded_text(alloc, &bytes_of(alloc, given)?),
        "written" => written_text(alloc, &bytes_of(alloc, given)?),
        "carried" => carried_text(alloc, section, &bytes_of(alloc, given)?),
        _ => Err(RowFault::Unread("no such @shows")),
    }
}

/// The cache that bytes spell, or what is wrong with them.
fn read(alloc: Global, bytes: &[u8]) -> Result<Result<Stored, CacheFault>, RowFault>
    ensures { IfOk result (λ answer. IfOk answer IsWritable) }
{
    any_spelled_is_its_text();
    if bytes.len() > 4_294_967_294 {
        return Err(RowFault::Unread("too many bytes"));
    }
    match decode_any(alloc, bytes) {
        Ok(stored) => Ok(Ok(stored)),
        Err(CacheRefused::Fault(fault)) => Ok(Err(fault)),
        Err(CacheRefused::Memory) => Err(RowFault::Memory),
    }
}

fn decoded_text(alloc: Global, bytes: &[u8]) -> Result<String, RowFault> {
    match read(alloc, bytes)? {
        Ok(Stored::One(old)) => Ok(old_text(alloc, &old)?),
        Ok(Stored::Two(cache)) => Ok(cache_text(alloc, &cache)?),
        Err(fault) => fault_text(alloc, fault),
    }
}

/// Whether the text of a cache of format 1 is these bytes.
fn is_text(alloc: Global, old: &OldCache, bytes: &[u8]) -> Result<bool, NoMemory>
    requires { IsStrictlySortedBy byte_order (map (λ a. a.0) old.now.answers) }
{
    let text = encode_one(alloc, old)?;
    Ok(text.as_slice() == bytes)
}

/// Whether the bytes of a cache of format 1 are written again as they are.
fn written_text(alloc: Global, bytes: &[u8]) -> Result<String, RowFault> {
    old_order_is_strict();
    let old = match read(alloc, bytes)? {
        Ok(Stored::One(old)) => old,
        Ok(Stored::Two(_)) => return Err(RowFault::Unread("a cache of format 2")),
        Err(fault) => return fault_text(alloc, fault),
    };
    let word = if is_text(alloc, &old, bytes)? {
        "the same bytes"
    } else {
        "other bytes"
    };
    Ok(String::from_str(alloc, word)?)
}

/// The keys of words, each of which is one.
fn keys_of(alloc: Global, words: &str) -> Result<Keys, RowFault> {
    let mut keys = Keys::new(alloc);
    for word in words.split_whitespace() {
        let bytes = Vec::from_slice(alloc, word.as_bytes())?;
        keys.push(Key::new(alloc, Bytes::from_vec(bytes))?)?;
    }
    Ok(keys)
}

/// What a cache of format 1 becomes for the rules of the section.
fn new_text(alloc: Global, section: &Section, old: OldCache) -> Result<String, RowFault>
    requires { IsStrictlySortedBy byte_order (map (λ a. a.0) old.answers) }
{
    let key = bytes_of(alloc, section.setting("key").unwrap_or(""))?;
    let keys = keys_of(alloc, section.setting("keys").unwrap_or(""))?;
    let cache = carry(alloc, old, &Bytes::from_vec(key), &keys)?;
    Ok(cache_text(alloc, &cache)?)
}

/// The same of its bytes.
fn carried_text(alloc: Global, section: &Section, bytes: &[u8]) -> Result<String, RowFault> {
    old_order_is_strict();
    match read(alloc, bytes)? {
        Ok(Stored::One(old)) => new_text(alloc, section, old),
        Ok(Stored::Two(_)) => Err(RowFault::Unread("a cache of format 2")),
        Err(fault) => fault_text(alloc, fault),
    }
}

/// What is wrong with the first bytes of a cache, so many of them, or with one byte changed to another at a place.
fn fault_at(
    alloc: Global,
    cache: &[u8],
    at: usize,
    is_cut: bool,
) -> Result<&'static str, RowFault> {
    let mut bytes = Vec::from_slice(alloc, cache)?;
    if is_cut {
        bytes.truncate(at);
    } else {
        match bytes.get_mut(at) {
            Some(byte) => *byte ^= 1,
            None => return Err(RowFault::Unread("the cache is shorter")),
        }
    }
    match read(alloc, &bytes)? {
        Ok(_) => Ok("cache"),
        Err(fault) => Ok(fault_word(fault)),
    }
}

/// What is wrong at each number of a range, which is to be the same.
fn faults_of_range(
    alloc: Global,
    cache: &[u8],
    range: &str,
    is_cut: bool,
) -> Result<String, RowFault> {
    let (first, last) = range_of(range)?;
    let word = fault_at(alloc, cache, first, is_cut)?;
    for at in first..last.saturating_add(1) {
        if fault_at(alloc, cache, at, is_cut)? != word {
            return Ok(format!(in alloc; "! another fault at {at}")?);
        }
    }
    Ok(String::from_str(alloc, word)?)
}
