//! Bytes of caches, with the cache that they spell or what is wrong with them.
ghost use Rattle.std.specs.Prelude.{◌≡◌, [], IfOk};
ghost use Rattle.pj_cache_format.specs.Ordered.{IsInOrder};

use crate::bytes::{bytes_of, range_of};
use crate::row_fault::{RowFault, answer_text};
use crate::shown::cache_text;
use pj_base::NoMemory;
use pj_cache::Cache;
use pj_cache_format::{CacheFault, CacheRefused, encode};
use pj_cache_reading::decode;
use pj_rows::{Row, Section, Table};
use std::alloc::Global;

/// The table.
pub struct Caches;

impl Table for Caches {
    fn has_setting(&self, name: &str) -> bool {
        name == "cache" || name == "shows"
    }

    fn answer(&self, alloc: Global, section: &Section, row: &Row) -> Result<String, NoMemory> {
        answer_text(alloc, answer(alloc, section, row.given.as_str()))
    }
}

fn answer(alloc: Global, section: &Section, given: &str) -> Result<String, RowFault> {
    let cache = bytes_of(alloc, section.setting("cache").unwrap_or(""))?;
    match section.setting("shows").unwrap_or("") {
        "cut" => faults_of_range(alloc, &cache, given, true),
        "flipped" => faults_of_range(alloc, &cache, given, false),
        "cache" => decoded_text(alloc, &bytes_of(alloc, given)?),
        "written" => written_text(alloc, &bytes_of(alloc, given)?),
        _ => Err(RowFault::Unread("no such @shows")),
    }
}

/// The cache that bytes spell, or what is wrong with them. It is in order.
pub fn read(alloc: Global, bytes: &[u8]) -> Result<Result<Cache, CacheFault>, RowFault>
    ensures { IfOk result (λ answer. IfOk answer (λ cache. IsInOrder cache)) }
{
    if bytes.len() > 4_294_967_294 {
        return Err(RowFault::Unread("too many bytes"));
    }
    match decode(alloc, bytes) {
        Ok(cache) => Ok(Ok(cache)),
        Err(CacheRefused::Fault(fault)) => Ok(Err(fault)),
        Err(CacheRefused::Memory) => Err(RowFault::Memory),
    }
}

/// What is wrong, in words.
pub fn fault_text(alloc: Global, fault: CacheFault) -> Result<String, RowFault> {
    match fault {
        CacheFault::Short => Ok(String::from_str(alloc, "! short")?),
        CacheFault::Magic => Ok(String::from_str(alloc, "! magic")?),
        CacheFault::Seal(kept, computed) => {
            let (kept, computed) = (kept[0], computed[0]);
            Ok(format!(in alloc; "! seal {kept:02x} {computed:02x}")?)
        }
        CacheFault::Form(offset) => Ok(format!(in alloc; "! form {offset}")?),
    }
}

fn decoded_text(alloc: Global, bytes: &[u8]) -> Result<String, RowFault> {
    match read(alloc, bytes)? {
        Ok(cache) => Ok(cache_text(alloc, &cache)?),
        Err(fault) => fault_text(alloc, fault),
    }
}

/// Whether the text of a cache without answers is these bytes.
fn is_text(alloc: Global, cache: &Cache, bytes: &[u8]) -> Result<bool, NoMemory>
    requires { cache.now.answers ≡ [] }
{
    let text = encode(alloc, cache)?;
    Ok(text.as_slice() == bytes)
}

/// Whether the bytes of a cache without answers are written again as they are.
fn written_text(alloc: Global, bytes: &[u8]) -> Result<String, RowFault> {
    let cache = match read(alloc, bytes)? {
        Ok(cache) => cache,
        Err(fault) => return fault_text(alloc, fault),
    };
    if cache.answers.len() != 0 {
        return Err(RowFault::Unread("a cache with answers"));
    }
    let word = if is_text(alloc, &cache, bytes)? {
        "the same bytes"
    } else {
        "other bytes"
    };
    Ok(String::from_str(alloc, word)?)
}

/// The word of what is wrong.
pub fn fault_word(fault: CacheFault) -> &'static str {
    match fault {
        CacheFault::Short => "! short",
        CacheFault::Magic => "! magic",
        CacheFault::Seal(_, _) => "! seal",
        CacheFault::Form(_) => "! form",
    }
}

/// What is wrong with the first bytes of a cache, so many of them, or with one byte changed to another at a place.
fn fault_at(
    alloc: Global,
    cache: &[u8],
    at: usize,
    is_cut: bool,
) -> Result<&'static str, RowFault> {
    let mut bytes = Vec::from_slice(alloc, cache)?;
    if is_cut {
        bytes.truncate(at);
    } else {
        match bytes.get_mut(at) {
            Some(byte) => *byte ^= 1,
            None => return Err(RowFault::Unread("the cache is shorter")),
        }
    }
    match read(alloc, &bytes)? {
        Ok(_) => Ok("cache"),
        Err(fault) => Ok(fault_word(fault)),
    }
}

/// What is wrong at each number of a range, which is to be the same.
fn faults_of_range(
    alloc: Global,
    cache: &[u8],
    range: &str,
    is_cut: bool,
) -> Result<String, RowFault> {
    let (first, last) = range_of(range)?;
    let word = fault_at(alloc, cache, first, is_cut)?;
    for at in first..last.saturating_add(1) {
        if fault_at(alloc, cache, at, is_cut)? != word {
            return Ok(format!(in alloc; "! another fault at {at}")?);
        }
    }
    Ok(String::from_str(alloc, word)?)
}
