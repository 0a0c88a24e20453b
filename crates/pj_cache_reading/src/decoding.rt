//! Reading a cache.
ghost use Rattle.std.specs.Prelude.{◌≡◌, ◌≤◌, ◌↔◌, ◌&&◌, length, map, take, Some, None, IfOk, IsTrue};
ghost use Rattle.std.specs.Option.{option_copied};
ghost use Rattle.pj_format.specs.Format.{first, whole};
ghost use Rattle.pj_format.specs.Fields.{Gives, several_from};
ghost use Rattle.pj_cache_format.specs.Judges.{is_language};
ghost use Rattle.pj_cache_format.specs.FormatTwo.{key, key_list, keys_of, names_of, is_same_list, cache};
ghost use Rattle.pj_cache_format.specs.Decoded.{IsDecoded, magic, content_of, seal_of, stored};
ghost use Rattle.pj_cache_reading.specs.Spelled.{IsSpelled};

use crate::answers::answers_of;
use crate::entries::entries_of;
use crate::fields::{is_behind, is_same, or_memory, wrong};
use pj_base::{Bytes, Copied, NoMemory};
use pj_cache::{Cache, Entry, Key, SharedName};
use pj_cache_format::{CacheFault, CacheRefused, Digest32, digest_of, keys_of, names_of};
use pj_format::{Refused, run_of, sized_of, u32_of};
use pj_names::{Answer, Answers, ClassName};
use std::alloc::Global;
use std::sync::Arc;

/// A key behind another one, and its bytes.
#[tactic(auto, using(pj_format::proofs::Laws::reads), unfolding(pj_cache_format::specs::FormatTwo::key))]
fn key_of<'b>(
    alloc: Global,
    before: Option<&[u8]>,
    bytes: &'b [u8],
    at: u32,
) -> Result<((Key, &'b [u8]), u32), Refused>
    requires { length bytes.now ≤ 4294967294 }
    ensures { Gives (λ x. ((x.0.0, Some x.0.1.now), x.1)) result (first (key (option_copied before.entry)) bytes.now at) }
{
    let (found, behind) = sized_of(bytes, at)?;
    if !is_behind(before, found) {
        return Err(wrong(at));
    }
    let copy = Bytes::from_vec(Vec::from_slice(alloc, found)?);
    Ok(((or_memory(Key::new(alloc, copy))?, found), behind))
}

/// So many keys by strictly ascending bytes.
fn several_keys_of(
    alloc: Global,
    bytes: &[u8],
    count: u32,
    at: u32,
) -> Result<(Vec<Key>, u32), Refused>
    requires { length bytes.now ≤ 4294967294 }
    ensures { Gives (λ x. (x.0.items, x.1)) result (first (several_from key count None) bytes.now at) }
{
    let mut list = Vec::new(alloc);
    let mut before = None;
    let mut place = at;
    for _ in 0..count {
        let ((item, found), behind) = key_of(alloc, before, bytes, place)?;
        list.push(item)?;
        before = Some(found);
        place = behind;
    }
    Ok((list, place))
}

/// The keys by strictly ascending bytes, behind their number.
#[tactic(auto, using(pj_format::proofs::Laws::reads), unfolding(pj_cache_format::specs::FormatTwo::key_list))]
fn keys_read(alloc: Global, bytes: &[u8], at: u32) -> Result<(Vec<Key>, u32), Refused>
    requires { length bytes.now ≤ 4294967294 }
    ensures { Gives (λ x. (x.0.items, x.1)) result (first key_list bytes.now at) }
{
    let (count, behind) = u32_of(bytes, at)?;
    several_keys_of(alloc, bytes, count, behind)
}

/// Whether bytes name the language of the files.
fn is_language(bytes: &[u8]) -> bool
    ensures { result ≡ is_language bytes.now }
{
    is_same(bytes, b"java-17")
}

/// The names of answers, each to be shared.
fn names_shared(
    alloc: Global,
    answers: &[(ClassName, Arc<Answer>)],
) -> Result<Vec<SharedName>, NoMemory>
    ensures { IfOk result (λ names. names.items ≡ map (λ a. a.0) answers.now) }
{
    let mut names = Vec::new(alloc);
    for pair in answers {
        names.push(SharedName::new(alloc, pair.0.copied()?)?)?;
    }
    Ok(names)
}

/// The names of answers, each to be shared.
fn names_in(alloc: Global, answers: &Answers) -> Result<Vec<SharedName>, NoMemory>
    ensures { IfOk result (λ names. names.items ≡ map (λ a. a.0) answers.now) }
{
    names_shared(alloc, answers.as_slice())
}

/// Whether each key and each name is that of some result.
fn are_named(
    alloc: Global,
    keys: &[Key],
    names: &[SharedName],
    entries: &[Entry],
) -> Result<bool, NoMemory>
    ensures { IfOk result (λ named. named ≡ (is_same_list keys.now (keys_of entries.now) && is_same_list names.now (names_of entries.now))) }
{
    let named = keys_of(alloc, entries)?;
    if keys != named.as_slice() {
        return Ok(false);
    }
    let named = names_of(alloc, entries)?;
    Ok(names == named.as_slice())
}

/// A cache of format 2, behind the number of the format.
#[tactic(auto, using(pj_format::proofs::Laws::reads, crate::proofs::Ends::ends), unfolding(pj_cache_format::specs::FormatTwo::cache))]
fn cache_of(alloc: Global, bytes: &[u8], at: u32) -> Result<(Cache, u32), Refused>
    requires { length bytes.now ≤ 4294967294 }
    ensures { Gives (λ x. x) result (first cache bytes.now at) }
{
    let (language, behind) = sized_of(bytes, at)?;
    if !is_language(language) {
        return Err(wrong(at));
    }
    let (keys, behind) = keys_read(alloc, bytes, behind)?;
    let (answers, behind) = answers_of(alloc, bytes, behind)?;
    let names = or_memory(names_in(alloc, &answers))?;
    let (entries, end) = entries_of(alloc, &keys, &names, bytes, behind)?;
    match are_named(alloc, &keys, &names, entries.as_slice()) {
        Ok(true) => Ok((Cache { answers, entries }, end)),
        Ok(false) => Err(wrong(end)),
        Err(_) => Err(Refused::Memory),
    }
}

/// All of a cache but its seal, and the end of the bytes.
#[tactic(auto, using(pj_format::proofs::Laws::reads), unfolding(pj_cache_format::specs::Decoded::stored, pj_format::specs::Format::whole))]
fn stored_of(alloc: Global, bytes: &[u8]) -> Result<(Cache, u32), Refused>
    requires { length bytes.now ≤ 4294967294 }
    ensures { Gives (λ x. x) result (first (whole 1 stored) bytes.now 0) }
{
    let (_, version_at) = run_of(bytes, 8, 0)?;
    let (version, behind) = u32_of(bytes, version_at)?;
    if version != 2 {
        return Err(wrong(version_at));
    }
    let (cache, end) = cache_of(alloc, bytes, behind)?;
    if end as usize != bytes.len() {
        return Err(wrong(end));
    }
    Ok((cache, end))
}

/// The cache that bytes spell whose seal is right, without the seal; or the first byte of their first fault.
fn cache_in(alloc: Global, content: &[u8]) -> Result<Cache, CacheRefused>
    requires { length content.now ≤ 4294967294 }
    ensures { IsSpelled content.now result }
{
    match stored_of(alloc, content) {
        Ok((cache, _)) => Ok(cache),
        Err(Refused::Memory) => Err(CacheRefused::Memory),
        Err(Refused::Fault(fault)) => Err(CacheRefused::Fault(CacheFault::Form(fault.offset))),
    }
}

/// Whether bytes begin as caches do.
fn has_magic(bytes: &[u8]) -> bool
    requires { 8 ≤ length bytes.now }
    ensures { IsTrue result ↔ (take 8 bytes.now ≡ magic) }
{
    is_same(&bytes[..8], b"PMDJCACH")
}

/// All but the seal, borrowed.
fn content_of(bytes: &[u8]) -> &[u8]
    requires { 32 ≤ length bytes.now }
    ensures { result.now ≡ content_of bytes.now }
{
    &bytes[..bytes.len() - 32]
}

/// The seal.
fn seal_of(bytes: &[u8]) -> Digest32
    requires { 32 ≤ length bytes.now }
    ensures { result ≡ seal_of bytes.now }
{
    let mut seal = [0; 32];
    seal.copy_from_slice(&bytes[bytes.len() - 32..]);
    seal
}

/// The cache that bytes spell, or what is wrong with them, tested in this order: `Short` where they are fewer than 44,
/// `Magic` where they do not begin as caches do, `Seal` with the last 32 bytes and the SHA-256 of those before where these
/// differ, `Form` with the first byte of the first field that runs into the seal or breaks a rule of the format. An answer or a
/// key that no result names, and bytes that are left over, are told behind the last entry.
///
/// The condition is that offsets are named by 32 bits.
pub fn decode(alloc: Global, bytes: &[u8]) -> Result<Cache, CacheRefused>
    requires { length bytes.now ≤ 4294967294 }
    ensures { IsDecoded bytes.now result }
{
    if bytes.len() < 44 {
        return Err(CacheRefused::Fault(CacheFault::Short));
    }
    let is_begun = has_magic(bytes);
    if !is_begun {
        return Err(CacheRefused::Fault(CacheFault::Magic));
    }
    let content = content_of(bytes);
    let kept = seal_of(bytes);
    let computed = digest_of(content);
    let is_right = is_same(&kept, &computed);
    if !is_right {
        return Err(CacheRefused::Fault(CacheFault::Seal(kept, computed)));
    }
    cache_in(alloc, content)
}
