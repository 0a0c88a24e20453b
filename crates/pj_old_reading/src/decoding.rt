//! Reading a cache of either format.
ghost use Rattle.std.specs.Prelude.{◌≡◌, ◌≢◌, ◌≤◌, length, IfOk};
ghost use Rattle.pj_format.specs.Format.{first, whole};
ghost use Rattle.pj_format.specs.Fields.{Gives};
ghost use Rattle.pj_cache_format.specs.Decoded.{IsSealed, content_of};
ghost use Rattle.pj_cache_format.specs.FormatTwo.{is_same_list};
ghost use Rattle.pj_old_format.specs.FormatOne.{old_names_of, old_cache};
ghost use Rattle.pj_old_format.specs.AnyStored.{IsAnyDecoded};
ghost use Rattle.pj_old_reading.specs.Spelled.{IsOldSpelled, old_stored, version_in};

use crate::answers::answers_of;
use crate::asked::names_in;
use crate::entries::old_entries_of;
use crate::fields::{or_memory, wrong};
use crate::keys::list_key_of;
use crate::named::old_names_of;
use crate::sealed::sealed_content;
use pj_base::NoMemory;
use pj_cache::{OldCache, OldEntry, SharedName, Stored};
use pj_cache_format::{CacheFault, CacheRefused};
use pj_cache_reading::decode;
use pj_format::{Refused, run_of, u32_of};
use std::alloc::Global;

/// Whether each name is that of some entry.
fn are_old_named(
    alloc: Global,
    names: &[SharedName],
    entries: &[OldEntry],
) -> Result<bool, NoMemory>
    ensures { IfOk result (λ named. named ≡ is_same_list names.now (old_names_of entries.now)) }
{
    let named = old_names_of(alloc, entries)?;
    Ok(names == named.as_slice())
}

/// A cache of format 1, behind the number of the format.
#[tactic(auto, using(pj_format::proofs::Laws::reads, pj_cache_reading::proofs::Ends::ends), unfolding(pj_old_format::specs::FormatOne::old_cache))]
fn old_cache_of(alloc: Global, bytes: &[u8], at: u32) -> Result<(OldCache, u32), Refused>
    requires { length bytes.now ≤ 4294967294 }
    ensures { Gives (λ x. x) result (first old_cache bytes.now at) }
{
    let (rules, behind) = list_key_of(alloc, bytes, at)?;
    let (answers, behind) = answers_of(alloc, bytes, behind)?;
    let names = or_memory(names_in(alloc, &answers))?;
    let (entries, end) = old_entries_of(alloc, &names, bytes, behind)?;
    match are_old_named(alloc, &names, entries.as_slice()) {
        Ok(true) => Ok((
            OldCache {
                rules,
                answers,
                entries,
            },
            end,
        )),
        Ok(false) => Err(wrong(end)),
        Err(_) => Err(Refused::Memory),
    }
}

/// All of a cache of format 1 but its seal, and the end of the bytes.
#[tactic(auto, using(pj_format::proofs::Laws::reads), unfolding(crate::specs::Spelled::old_stored, pj_format::specs::Format::whole))]
fn old_stored_of(alloc: Global, bytes: &[u8]) -> Result<(OldCache, u32), Refused>
    requires { length bytes.now ≤ 4294967294 }
    ensures { Gives (λ x. x) result (first (whole 1 old_stored) bytes.now 0) }
{
    let (_, version_at) = run_of(bytes, 8, 0)?;
    let (version, behind) = u32_of(bytes, version_at)?;
    if version != 1 {
        return Err(wrong(version_at));
    }
    let (old, end) = old_cache_of(alloc, bytes, behind)?;
    if end as usize != bytes.len() {
        return Err(wrong(end));
    }
    Ok((old, end))
}

/// The cache of format 1 that bytes spell whose seal is right, without the seal; or the first byte of their first fault.
fn old_in(alloc: Global, content: &[u8]) -> Result<OldCache, CacheRefused>
    requires { length content.now ≤ 4294967294 }
    ensures { IsOldSpelled content.now result }
{
    match old_stored_of(alloc, content) {
        Ok((old, _)) => Ok(old),
        Err(Refused::Memory) => Err(CacheRefused::Memory),
        Err(Refused::Fault(fault)) => Err(CacheRefused::Fault(CacheFault::Form(fault.offset))),
    }
}

/// The number of the format, behind the magic.
#[tactic(auto, using(std::proofs::lemmas::Grind::common_steps))]
fn version_of(content: &[u8]) -> u32
    requires { 12 ≤ length content.now }
    ensures { result ≡ version_in content.now }
{
    u32::from_be_bytes([content[8], content[9], content[10], content[11]])
}

/// What sealed bytes are as a cache of either format, where the number of their format is 1.
fn first_in(alloc: Global, bytes: &[u8], content: &[u8]) -> Result<Stored, CacheRefused>
    requires small { length content.now ≤ 4294967294 }
    requires is_sealed { IsSealed bytes.now }
    requires content { content.now ≡ content_of bytes.now }
    requires version { version_in content.now ≡ 1 }
    ensures { IsAnyDecoded bytes.now result }
{
    match old_in(alloc, content) {
        Ok(old) => Ok(Stored::One(old)),
        Err(refused) => Err(refused),
    }
}

/// What bytes are as a cache of either format, where the number of their format is another one.
fn second_in(alloc: Global, bytes: &[u8]) -> Result<Stored, CacheRefused>
    requires small { length bytes.now ≤ 4294967294 }
    requires version { version_in (content_of bytes.now) ≢ 1 }
    ensures { IsAnyDecoded bytes.now result }
{
    match decode(alloc, bytes) {
        Ok(new) => Ok(Stored::Two(new)),
        Err(refused) => Err(refused),
    }
}

/// What sealed bytes are as a cache of either format.
fn any_in(alloc: Global, bytes: &[u8], content: &[u8]) -> Result<Stored, CacheRefused>
    requires small { length bytes.now ≤ 4294967294 }
    requires is_sealed { IsSealed bytes.now }
    requires content { content.now ≡ content_of bytes.now }
    ensures { IsAnyDecoded bytes.now result }
{
    let version = version_of(content);
    if version == 1 {
        return first_in(alloc, bytes, content);
    }
    second_in(alloc, bytes)
}

/// The cache that bytes spell, of whichever format, or what is wrong with them, tested in this order: `Short` where they are fewer
/// than 44, `Magic` where they do not begin as caches do, `Seal` with the last 32 bytes and the SHA-256 of those before where
/// these differ, `Form` with the first byte of the first field that runs into the seal or breaks a rule of the format.
///
/// The condition is that offsets are named by 32 bits.
pub fn decode_any(alloc: Global, bytes: &[u8]) -> Result<Stored, CacheRefused>
    requires { length bytes.now ≤ 4294967294 }
    ensures { IsAnyDecoded bytes.now result }
{
    match sealed_content(bytes) {
        Ok(content) => any_in(alloc, bytes, content),
        Err(fault) => Err(CacheRefused::Fault(fault)),
    }
}
