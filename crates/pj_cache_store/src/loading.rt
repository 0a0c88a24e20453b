//! What a run takes for its cache.
ghost use Rattle.std.specs.Prelude.{◌≡◌, ◌≤◌, IfOk, IfSome, OnErr, Option, length};
ghost use Rattle.pj_outside.specs.Files.{IsAtMost, read_at};
ghost use Rattle.pj_cache_format.specs.Ordered.{IsInOrder};
ghost use Rattle.pj_fitting.specs.Fits.{empty, limit};
ghost use Rattle.pj_cache_store.specs.Loading.{CountsLoad, IsEmptyIfUnused, IsLoaded, IsTaken, IsTakenOf};

use pj_base::NoMemory;
use pj_cache::Cache;
use pj_cache_format::{CacheFault, CacheRefused, spelled_is_its_text};
use pj_cache_reading::decode;
use pj_outside::{Keeper, Reading, Refused};
use std::alloc::Global;

/// The greatest number of bytes of a cache that is read or kept.
pub(crate) const MOST_BYTES: u64 = 1_073_741_824;

/// Why a run does not use what stands under the name of its cache.
#[derive(Clone, Copy, Debug, PartialEq, Eq)]
pub enum Unused {
    /// The keeper failed.
    NotRead,
    /// It has more than 1,073,741,824 bytes.
    TooLong,
    /// It is no cache, for this fault.
    Refused(CacheFault),
}

/// What a run takes for its cache.
#[derive(Debug, Drop)]
pub struct Loaded {
    /// The cache: the one without entries where none is used.
    pub cache: Cache,
    /// Why what stands under the name is not used; `None` also where nothing stands there.
    pub unused: Option<Unused>,
}

/// The cache without entries, for this cause.
fn without_entries(alloc: Global, unused: Option<Unused>) -> Loaded
    ensures loaded { result ≡ record { cache = empty; unused = unused } }
    ensures unused { IsEmptyIfUnused result.cache result.unused }
    ensures in_order { IsInOrder result.cache }
{
    Loaded {
        cache: Cache::empty(alloc),
        unused,
    }
}

/// What is taken where the name has these bytes.
fn take_cache(alloc: Global, bytes: &[u8]) -> Result<Loaded, NoMemory>
    requires { length bytes.now ≤ 4294967294 }
    ensures taken { IfOk result (λ loaded. IsTakenOf bytes.now loaded.cache loaded.unused) }
    ensures in_order { IfOk result (λ loaded. IsInOrder loaded.cache) }
    ensures unused { IfOk result (λ loaded. IsEmptyIfUnused loaded.cache loaded.unused) }
{
    spelled_is_its_text();
    match decode(alloc, bytes) {
        Ok(cache) => Ok(Loaded {
            cache,
            unused: None,
        }),
        Err(CacheRefused::Fault(fault)) => {
            Ok(without_entries(alloc, Some(Unused::Refused(fault))))
        }
        Err(CacheRefused::Memory) => Err(NoMemory),
    }
}

/// What is taken where this was read under the name.
fn take_reading(alloc: Global, reading: &Reading) -> Result<Loaded, NoMemory>
    requires { IsAtMost limit reading.now }
    ensures taken { IfOk result (IsTaken reading.now) }
    ensures in_order { IfOk result (λ loaded. IsInOrder loaded.cache) }
    ensures unused { IfOk result (λ loaded. IsEmptyIfUnused loaded.cache loaded.unused) }
{
    match reading {
        Reading::Absent => Ok(without_entries(alloc, None)),
        Reading::Longer => Ok(without_entries(alloc, Some(Unused::TooLong))),
        Reading::Whole(bytes) => take_cache(alloc, bytes.as_slice()),
    }
}

/// What a run takes for its cache where the keeper has it under this name, the path of the cache: the cache that the bytes there spell; the one
/// without entries where nothing stands there, the keeper fails, or what stands there is too long or no cache. A keeper that fails ends no
/// run.
pub fn load_cache<K: Keeper>(alloc: Global, keeper: &mut K, name: &str) -> Result<Loaded, NoMemory>
    ensures loaded { IfSome (K.holds keeper.old) (λ held. IfOk result (IsLoaded (read_at held name.now limit))) }
    ensures in_order { IfOk result (λ loaded. IsInOrder loaded.cache) }
    ensures unused { IfOk result (λ loaded. IsEmptyIfUnused loaded.cache loaded.unused) }
    ensures same_names { K.holds keeper.new ≡ K.holds keeper.old }
    ensures counts { IfOk result (λ loaded. CountsLoad (K.faults keeper.old) (K.faults keeper.new) loaded.unused) }
    ensures no_fault { OnErr result (K.faults keeper.new ≡ K.faults keeper.old) }
{
    match keeper.load(name, MOST_BYTES) {
        Ok(reading) => take_reading(alloc, &reading),
        Err(Refused::Failed) => Ok(without_entries(alloc, Some(Unused::NotRead))),
        Err(Refused::Memory) => Err(NoMemory),
    }
}
