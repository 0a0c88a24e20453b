//! The order of results in an entry.
ghost use Rattle.std.specs.Prelude.{◌≡◌, ◌++◌, IfOk, map};
ghost use Rattle.std.specs.List.{IsDistinct};
ghost use Rattle.std.specs.List.Sorted.{IsPermutation, IsStrictlySortedBy};
ghost use Rattle.pj_cache.specs.Places.{byte_order};
ghost use Rattle.pj_left_cache.specs.Bytes.{first_key};
ghost use Rattle.pj_left_cache.specs.Missing.{is_same_key};

use pj_base::NoMemory;
use pj_cache::{CachedResult, Results};
use std::cmp::Ordering;

/// The first key of a result, which is empty where it has none.
fn first_key(item: &CachedResult) -> &[u8]
    ensures { result.now ≡ first_key item.now }
{
    match item.group.as_slice().first() {
        Some(member) => member.key.as_slice(),
        None => &[],
    }
}

/// How two results stand to one another by their first keys.
fn compare(first: &CachedResult, second: &CachedResult) -> Ordering
    ensures { result ≡ byte_order (first_key first.now) (first_key second.now) }
{
    first_key(first).cmp(first_key(second))
}

/// Results by their first keys. It takes no memory.
fn by_first_key(results: Results) -> Results
    ensures members { IsPermutation results result }
    ensures ascending { IsDistinct is_same_key (map first_key results) → IsStrictlySortedBy byte_order (map first_key result) }
{
    let mut held = results.into_vec();
    held.sort_unstable_by(|first, second| compare(first, second));
    Results::from_vec(held)
}

/// All results of a file: those that stay and those that are made, each once, by their first keys. Where no two of these are one,
/// they ascend strictly.
pub fn in_order(stay: Results, made: Results) -> Result<Results, NoMemory>
    ensures members { IfOk result (λ all. IsPermutation (stay ++ made) all) }
    ensures ascending { IfOk result (λ all. IsDistinct is_same_key (map first_key (stay ++ made)) → IsStrictlySortedBy byte_order (map first_key all)) }
{
    let mut all = stay;
    all.append(made)?;
    Ok(by_first_key(all))
}
