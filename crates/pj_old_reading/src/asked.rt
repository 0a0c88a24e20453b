//! Reading names of classes by their places among those of answers.
ghost use Rattle.std.specs.Prelude.{◌≡◌, ◌≤◌, ◌<◌, length, map, Some, None, IfOk};
ghost use Rattle.pj_format.specs.Format.{first};
ghost use Rattle.pj_format.specs.Fields.{Gives, several_from};
ghost use Rattle.pj_cache.specs.Places.{member_at};
ghost use Rattle.pj_cache_format.specs.FormatTwo.{is_name_place, name_at, name_list};

use crate::fields::{is_number_behind, or_memory, wrong};
use pj_base::{Copied, NoMemory};
use pj_cache::{SharedName, SharedNames};
use pj_format::{Refused, u32_of};
use pj_names::{Answer, Answers, ClassName};
use std::alloc::Global;
use std::sync::Arc;

/// The names of answers, each to be shared.
fn names_shared(
    alloc: Global,
    answers: &[(ClassName, Arc<Answer>)],
) -> Result<Vec<SharedName>, NoMemory>
    ensures { IfOk result (λ names. names.items ≡ map (λ a. a.0) answers.now) }
{
    let mut names = Vec::new(alloc);
    for pair in answers {
        names.push(SharedName::new(alloc, pair.0.copied()?)?)?;
    }
    Ok(names)
}

/// The names of answers, each to be shared.
pub(crate) fn names_in(alloc: Global, answers: &Answers) -> Result<Vec<SharedName>, NoMemory>
    ensures { IfOk result (λ names. names.items ≡ map (λ a. a.0) answers.now) }
{
    names_shared(alloc, answers.as_slice())
}

/// Whether it is one of so many names, behind the one before.
fn is_name_place(count: usize, before: Option<u32>, place: u32) -> bool
    ensures { result ≡ is_name_place count before place }
{
    (place as usize) < count && is_number_behind(before, place)
}

/// The name at a place.
fn name_in(names: &[SharedName], place: u32) -> Result<SharedName, NoMemory>
    requires { place < length names.now }
    ensures { IfOk result (λ name. name ≡ member_at names.now place) }
{
    names[place as usize].copied()
}

/// A name by its place, and the place.
#[tactic(auto, using(pj_format::proofs::Laws::reads, pj_cache_reading::proofs::Texts::lengths), unfolding(pj_cache_format::specs::FormatTwo::name_at))]
fn name_of(
    names: &[SharedName],
    before: Option<u32>,
    bytes: &[u8],
    at: u32,
) -> Result<((SharedName, u32), u32), Refused>
    requires { length bytes.now ≤ 4294967294 }
    ensures { Gives (λ x. ((x.0.0, Some x.0.1), x.1)) result (first (name_at names.now before) bytes.now at) }
{
    let (place, behind) = u32_of(bytes, at)?;
    if !is_name_place(names.len(), before, place) {
        return Err(wrong(at));
    }
    Ok(((or_memory(name_in(names, place))?, place), behind))
}

/// So many names by their strictly ascending places.
fn several_names_of(
    alloc: Global,
    names: &[SharedName],
    bytes: &[u8],
    count: u32,
    at: u32,
) -> Result<(Vec<SharedName>, u32), Refused>
    requires { length bytes.now ≤ 4294967294 }
    ensures { Gives (λ x. (x.0.items, x.1)) result (first (several_from (name_at names.now) count None) bytes.now at) }
{
    let mut list = Vec::new(alloc);
    let mut before = None;
    let mut place = at;
    for _ in 0..count {
        let ((item, found), behind) = name_of(names, before, bytes, place)?;
        list.push(item)?;
        before = Some(found);
        place = behind;
    }
    Ok((list, place))
}

/// The names behind their number.
#[tactic(auto, using(pj_format::proofs::Laws::reads), unfolding(pj_cache_format::specs::FormatTwo::name_list))]
pub(crate) fn names_of(
    alloc: Global,
    names: &[SharedName],
    bytes: &[u8],
    at: u32,
) -> Result<(SharedNames, u32), Refused>
    requires { length bytes.now ≤ 4294967294 }
    ensures { Gives (λ x. x) result (first (name_list names.now) bytes.now at) }
{
    let (count, behind) = u32_of(bytes, at)?;
    let (list, end) = several_names_of(alloc, names, bytes, count, behind)?;
    Ok((SharedNames::from_vec(list), end))
}
