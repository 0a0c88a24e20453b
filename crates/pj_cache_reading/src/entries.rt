//! Reading entries.
ghost use Rattle.std.specs.Prelude.{◌≡◌, ◌≤◌, length, Some, None, []};
ghost use Rattle.std.specs.Option.{option_copied};
ghost use Rattle.pj_format.specs.Format.{first};
ghost use Rattle.pj_format.specs.Fields.{Gives, several_from};
ghost use Rattle.pj_cache_format.specs.Judges.{is_path_behind};
ghost use Rattle.pj_cache_format.specs.FormatTwo.{is_head_tag, head, head_message, head_behind, is_result_count, result_list, entry, entry_list};

use crate::fields::{bytes_of, is_behind, is_text, made_text, text_of, wrong};
use crate::results::several_results_of;
use pj_base::Text;
use pj_cache::{Entries, Entry, Key, Results, SharedName};
use pj_format::{Refused, sized_of, u8_of, u32_of};
use pj_reports::Head;
use std::alloc::Global;

/// Whether bytes are a path behind another one.
pub(crate) fn is_path_behind(before: Option<&[u8]>, bytes: &[u8]) -> bool
    ensures { result ≡ is_path_behind (option_copied before.entry) bytes.now }
{
    is_text(bytes) && is_behind(before, bytes)
}

/// Whether it is the tag of a head: a message takes the place of an empty package alone.
#[tactic(auto, using(crate::proofs::Texts::tests))]
fn is_head_tag(name: &Text, tag: u8) -> bool
    ensures { result ≡ is_head_tag name.now tag }
{
    tag < 2 && (tag == 0 || name.is_empty())
}

/// The message of a file without a tree.
#[tactic(auto, using(pj_format::proofs::Laws::reads), unfolding(pj_cache_format::specs::FormatTwo::head_message))]
fn message_of(alloc: Global, bytes: &[u8], at: u32) -> Result<(Head, u32), Refused>
    requires { length bytes.now ≤ 4294967294 }
    ensures { Gives (λ x. x) result (first head_message bytes.now at) }
{
    let (message, behind) = text_of(alloc, bytes, at)?;
    Ok((Head::Message(message), behind))
}

/// What a file is, whatever the rules are.
#[tactic(auto, using(pj_format::proofs::Laws::reads), unfolding(pj_cache_format::specs::FormatTwo::head))]
fn head_of(alloc: Global, bytes: &[u8], at: u32) -> Result<(Head, u32), Refused>
    requires { length bytes.now ≤ 4294967294 }
    ensures { Gives (λ x. x) result (first head bytes.now at) }
{
    let (package, tag_at) = text_of(alloc, bytes, at)?;
    let (tag, behind) = u8_of(bytes, tag_at)?;
    if !is_head_tag(&package, tag) {
        return Err(wrong(tag_at));
    }
    if tag == 0 {
        return Ok((Head::Package(package), behind));
    }
    message_of(alloc, bytes, behind)
}

/// Whether a file with this head may have so many results.
fn is_result_count(head: &Head, count: u32) -> bool
    ensures { result ≡ is_result_count head.now count }
{
    match head {
        Head::Package(_) => true,
        Head::Message(_) => count == 0,
    }
}

/// The results of a file with this head, behind their number.
#[tactic(auto, using(pj_format::proofs::Laws::reads), unfolding(pj_cache_format::specs::FormatTwo::result_list))]
fn results_of(
    alloc: Global,
    keys: &[Key],
    names: &[SharedName],
    head: &Head,
    bytes: &[u8],
    at: u32,
) -> Result<(Results, u32), Refused>
    requires { length bytes.now ≤ 4294967294 }
    ensures { Gives (λ x. x) result (first (result_list keys.now names.now head.now) bytes.now at) }
{
    let (count, behind) = u32_of(bytes, at)?;
    if !is_result_count(head, count) {
        return Err(wrong(at));
    }
    let (list, end) = several_results_of(alloc, keys, names, bytes, count, behind)?;
    Ok((Results::from_vec(list), end))
}

/// An entry behind that of another path, and the bytes of its path.
#[tactic(auto, using(pj_format::proofs::Laws::reads), unfolding(pj_cache_format::specs::FormatTwo::entry))]
fn entry_of<'b>(
    alloc: Global,
    keys: &[Key],
    names: &[SharedName],
    before: Option<&[u8]>,
    bytes: &'b [u8],
    at: u32,
) -> Result<((Entry, &'b [u8]), u32), Refused>
    requires { length bytes.now ≤ 4294967294 }
    ensures { Gives (λ x. ((x.0.0, Some x.0.1.now), x.1)) result (first (entry keys.now names.now (option_copied before.entry)) bytes.now at) }
{
    let (found, behind) = sized_of(bytes, at)?;
    if !is_path_behind(before, found) {
        return Err(wrong(at));
    }
    let path = made_text(alloc, found)?;
    let (content, behind) = bytes_of(alloc, bytes, behind)?;
    let (head, behind) = head_of(alloc, bytes, behind)?;
    let (results, end) = results_of(alloc, keys, names, &head, bytes, behind)?;
    Ok((
        (
            Entry {
                path,
                bytes: content,
                head,
                results,
            },
            found,
        ),
        end,
    ))
}

/// So many entries by strictly ascending path.
fn several_entries_of(
    alloc: Global,
    keys: &[Key],
    names: &[SharedName],
    bytes: &[u8],
    count: u32,
    at: u32,
) -> Result<(Vec<Entry>, u32), Refused>
    requires { length bytes.now ≤ 4294967294 }
    ensures { Gives (λ x. (x.0.items, x.1)) result (first (several_from (entry keys.now names.now) count None) bytes.now at) }
{
    let mut list = Vec::new(alloc);
    let mut before = None;
    let mut place = at;
    for _ in 0..count {
        let ((item, found), behind) = entry_of(alloc, keys, names, before, bytes, place)?;
        list.push(item)?;
        before = Some(found);
        place = behind;
    }
    Ok((list, place))
}

/// The entries by strictly ascending path, behind their number, with places among these names.
#[tactic(auto, using(pj_format::proofs::Laws::reads), unfolding(pj_cache_format::specs::FormatTwo::entry_list))]
pub(crate) fn entries_of(
    alloc: Global,
    keys: &[Key],
    names: &[SharedName],
    bytes: &[u8],
    at: u32,
) -> Result<(Entries, u32), Refused>
    requires { length bytes.now ≤ 4294967294 }
    ensures { Gives (λ x. x) result (first (entry_list keys.now names.now) bytes.now at) }
{
    let (count, behind) = u32_of(bytes, at)?;
    let (list, end) = several_entries_of(alloc, keys, names, bytes, count, behind)?;
    Ok((Entries::from_vec(list), end))
}
