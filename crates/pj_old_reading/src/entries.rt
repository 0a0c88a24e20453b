//! Reading the entries of a cache in format 1.
ghost use Rattle.std.specs.Prelude.{◌≡◌, ◌≤◌, length, Some, None};
ghost use Rattle.std.specs.Option.{option_copied};
ghost use Rattle.pj_format.specs.Format.{first};
ghost use Rattle.pj_format.specs.Fields.{Gives, several_from};
ghost use Rattle.pj_old_format.specs.FormatOne.{old_entry, old_entry_list};

use crate::asked::names_of;
use crate::fields::{bytes_of, is_path_behind, made_text, wrong};
use crate::rows::file_rows_of;
use pj_cache::{OldEntries, OldEntry, SharedName};
use pj_format::{Refused, sized_of, u32_of};
use std::alloc::Global;

/// An entry behind that of another path, and the bytes of its path.
#[tactic(auto, using(pj_format::proofs::Laws::reads), unfolding(pj_old_format::specs::FormatOne::old_entry))]
fn old_entry_of<'b>(
    alloc: Global,
    names: &[SharedName],
    before: Option<&[u8]>,
    bytes: &'b [u8],
    at: u32,
) -> Result<((OldEntry, &'b [u8]), u32), Refused>
    requires { length bytes.now ≤ 4294967294 }
    ensures { Gives (λ x. ((x.0.0, Some x.0.1.now), x.1)) result (first (old_entry names.now (option_copied before.entry)) bytes.now at) }
{
    let (found, behind) = sized_of(bytes, at)?;
    if !is_path_behind(before, found) {
        return Err(wrong(at));
    }
    let path = made_text(alloc, found)?;
    let (content, behind) = bytes_of(alloc, bytes, behind)?;
    let (asked, behind) = names_of(alloc, names, bytes, behind)?;
    let (rows, end) = file_rows_of(alloc, bytes, behind)?;
    Ok((
        (
            OldEntry {
                path,
                bytes: content,
                names: asked,
                rows,
            },
            found,
        ),
        end,
    ))
}

/// So many entries by strictly ascending path.
fn several_old_entries_of(
    alloc: Global,
    names: &[SharedName],
    bytes: &[u8],
    count: u32,
    at: u32,
) -> Result<(Vec<OldEntry>, u32), Refused>
    requires { length bytes.now ≤ 4294967294 }
    ensures { Gives (λ x. (x.0.items, x.1)) result (first (several_from (old_entry names.now) count None) bytes.now at) }
{
    let mut list = Vec::new(alloc);
    let mut before = None;
    let mut place = at;
    for _ in 0..count {
        let ((item, found), behind) = old_entry_of(alloc, names, before, bytes, place)?;
        list.push(item)?;
        before = Some(found);
        place = behind;
    }
    Ok((list, place))
}

/// The entries by strictly ascending path, behind their number, with places among these names.
#[tactic(auto, using(pj_format::proofs::Laws::reads), unfolding(pj_old_format::specs::FormatOne::old_entry_list))]
pub(crate) fn old_entries_of(
    alloc: Global,
    names: &[SharedName],
    bytes: &[u8],
    at: u32,
) -> Result<(OldEntries, u32), Refused>
    requires { length bytes.now ≤ 4294967294 }
    ensures { Gives (λ x. x) result (first (old_entry_list names.now) bytes.now at) }
{
    let (count, behind) = u32_of(bytes, at)?;
    let (list, end) = several_old_entries_of(alloc, names, bytes, count, behind)?;
    Ok((OldEntries::from_vec(list), end))
}
