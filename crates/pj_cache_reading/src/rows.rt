//! Reading what a rule comes to in a file.
ghost use Rattle.std.specs.Prelude.{◌≡◌, ◌≤◌, length, Some, None};
ghost use Rattle.pj_format.specs.Format.{first};
ghost use Rattle.pj_format.specs.Fields.{Gives, several_from};
ghost use Rattle.pj_cache_format.specs.FormatTwo.{reason_of, place, spot, spot_list, spots, rule_message, rows_behind, rows};

use crate::fields::{is_number_behind, text_of, wrong};
use pj_format::{Refused, u8_of, u32_of};
use pj_reports::{Reason, Ruled, Spot, Spots};
use pj_tree::Place;
use std::alloc::Global;

/// Why a node is not reported, if it is not: what a byte means.
fn reason_of(tag: u8) -> Result<Option<Reason>, u8>
    ensures { result ≡ reason_of tag }
{
    if tag == 0 {
        Ok(None)
    } else if tag == 1 {
        Ok(Some(Reason::Annotation))
    } else if tag == 2 {
        Ok(Some(Reason::Comment))
    } else if tag == 3 {
        Ok(Some(Reason::Regex))
    } else if tag == 4 {
        Ok(Some(Reason::XPath))
    } else {
        Err(1)
    }
}

/// A line and a column.
#[tactic(auto, using(pj_format::proofs::Laws::reads), unfolding(pj_cache_format::specs::FormatTwo::place))]
fn place_of(bytes: &[u8], at: u32) -> Result<(Place, u32), Refused>
    requires { length bytes.now ≤ 4294967294 }
    ensures { Gives (λ x. x) result (first place bytes.now at) }
{
    let (line, behind) = u32_of(bytes, at)?;
    let (column, behind) = u32_of(bytes, behind)?;
    Ok((Place { line, column }, behind))
}

/// A node behind another one, with its places.
#[tactic(auto, using(pj_format::proofs::Laws::reads), unfolding(pj_cache_format::specs::FormatTwo::spot))]
fn spot_of(bytes: &[u8], before: Option<u32>, at: u32) -> Result<(Spot, u32), Refused>
    requires { length bytes.now ≤ 4294967294 }
    ensures { Gives (λ x. ((x.0, Some x.0.node), x.1)) result (first (spot before) bytes.now at) }
{
    let (node, behind) = u32_of(bytes, at)?;
    if !is_number_behind(before, node) {
        return Err(wrong(at));
    }
    let (begin, behind) = place_of(bytes, behind)?;
    let (end, reason_at) = place_of(bytes, behind)?;
    let (tag, behind) = u8_of(bytes, reason_at)?;
    match reason_of(tag) {
        Ok(reason) => Ok((
            Spot {
                node,
                begin,
                end,
                reason,
            },
            behind,
        )),
        Err(_) => Err(wrong(reason_at)),
    }
}

/// So many nodes by strictly ascending number.
fn several_spots_of(
    alloc: Global,
    bytes: &[u8],
    count: u32,
    at: u32,
) -> Result<(Vec<Spot>, u32), Refused>
    requires { length bytes.now ≤ 4294967294 }
    ensures { Gives (λ x. (x.0.items, x.1)) result (first (several_from spot count None) bytes.now at) }
{
    let mut list = Vec::new(alloc);
    let mut before = None;
    let mut place = at;
    for _ in 0..count {
        let (item, behind) = spot_of(bytes, before, place)?;
        list.push(item)?;
        before = Some(item.node);
        place = behind;
    }
    Ok((list, place))
}

/// The nodes behind their number.
#[tactic(auto, using(pj_format::proofs::Laws::reads), unfolding(pj_cache_format::specs::FormatTwo::spot_list))]
fn spot_list_of(alloc: Global, bytes: &[u8], at: u32) -> Result<(Spots, u32), Refused>
    requires { length bytes.now ≤ 4294967294 }
    ensures { Gives (λ x. x) result (first spot_list bytes.now at) }
{
    let (count, behind) = u32_of(bytes, at)?;
    let (list, end) = several_spots_of(alloc, bytes, count, behind)?;
    Ok((Spots::from_vec(list), end))
}

/// The nodes that a rule denotes.
#[tactic(auto, using(pj_format::proofs::Laws::reads), unfolding(pj_cache_format::specs::FormatTwo::spots))]
fn spots_of(alloc: Global, bytes: &[u8], at: u32) -> Result<(Ruled, u32), Refused>
    requires { length bytes.now ≤ 4294967294 }
    ensures { Gives (λ x. x) result (first spots bytes.now at) }
{
    let (all, behind) = spot_list_of(alloc, bytes, at)?;
    Ok((Ruled::Spots(all), behind))
}

/// The message of a rule that could not be evaluated.
#[tactic(auto, using(pj_format::proofs::Laws::reads), unfolding(pj_cache_format::specs::FormatTwo::rule_message))]
fn message_of(alloc: Global, bytes: &[u8], at: u32) -> Result<(Ruled, u32), Refused>
    requires { length bytes.now ≤ 4294967294 }
    ensures { Gives (λ x. x) result (first rule_message bytes.now at) }
{
    let (message, behind) = text_of(alloc, bytes, at)?;
    Ok((Ruled::Message(message), behind))
}

/// What stands behind a tag.
#[tactic(auto, using(pj_format::proofs::Laws::reads))]
fn content_of(alloc: Global, tag: u8, bytes: &[u8], at: u32) -> Result<(Ruled, u32), Refused>
    requires { length bytes.now ≤ 4294967294 }
    ensures { Gives (λ x. x) result (first (rows_behind tag) bytes.now at) }
{
    if tag == 0 {
        return spots_of(alloc, bytes, at);
    }
    message_of(alloc, bytes, at)
}

/// What a rule comes to.
#[tactic(auto, using(pj_format::proofs::Laws::reads), unfolding(pj_cache_format::specs::FormatTwo::rows))]
pub(crate) fn rows_of(alloc: Global, bytes: &[u8], at: u32) -> Result<(Ruled, u32), Refused>
    requires { length bytes.now ≤ 4294967294 }
    ensures { Gives (λ x. x) result (first rows bytes.now at) }
{
    let (tag, behind) = u8_of(bytes, at)?;
    if tag >= 2 {
        return Err(wrong(at));
    }
    content_of(alloc, tag, bytes, behind)
}
