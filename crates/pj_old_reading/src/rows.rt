//! Reading the rows of a file in format 1.
ghost use Rattle.std.specs.Prelude.{◌≡◌, ◌≤◌, length};
ghost use Rattle.pj_format.specs.Format.{first};
ghost use Rattle.pj_format.specs.Fields.{Gives, several};
ghost use Rattle.pj_old_format.specs.FormatOne.{finding, finding_list, rule_named, error, error_list, file_rows};

use crate::fields::{text_of, wrong};
use crate::places::{place_of, reason_of};
use pj_format::{Refused, u8_of, u32_of};
use pj_reports::{FileError, FileErrors, FileRows, Finding, Findings};
use std::alloc::Global;

/// A finding.
#[tactic(auto, using(pj_format::proofs::Laws::reads), unfolding(pj_old_format::specs::FormatOne::finding))]
fn finding_of(bytes: &[u8], at: u32) -> Result<(Finding, u32), Refused>
    requires { length bytes.now ≤ 4294967294 }
    ensures { Gives (λ x. x) result (first finding bytes.now at) }
{
    let (rule, behind) = u32_of(bytes, at)?;
    let (node, behind) = u32_of(bytes, behind)?;
    let (begin, behind) = place_of(bytes, behind)?;
    let (end, reason_at) = place_of(bytes, behind)?;
    let (tag, behind) = u8_of(bytes, reason_at)?;
    match reason_of(tag) {
        Ok(reason) => Ok((
            Finding {
                rule,
                node,
                begin,
                end,
                reason,
            },
            behind,
        )),
        Err(_) => Err(wrong(reason_at)),
    }
}

/// So many findings.
fn several_findings_of(
    alloc: Global,
    bytes: &[u8],
    count: u32,
    at: u32,
) -> Result<(Vec<Finding>, u32), Refused>
    requires { length bytes.now ≤ 4294967294 }
    ensures { Gives (λ x. (x.0.items, x.1)) result (first (several finding count) bytes.now at) }
{
    let mut list = Vec::new(alloc);
    let mut place = at;
    for _ in 0..count {
        let (item, behind) = finding_of(bytes, place)?;
        list.push(item)?;
        place = behind;
    }
    Ok((list, place))
}

/// Findings behind their number.
#[tactic(auto, using(pj_format::proofs::Laws::reads), unfolding(pj_old_format::specs::FormatOne::finding_list))]
fn findings_of(alloc: Global, bytes: &[u8], at: u32) -> Result<(Findings, u32), Refused>
    requires { length bytes.now ≤ 4294967294 }
    ensures { Gives (λ x. x) result (first finding_list bytes.now at) }
{
    let (count, behind) = u32_of(bytes, at)?;
    let (list, end) = several_findings_of(alloc, bytes, count, behind)?;
    Ok((Findings::from_vec(list), end))
}

/// The rule that a number tells: none by 0, else that of the number, less 1.
fn rule_named(number: u32) -> Option<u32>
    ensures { result ≡ rule_named number }
{
    if number == 0 { None } else { Some(number - 1) }
}

/// An error.
#[tactic(auto, using(pj_format::proofs::Laws::reads), unfolding(pj_old_format::specs::FormatOne::error))]
fn error_of(alloc: Global, bytes: &[u8], at: u32) -> Result<(FileError, u32), Refused>
    requires { length bytes.now ≤ 4294967294 }
    ensures { Gives (λ x. x) result (first error bytes.now at) }
{
    let (number, behind) = u32_of(bytes, at)?;
    let (message, behind) = text_of(alloc, bytes, behind)?;
    let rule = rule_named(number);
    Ok((FileError { rule, message }, behind))
}

/// So many errors.
fn several_errors_of(
    alloc: Global,
    bytes: &[u8],
    count: u32,
    at: u32,
) -> Result<(Vec<FileError>, u32), Refused>
    requires { length bytes.now ≤ 4294967294 }
    ensures { Gives (λ x. (x.0.items, x.1)) result (first (several error count) bytes.now at) }
{
    let mut list = Vec::new(alloc);
    let mut place = at;
    for _ in 0..count {
        let (item, behind) = error_of(alloc, bytes, place)?;
        list.push(item)?;
        place = behind;
    }
    Ok((list, place))
}

/// Errors behind their number.
#[tactic(auto, using(pj_format::proofs::Laws::reads), unfolding(pj_old_format::specs::FormatOne::error_list))]
fn errors_of(alloc: Global, bytes: &[u8], at: u32) -> Result<(FileErrors, u32), Refused>
    requires { length bytes.now ≤ 4294967294 }
    ensures { Gives (λ x. x) result (first error_list bytes.now at) }
{
    let (count, behind) = u32_of(bytes, at)?;
    let (list, end) = several_errors_of(alloc, bytes, count, behind)?;
    Ok((FileErrors::from_vec(list), end))
}

/// The rows of a file.
#[tactic(auto, using(pj_format::proofs::Laws::reads), unfolding(pj_old_format::specs::FormatOne::file_rows))]
pub(crate) fn file_rows_of(alloc: Global, bytes: &[u8], at: u32) -> Result<(FileRows, u32), Refused>
    requires { length bytes.now ≤ 4294967294 }
    ensures { Gives (λ x. x) result (first file_rows bytes.now at) }
{
    let (package, behind) = text_of(alloc, bytes, at)?;
    let (findings, behind) = findings_of(alloc, bytes, behind)?;
    let (errors, behind) = errors_of(alloc, bytes, behind)?;
    Ok((
        FileRows {
            package,
            findings,
            errors,
        },
        behind,
    ))
}
