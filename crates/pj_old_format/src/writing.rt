//! Writing the parts of a cache in format 1.
ghost use Rattle.std.specs.Prelude.{◌≡◌, ◌<◌, ◌^◌, ◌++◌, OnOk, IfOk, map};
ghost use Rattle.std.specs.List.Sorted.{IsStrictlySortedBy};
ghost use Rattle.pj_cache.specs.Places.{byte_order};
ghost use Rattle.pj_cache_format.specs.Texts.{counted, answer_text};
ghost use Rattle.pj_cache_format.specs.Fitting.{AllFit, FitsNamed};
ghost use Rattle.pj_old_format.specs.TextOne.{finding_text, rule_number, error_text, file_rows_text, old_entry_text, old_cache_text};
ghost use Rattle.pj_old_format.specs.FittingOne.{FitsFinding, FitsError, FitsFileRows, FitsOldEntry, FitsOldFields};

use pj_base::NoMemory;
use pj_cache::{OldCache, OldEntry};
use pj_cache_format::{
    put_answers, put_bytes, put_count, put_name_places, put_number, put_place, put_text,
    reason_byte,
};
use pj_names::{Answer, ClassName};
use pj_reports::{FileError, FileRows, Finding};
use std::sync::Arc;

/// Puts a finding at the end.
fn put_finding(out: &mut Vec<u8>, finding: &Finding) -> Result<(), NoMemory>
    ensures put { OnOk result (out.new.items ≡ out.old.items ++ finding_text finding.now) }
    ensures room { OnOk result (FitsFinding finding.now) }
{
    put_number(out, finding.rule)?;
    put_number(out, finding.node)?;
    put_place(out, finding.begin)?;
    put_place(out, finding.end)?;
    out.push(reason_byte(finding.reason))?;
    Ok(())
}

/// Puts findings at the end, behind their number.
fn put_findings(out: &mut Vec<u8>, findings: &[Finding]) -> Result<(), NoMemory>
    ensures put { OnOk result (out.new.items ≡ out.old.items ++ counted finding_text findings.now) }
    ensures room { OnOk result (AllFit FitsFinding findings.now) }
{
    put_count(out, findings.len())?;
    for finding in findings {
        put_finding(out, finding)?;
    }
    Ok(())
}

/// The number that tells a rule: 0 for none, else its number, plus 1. The last rule that four bytes number is want of memory.
fn number_of_rule(rule: Option<u32>) -> Result<u32, NoMemory>
    ensures number { IfOk result (λ n. n ≡ rule_number rule) }
    ensures room { IfOk result (λ _. rule_number rule < 2 ^ 32) }
{
    match rule {
        None => Ok(0),
        Some(rule) => {
            if rule == 0xffff_ffff {
                return Err(NoMemory);
            }
            Ok(rule + 1)
        }
    }
}

/// Puts an error at the end.
fn put_error(out: &mut Vec<u8>, error: &FileError) -> Result<(), NoMemory>
    ensures put { OnOk result (out.new.items ≡ out.old.items ++ error_text error.now) }
    ensures room { OnOk result (FitsError error.now) }
{
    put_number(out, number_of_rule(error.rule)?)?;
    put_text(out, error.message.as_str())
}

/// Puts errors at the end, behind their number.
fn put_errors(out: &mut Vec<u8>, errors: &[FileError]) -> Result<(), NoMemory>
    ensures put { OnOk result (out.new.items ≡ out.old.items ++ counted error_text errors.now) }
    ensures room { OnOk result (AllFit FitsError errors.now) }
{
    put_count(out, errors.len())?;
    for error in errors {
        put_error(out, error)?;
    }
    Ok(())
}

/// Puts the rows of a file at the end.
fn put_file_rows(out: &mut Vec<u8>, rows: &FileRows) -> Result<(), NoMemory>
    ensures put { OnOk result (out.new.items ≡ out.old.items ++ file_rows_text rows.now) }
    ensures room { OnOk result (FitsFileRows rows.now) }
{
    put_text(out, rows.package.as_str())?;
    put_findings(out, rows.findings.as_slice())?;
    put_errors(out, rows.errors.as_slice())
}

/// Puts an entry at the end.
fn put_old_entry(
    out: &mut Vec<u8>,
    answers: &[(ClassName, Arc<Answer>)],
    entry: &OldEntry,
) -> Result<(), NoMemory>
    requires { IsStrictlySortedBy byte_order (map (λ a. a.0) answers.now) }
    ensures put { OnOk result (out.new.items ≡ out.old.items ++ old_entry_text (map (λ a. a.0) answers.now) entry.now) }
    ensures room { OnOk result (FitsOldEntry entry.now) }
{
    put_text(out, entry.path.as_str())?;
    put_bytes(out, entry.bytes.as_slice())?;
    put_name_places(out, answers, entry.names.as_slice())?;
    put_file_rows(out, &entry.rows)
}

/// Puts entries at the end, behind their number.
fn put_old_entries(
    out: &mut Vec<u8>,
    answers: &[(ClassName, Arc<Answer>)],
    entries: &[OldEntry],
) -> Result<(), NoMemory>
    requires { IsStrictlySortedBy byte_order (map (λ a. a.0) answers.now) }
    ensures put { OnOk result (out.new.items ≡ out.old.items ++ counted (old_entry_text (map (λ a. a.0) answers.now)) entries.now) }
    ensures room { OnOk result (AllFit FitsOldEntry entries.now) }
{
    put_count(out, entries.len())?;
    for entry in entries {
        put_old_entry(out, answers, entry)?;
    }
    Ok(())
}

/// Puts a key, answers and entries at the end.
fn put_content(
    out: &mut Vec<u8>,
    key: &[u8],
    answers: &[(ClassName, Arc<Answer>)],
    entries: &[OldEntry],
) -> Result<(), NoMemory>
    requires { IsStrictlySortedBy byte_order (map (λ a. a.0) answers.now) }
    ensures put { OnOk result (out.new.items ≡ out.old.items ++ (key.now ++ (counted (λ a. answer_text (a.0, a.1.value)) answers.now ++ counted (old_entry_text (map (λ a. a.0) answers.now)) entries.now))) }
    ensures answers_fit { OnOk result (AllFit (λ a. FitsNamed (a.0, a.1.value)) answers.now) }
    ensures entries_fit { OnOk result (AllFit FitsOldEntry entries.now) }
{
    out.extend_from_slice(key)?;
    put_answers(out, answers)?;
    put_old_entries(out, answers, entries)
}

/// Puts all of a cache behind the number of the format at the end.
pub(crate) fn put_old_cache(out: &mut Vec<u8>, old: &OldCache) -> Result<(), NoMemory>
    requires { IsStrictlySortedBy byte_order (map (λ a. a.0) old.now.answers) }
    ensures put { OnOk result (out.new.items ≡ out.old.items ++ old_cache_text old.now) }
    ensures room { OnOk result (FitsOldFields old.now) }
{
    let answers = old.answers.as_slice();
    let entries = old.entries.as_slice();
    put_content(out, old.rules.as_slice(), answers, entries)?;
    Ok(())
}
