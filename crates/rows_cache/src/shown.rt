//! Caches as rows show them.
use pj_base::NoMemory;
use pj_cache::{Cache, CachedResult, Entry, KeyRows, OldCache, OldEntry};
use pj_names::{Answer, Answers, Broken, Member};
use pj_reports::{FileError, Finding, Head, Reason, Ruled, Spot};
use std::alloc::Global;

/// Puts fields or methods.
fn put_members(text: &mut String, alloc: Global, members: &[Member]) -> Result<(), NoMemory> {
    for member in members {
        let (flags, name, signature) = (member.flags, &member.name, &member.signature);
        let shown = format!(in alloc; " {flags} {name} {signature}")?;
        text.push_str(shown.as_str())?;
    }
    Ok(())
}

/// Puts an answer.
fn put_answer(text: &mut String, alloc: Global, answer: &Answer) -> Result<(), NoMemory> {
    match answer {
        Answer::Absent => text.push_str(" absent")?,
        Answer::Found(class) => {
            let (flags, signature) = (class.flags, &class.signature);
            let shown = format!(in alloc; " found {flags} {signature} fields")?;
            text.push_str(shown.as_str())?;
            put_members(text, alloc, class.fields.as_slice())?;
            text.push_str(" methods")?;
            put_members(text, alloc, class.methods.as_slice())?;
        }
        Answer::Broken(Broken::Class(fault)) => {
            let (kind, offset) = (fault.kind, fault.offset);
            let shown = format!(in alloc; " broken {kind} at {offset}")?;
            text.push_str(shown.as_str())?;
        }
        Answer::Broken(Broken::OtherName) => text.push_str(" other name")?,
        Answer::Broken(Broken::TooLong) => text.push_str(" too long")?,
    }
    Ok(())
}

/// The word of a reason.
fn word_of(reason: Option<Reason>) -> &'static str {
    match reason {
        None => "reported",
        Some(Reason::Annotation) => "annotation",
        Some(Reason::Comment) => "comment",
        Some(Reason::Regex) => "regex",
        Some(Reason::XPath) => "xpath",
    }
}

/// Puts a node.
fn put_spot(text: &mut String, alloc: Global, spot: &Spot) -> Result<(), NoMemory> {
    let (node, begin, end) = (spot.node, spot.begin, spot.end);
    let (line, column) = (begin.line, begin.column);
    let shown = format!(in alloc; " {node} {line}:{column}")?;
    text.push_str(shown.as_str())?;
    let (line, column) = (end.line, end.column);
    let shown = format!(in alloc; " {line}:{column} ")?;
    text.push_str(shown.as_str())?;
    text.push_str(word_of(spot.reason))?;
    Ok(())
}

/// Puts a key with its rows. Keys in rows are ASCII.
fn put_key_rows(text: &mut String, alloc: Global, rows: &KeyRows) -> Result<(), NoMemory> {
    text.push_str(" [")?;
    for byte in rows.key.as_slice() {
        text.push(char::from(*byte))?;
    }
    match &rows.rows {
        Ruled::Spots(spots) => {
            for spot in spots.as_slice() {
                put_spot(text, alloc, spot)?;
            }
        }
        Ruled::Message(message) => {
            text.push_str(" message ")?;
            text.push_str(message.as_str())?;
        }
    }
    text.push_str("]")?;
    Ok(())
}

/// Puts a result.
fn put_result(text: &mut String, alloc: Global, found: &CachedResult) -> Result<(), NoMemory> {
    text.push_str(" result")?;
    for rows in found.group.as_slice() {
        put_key_rows(text, alloc, rows)?;
    }
    for name in found.names.as_slice() {
        text.push_str(" ")?;
        text.push_str(name.as_name().as_str())?;
    }
    Ok(())
}

/// Puts an entry.
fn put_entry(text: &mut String, alloc: Global, entry: &Entry) -> Result<(), NoMemory> {
    let (path, len) = (&entry.path, entry.bytes.len());
    let shown = format!(in alloc; "; file {path} of {len} bytes")?;
    text.push_str(shown.as_str())?;
    match &entry.head {
        Head::Package(name) => {
            let shown = format!(in alloc; " package '{name}'")?;
            text.push_str(shown.as_str())?;
        }
        Head::Message(message) => {
            let shown = format!(in alloc; " message '{message}'")?;
            text.push_str(shown.as_str())?;
        }
    }
    for found in entry.results.as_slice() {
        put_result(text, alloc, found)?;
    }
    Ok(())
}

/// Puts answers, each with its name.
fn put_answers(text: &mut String, alloc: Global, answers: &Answers) -> Result<(), NoMemory> {
    for (name, answer) in answers.as_slice() {
        text.push_str("; ")?;
        text.push_str(name.as_str())?;
        put_answer(text, alloc, answer)?;
    }
    Ok(())
}

/// A cache on one line.
pub fn cache_text(alloc: Global, cache: &Cache) -> Result<String, NoMemory> {
    let mut text = String::from_str(alloc, "cache")?;
    put_answers(&mut text, alloc, &cache.answers)?;
    for entry in cache.entries.as_slice() {
        put_entry(&mut text, alloc, entry)?;
    }
    Ok(text)
}

/// Puts a finding: the number of its rule, and its node.
fn put_finding(text: &mut String, alloc: Global, finding: &Finding) -> Result<(), NoMemory> {
    let rule = finding.rule;
    let shown = format!(in alloc; " finding {rule}")?;
    text.push_str(shown.as_str())?;
    let (node, begin, end, reason) = (finding.node, finding.begin, finding.end, finding.reason);
    let spot = Spot {
        node,
        begin,
        end,
        reason,
    };
    put_spot(text, alloc, &spot)
}

/// Puts an error: the number of its rule, if it has one, and its message.
fn put_error(text: &mut String, alloc: Global, error: &FileError) -> Result<(), NoMemory> {
    let message = &error.message;
    let shown = match error.rule {
        Some(rule) => format!(in alloc; " error {rule} {message}")?,
        None => format!(in alloc; " error - {message}")?,
    };
    text.push_str(shown.as_str())?;
    Ok(())
}

/// Puts an entry of format 1.
fn put_old_entry(text: &mut String, alloc: Global, entry: &OldEntry) -> Result<(), NoMemory> {
    let (path, len, package) = (&entry.path, entry.bytes.len(), &entry.rows.package);
    let shown = format!(in alloc; "; file {path} of {len} bytes package '{package}'")?;
    text.push_str(shown.as_str())?;
    for name in entry.names.as_slice() {
        text.push_str(" ")?;
        text.push_str(name.as_name().as_str())?;
    }
    for finding in entry.rows.findings.as_slice() {
        put_finding(text, alloc, finding)?;
    }
    for error in entry.rows.errors.as_slice() {
        put_error(text, alloc, error)?;
    }
    Ok(())
}

/// A cache of format 1 on one line, with the number of bytes of its key.
pub fn old_text(alloc: Global, old: &OldCache) -> Result<String, NoMemory> {
    let len = old.rules.len();
    let mut text = format!(in alloc; "old cache, key of {len} bytes")?;
    put_answers(&mut text, alloc, &old.answers)?;
    for entry in old.entries.as_slice() {
        put_old_entry(&mut text, alloc, entry)?;
    }
    Ok(text)
}
