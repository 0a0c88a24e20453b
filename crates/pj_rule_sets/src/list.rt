//! The lists of rules that files make.
ghost use Rattle.std.specs.Prelude.{◌≡◌, OnOk};
ghost use Rattle.std.specs.Option.{option_copied};
ghost use Rattle.pj_rule_sets.specs.Lists.{is_among, is_called, is_excluded, name_of, named, put_all, without};
ghost use Rattle.pj_rule_sets.specs.Taking.{put_unless};

use crate::entry::{Entry, Origin};
use crate::table::RuleTable;
use pj_base::{Copied, NoMemory, Text, is_same_text};

/// The name under which a rule stands in a list.
fn name_of(entry: &Entry) -> Option<&Text>
    ensures { option_copied result ≡ name_of entry.now }
{
    match entry {
        Entry::Rule(rule) => Some(&rule.texts().row.name),
        Entry::Unusable(unusable) => match &unusable.name {
            Some(name) => Some(name),
            None => None,
        },
    }
}

/// Whether an entry has a name, and it is this one.
fn is_called(name: &str, entry: &Entry) -> bool
    ensures { result ≡ is_called name.now (name_of entry.now) }
{
    match name_of(entry) {
        Some(other) => is_same_text(name, other.as_str()),
        None => false,
    }
}

/// The first rule of a name.
pub fn named<'a>(name: &str, list: &'a [(Origin, Entry)]) -> Option<&'a (Origin, Entry)>
    ensures { option_copied result ≡ named name.now list.now }
{
    for taken in list {
        if is_called(name, &taken.1) {
            return Some(taken);
        }
    }
    None
}

/// Whether a text is one of some texts.
fn is_among(text: &str, texts: &[Text]) -> bool
    ensures { result ≡ is_among text.now texts.now }
{
    for other in texts {
        if is_same_text(text, other.as_str()) {
            return true;
        }
    }
    false
}

/// Whether the name of an entry is one of those that are left out.
fn is_excluded(excludes: &[Text], entry: &Entry) -> bool
    ensures { result ≡ is_excluded excludes.now (name_of entry.now) }
{
    match name_of(entry) {
        Some(name) => is_among(name.as_str(), excludes),
        None => false,
    }
}

/// Puts a rule, unless it is excluded by its name.
fn put_unless(
    excludes: &[Text],
    taken: &(Origin, Entry),
    table: &mut RuleTable,
) -> Result<(), NoMemory>
    ensures { OnOk result (table.new ≡ put_unless excludes.now taken.now table.old) }
{
    if is_excluded(excludes, &taken.1) {
        return Ok(());
    }
    table.put(taken.0.copied()?, taken.1.copied()?)
}

/// Puts the rules of a list but those that are excluded by their names.
pub fn put_without(
    excludes: &[Text],
    list: &[(Origin, Entry)],
    table: &mut RuleTable,
) -> Result<(), NoMemory>
    ensures { OnOk result (table.new ≡ put_all table.old (without excludes.now list.now)) }
{
    for taken in list {
        put_unless(excludes, taken, table)?;
    }
    Ok(())
}
