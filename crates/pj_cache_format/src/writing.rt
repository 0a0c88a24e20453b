//! Writing a cache in format 2.
ghost use Rattle.std.specs.Prelude.{◌≡◌, ◌++◌, ◌∷◌, [], OnOk, IfOk, map, flat_map, codes};
ghost use Rattle.std.specs.List.Sorted.{IsStrictlySortedBy};
ghost use Rattle.pj_cache.specs.Places.{byte_order};
ghost use Rattle.pj_cache_format.specs.FormatTwo.{keys_of};
ghost use Rattle.pj_cache_format.specs.Texts.{number, string, counted, answer_text};
ghost use Rattle.pj_cache.specs.Places.{place_in};
ghost use Rattle.std.specs.List.{All};
ghost use Rattle.pj_cache_format.specs.Fitting.{HasRoom, AllFit, FitsNamed, FitsPlace, FitsSpot, FitsRows, FitsKeyRows, FitsResult, FitsHead, FitsEntry, FitsFields};
ghost use Rattle.pj_cache_format.specs.TextTwo.{place_text, reason_byte, spot_text, rows_text, head_text, result_text, entry_text, cache_text};

use crate::named::keys_of;
use crate::put::{put_answers, put_bytes, put_count, put_number, put_text};
use pj_base::NoMemory;
use pj_cache::{Cache, CachedResult, Entry, Key, KeyRows, SharedName, place_of_key, place_of_name};
use pj_names::{Answer, ClassName};
use pj_reports::{Head, Reason, Ruled, Spot};
use pj_tree::Place;
use std::alloc::Global;
use std::sync::Arc;

/// The byte of a reason: 0 for none, 1 to 4 for why a node is not reported.
pub fn reason_byte(reason: Option<Reason>) -> u8
    ensures { result ≡ reason_byte reason }
{
    match reason {
        None => 0,
        Some(Reason::Annotation) => 1,
        Some(Reason::Comment) => 2,
        Some(Reason::Regex) => 3,
        Some(Reason::XPath) => 4,
    }
}

/// Puts a place at the end, its line and its column.
pub fn put_place(out: &mut Vec<u8>, place: Place) -> Result<(), NoMemory>
    ensures put { OnOk result (out.new.items ≡ out.old.items ++ place_text place) }
    ensures room { OnOk result (FitsPlace place) }
{
    put_number(out, place.line)?;
    put_number(out, place.column)
}

/// Puts a node with its places at the end.
fn put_spot(out: &mut Vec<u8>, spot: &Spot) -> Result<(), NoMemory>
    ensures put { OnOk result (out.new.items ≡ out.old.items ++ spot_text spot.now) }
    ensures room { OnOk result (FitsSpot spot.now) }
{
    put_number(out, spot.node)?;
    put_place(out, spot.begin)?;
    put_place(out, spot.end)?;
    out.push(reason_byte(spot.reason))?;
    Ok(())
}

/// Puts nodes at the end, behind their number.
fn put_spots(out: &mut Vec<u8>, spots: &[Spot]) -> Result<(), NoMemory>
    ensures put { OnOk result (out.new.items ≡ out.old.items ++ counted spot_text spots.now) }
    ensures room { OnOk result (AllFit FitsSpot spots.now) }
{
    put_count(out, spots.len())?;
    for spot in spots {
        put_spot(out, spot)?;
    }
    Ok(())
}

/// Puts what a rule comes to at the end.
fn put_rows(out: &mut Vec<u8>, rows: &Ruled) -> Result<(), NoMemory>
    ensures put { OnOk result (out.new.items ≡ out.old.items ++ rows_text rows.now) }
    ensures room { OnOk result (FitsRows rows.now) }
{
    match rows {
        Ruled::Spots(spots) => {
            out.push(0)?;
            put_spots(out, spots.as_slice())
        }
        Ruled::Message(message) => {
            out.push(1)?;
            put_text(out, message.as_str())
        }
    }
}

/// Puts the places of the keys of a result at the end, behind their number.
fn put_key_places(out: &mut Vec<u8>, keys: &[Key], group: &[KeyRows]) -> Result<(), NoMemory>
    requires { IsStrictlySortedBy byte_order keys.now }
    ensures put { OnOk result (out.new.items ≡ out.old.items ++ counted (λ k. number (place_in keys.now k.key)) group.now) }
    ensures room { OnOk result (HasRoom group.now) }
{
    put_count(out, group.len())?;
    for member in group {
        put_count(out, place_of_key(keys, &member.key))?;
    }
    Ok(())
}

/// Puts the places of names among those of answers at the end, behind their number. The condition is that the answers stand in the
/// order of their names' bytes, each once.
pub fn put_name_places(
    out: &mut Vec<u8>,
    answers: &[(ClassName, Arc<Answer>)],
    names: &[SharedName],
) -> Result<(), NoMemory>
    requires { IsStrictlySortedBy byte_order (map (λ a. a.0) answers.now) }
    ensures put { OnOk result (out.new.items ≡ out.old.items ++ counted (λ n. number (place_in (map (λ a. a.0) answers.now) n)) names.now) }
    ensures room { OnOk result (HasRoom names.now) }
{
    put_count(out, names.len())?;
    for name in names {
        put_count(out, place_of_name(answers, name.as_name()))?;
    }
    Ok(())
}

/// Puts the rows of keys at the end.
fn put_group(out: &mut Vec<u8>, group: &[KeyRows]) -> Result<(), NoMemory>
    ensures put { OnOk result (out.new.items ≡ out.old.items ++ flat_map (λ k. rows_text k.rows) group.now) }
    ensures room { OnOk result (All FitsKeyRows group.now) }
{
    for member in group {
        put_rows(out, &member.rows)?;
    }
    Ok(())
}

/// Puts a result at the end.
fn put_result(
    out: &mut Vec<u8>,
    keys: &[Key],
    answers: &[(ClassName, Arc<Answer>)],
    item: &CachedResult,
) -> Result<(), NoMemory>
    requires keys { IsStrictlySortedBy byte_order keys.now }
    requires answers { IsStrictlySortedBy byte_order (map (λ a. a.0) answers.now) }
    ensures put { OnOk result (out.new.items ≡ out.old.items ++ result_text keys.now (map (λ a. a.0) answers.now) item.now) }
    ensures room { OnOk result (FitsResult item.now) }
{
    put_key_places(out, keys, item.group.as_slice())?;
    put_name_places(out, answers, item.names.as_slice())?;
    put_group(out, item.group.as_slice())?;
    Ok(())
}

/// Puts results at the end, behind their number.
fn put_results(
    out: &mut Vec<u8>,
    keys: &[Key],
    answers: &[(ClassName, Arc<Answer>)],
    items: &[CachedResult],
) -> Result<(), NoMemory>
    requires keys { IsStrictlySortedBy byte_order keys.now }
    requires answers { IsStrictlySortedBy byte_order (map (λ a. a.0) answers.now) }
    ensures put { OnOk result (out.new.items ≡ out.old.items ++ counted (result_text keys.now (map (λ a. a.0) answers.now)) items.now) }
    ensures room { OnOk result (AllFit FitsResult items.now) }
{
    put_count(out, items.len())?;
    for item in items {
        put_result(out, keys, answers, item)?;
    }
    Ok(())
}

/// Puts what a file is at the end.
fn put_head(out: &mut Vec<u8>, head: &Head) -> Result<(), NoMemory>
    ensures put { OnOk result (out.new.items ≡ out.old.items ++ head_text head.now) }
    ensures room { OnOk result (FitsHead head.now) }
{
    match head {
        Head::Package(package) => {
            put_text(out, package.as_str())?;
            out.push(0)?;
            Ok(())
        }
        Head::Message(message) => {
            put_count(out, 0)?;
            out.push(1)?;
            put_text(out, message.as_str())
        }
    }
}

/// Puts an entry at the end.
fn put_entry(
    out: &mut Vec<u8>,
    keys: &[Key],
    answers: &[(ClassName, Arc<Answer>)],
    entry: &Entry,
) -> Result<(), NoMemory>
    requires keys { IsStrictlySortedBy byte_order keys.now }
    requires answers { IsStrictlySortedBy byte_order (map (λ a. a.0) answers.now) }
    ensures put { OnOk result (out.new.items ≡ out.old.items ++ entry_text keys.now (map (λ a. a.0) answers.now) entry.now) }
    ensures room { OnOk result (FitsEntry entry.now) }
{
    put_text(out, entry.path.as_str())?;
    put_bytes(out, entry.bytes.as_slice())?;
    put_head(out, &entry.head)?;
    put_results(out, keys, answers, entry.results.as_slice())
}

/// Puts entries at the end, behind their number.
fn put_entries(
    out: &mut Vec<u8>,
    keys: &[Key],
    answers: &[(ClassName, Arc<Answer>)],
    entries: &[Entry],
) -> Result<(), NoMemory>
    requires keys { IsStrictlySortedBy byte_order keys.now }
    requires answers { IsStrictlySortedBy byte_order (map (λ a. a.0) answers.now) }
    ensures put { OnOk result (out.new.items ≡ out.old.items ++ counted (entry_text keys.now (map (λ a. a.0) answers.now)) entries.now) }
    ensures room { OnOk result (AllFit FitsEntry entries.now) }
{
    put_count(out, entries.len())?;
    for entry in entries {
        put_entry(out, keys, answers, entry)?;
    }
    Ok(())
}

/// Puts keys at the end, behind their number.
fn put_keys(out: &mut Vec<u8>, keys: &[Key]) -> Result<(), NoMemory>
    ensures put { OnOk result (out.new.items ≡ out.old.items ++ counted string keys.now) }
    ensures room { OnOk result (AllFit (λ key. HasRoom key) keys.now) }
{
    put_count(out, keys.len())?;
    for key in keys {
        put_bytes(out, key.as_slice())?;
    }
    Ok(())
}

/// Puts keys, answers and entries at the end, behind the language of the files.
fn put_content(
    out: &mut Vec<u8>,
    keys: &[Key],
    answers: &[(ClassName, Arc<Answer>)],
    entries: &[Entry],
) -> Result<(), NoMemory>
    requires keys { IsStrictlySortedBy byte_order keys.now }
    requires answers { IsStrictlySortedBy byte_order (map (λ a. a.0) answers.now) }
    ensures put { OnOk result (out.new.items ≡ out.old.items ++ (string (codes "java-17") ++ (counted string keys.now ++ (counted (λ a. answer_text (a.0, a.1.value)) answers.now ++ counted (entry_text keys.now (map (λ a. a.0) answers.now)) entries.now)))) }
    ensures keys_fit { OnOk result (AllFit (λ key. HasRoom key) keys.now) }
    ensures answers_fit { OnOk result (AllFit (λ a. FitsNamed (a.0, a.1.value)) answers.now) }
    ensures entries_fit { OnOk result (AllFit FitsEntry entries.now) }
{
    put_text(out, "java-17")?;
    put_keys(out, keys)?;
    put_answers(out, answers)?;
    put_entries(out, keys, answers, entries)
}

/// Puts all of a cache behind the number of the format at the end.
pub(crate) fn put_cache(alloc: Global, out: &mut Vec<u8>, cache: &Cache) -> Result<(), NoMemory>
    requires { IsStrictlySortedBy byte_order (map (λ a. a.0) cache.now.answers) }
    ensures put { OnOk result (out.new.items ≡ out.old.items ++ cache_text cache.now) }
    ensures room { OnOk result (FitsFields cache.now) }
{
    let keys = keys_of(alloc, cache.entries.as_slice())?;
    let answers = cache.answers.as_slice();
    let entries = cache.entries.as_slice();
    put_content(out, &keys, answers, entries)?;
    Ok(())
}
