//! Names of classes with dots, as they are written (JLS 6.2, 6.5.5).

ghost use Rattle.std.specs.Prelude.{◌≡◌, ◌++◌, ◌∷◌, IfOk, OnOk};
ghost use Rattle.std.specs.Option.{option_map};
ghost use Rattle.pj_names.specs.ClassName.{parts};
ghost use Rattle.pj_written.specs.Seen.{pair_of};
ghost use Rattle.pj_written.specs.Names.{around_last_dot, begins_as_class, begins_package, begins_with_small_letter, last_part, next_candidate, own_parts, part_behind, with_dots};

use pj_base::{Names, NoMemory, Text};
use pj_tree::OwnTokens;
use std::alloc::Global;

/// Whether a part of a name begins with `A` to `Z`.
fn begins_as_class(part: &str) -> bool
    ensures { result ≡ begins_as_class part.now }
{
    let bytes = part.as_bytes();
    !bytes.is_empty() && b'A' <= bytes[0] && bytes[0] <= b'Z'
}

/// Whether a part of a name begins with `a` to `z`.
fn begins_with_small_letter(part: &str) -> bool
    ensures { result ≡ begins_with_small_letter part.now }
{
    let bytes = part.as_bytes();
    !bytes.is_empty() && b'a' <= bytes[0] && bytes[0] <= b'z'
}

/// What stands before the last dot and behind it; `None` where there is no dot.
pub fn around_last_dot(text: &str) -> Option<(&str, &str)>
    ensures { option_map pair_of result ≡ around_last_dot text.now }
{
    text.rsplit_once('.')
}

/// What stands behind the last dot, and all of a text without one.
pub fn last_part(text: &str) -> &str
    ensures { result.now ≡ last_part text.now }
{
    match around_last_dot(text) {
        Some((_, last)) => last,
        None => text,
    }
}

/// The name of a member class by that of the class around it: `Outer$Member` (JLS 13.1).
pub fn member_name(alloc: Global, outer: &str, member: &str) -> Result<Text, NoMemory>
    ensures { IfOk result (λ text. text ≡ outer.now ++ 36 ∷ member.now) }
{
    let mut text = Text::from_str(alloc, outer)?;
    text.push_str("$")?;
    text.push_str(member)?;
    Ok(text)
}

/// What a dotted name may mean besides: with its last dot made `$`, where a part that begins with `A` to `Z` stands before that dot. It
/// is `None` where none does.
pub fn next_candidate(alloc: Global, text: &str) -> Result<Option<Text>, NoMemory>
    ensures { IfOk result (λ next. next ≡ next_candidate text.now) }
{
    match around_last_dot(text) {
        Some((front, last)) => {
            if !begins_as_class(last_part(front)) {
                return Ok(None);
            }
            let next = member_name(alloc, front, last)?;
            Ok(Some(next))
        }
        None => Ok(None),
    }
}

/// Puts the words at the end that are no dots.
pub fn put_parts(alloc: Global, parts: &mut Names, words: OwnTokens<'_>) -> Result<(), NoMemory>
    ensures { OnOk result (parts.new ≡ parts.old ++ own_parts words.entry) }
{
    for word in words {
        if word != "." {
            parts.push(Text::from_str(alloc, word)?)?;
        }
    }
    Ok(())
}

/// The parts of a text between its dots: one more than it has dots.
pub fn parts_of(alloc: Global, text: &str) -> Result<Names, NoMemory>
    ensures { IfOk result (λ names. names ≡ parts text.now) }
{
    let mut names = Names::new(alloc);
    let mut left = text;
    while let Some((part, rest)) = left.split_once('.') {
        names.push(Text::from_str(alloc, part)?)?;
        left = rest;
    }
    names.push(Text::from_str(alloc, left)?)?;
    Ok(names)
}

/// Whether the first part begins a package, which another part follows.
pub fn begins_package(parts: &Names) -> bool
    ensures { result ≡ begins_package parts.now }
{
    let parts = parts.as_slice();
    parts.len() >= 2 && begins_with_small_letter(parts[0].as_str())
}

/// Puts a part at the end, behind a dot where it is not the first.
fn put_part(text: &mut Text, is_first: bool, part: &str) -> Result<(), NoMemory>
    ensures { OnOk result (text.new ≡ text.old ++ part_behind is_first part.now) }
{
    if is_first {
        text.push_str(part)?;
        return Ok(());
    }
    text.push_str(".")?;
    text.push_str(part)?;
    Ok(())
}

/// The parts with dots between them.
#[tactic(auto, using(crate::proofs::Steps::dot_steps))]
pub fn with_dots(alloc: Global, parts: &Names) -> Result<Text, NoMemory>
    ensures { IfOk result (λ text. text ≡ with_dots parts.now) }
{
    let mut text = Text::new(alloc);
    let mut is_first = true;
    for part in parts.as_slice() {
        put_part(&mut text, is_first, part.as_str())?;
        is_first = false;
    }
    Ok(text)
}
