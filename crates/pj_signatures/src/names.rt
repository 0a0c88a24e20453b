//! Names in descriptors and signatures.
ghost use Rattle.std.specs.Prelude.{◌≡◌, ◌++◌, ◌∷◌, ◌<◌, ◌≤◌, IfOk, IfSome, MatchOption, OnOk, IsTrue, IsUtf8, false, length};
ghost use Rattle.pj_names.specs.ClassName.{is_class_name};
ghost use Rattle.pj_signatures.specs.Names.{is_name, are_names, is_identifier, is_path, is_internal_name, dotted};
ghost use Rattle.pj_signatures.specs.Reading.{identifier_at, path_at};
ghost use Rattle.pj_signatures.specs.Seen.{seen_text};

use crate::scan::{behind, split_run};
use pj_base::{NoMemory, Text};
use pj_names::ClassName;
use std::alloc::Global;

/// Whether a text is a name without some signs.
fn is_name(text: &str, signs: &[u8]) -> bool
    ensures { result ≡ is_name signs.now text.now }
{
    for byte in text.as_bytes() {
        if signs.contains(byte) {
            return false;
        }
    }
    !text.is_empty()
}

/// Whether a text is names without some signs, with solidi between.
fn are_names(text: &str, signs: &[u8]) -> bool
    ensures { result ≡ are_names signs.now text.now }
{
    let mut begun = false;
    for byte in text.as_bytes() {
        match byte {
            b'/' if !begun => return false,
            b'/' => begun = false,
            _ if signs.contains(byte) => return false,
            _ => begun = true,
        }
    }
    begun
}

/// Whether a text is an identifier of a signature (JVMS 4.7.9.1).
fn is_identifier(text: &str) -> bool
    ensures { result ≡ is_identifier text.now }
{
    is_name(text, b".;[<>:/")
}

/// Whether a text is identifiers of a signature with solidi between (JVMS 4.7.9.1).
fn is_path(text: &str) -> bool
    ensures { result ≡ is_path text.now }
{
    are_names(text, b".;[<>:/")
}

/// Whether a text is the binary name of a class in internal form (JVMS 4.2.1).
pub fn is_internal_name(text: &str) -> bool
    ensures { result ≡ is_internal_name text.now }
{
    are_names(text, b".;[/")
}

/// The identifier at the front of a text, and what stands behind it.
pub fn identifier_at<'s>(text: &'s str) -> Option<(&'s str, &'s str)>
    ensures value { seen_text result ≡ identifier_at text.now }
    ensures is_identifier { IfSome result (λ found. IsTrue (is_identifier found.0.now)) }
    ensures shorter { IfSome result (λ found. length found.1.now < length text.now) }
    ensures utf8 { IfSome result (λ found. IsUtf8 found.1.now) }
{
    let (name, rest) = split_run(text, b".;[<>:");
    if is_identifier(name) {
        Some((name, rest))
    } else {
        None
    }
}

/// The path of a class type at the front of a text, and what stands behind it.
pub fn path_at<'s>(text: &'s str) -> Option<(&'s str, &'s str)>
    ensures value { seen_text result ≡ path_at text.now }
    ensures is_path { IfSome result (λ found. IsTrue (is_path found.0.now)) }
    ensures shorter { IfSome result (λ found. length found.1.now ≤ length text.now) }
    ensures utf8 { IfSome result (λ found. IsUtf8 found.1.now) }
{
    let (path, rest) = split_run(text, b".;[<>:");
    if is_path(path) {
        Some((path, rest))
    } else {
        None
    }
}

/// A text with dots in place of solidi.
fn dotted(alloc: Global, text: &str) -> Result<Text, NoMemory>
    ensures { IfOk result (λ made. made ≡ dotted text.now) }
{
    let (front, mut rest) = split_run(text, b"/");
    let mut made = Text::from_str(alloc, front)?;
    while let Some(after) = behind(rest, b'/') {
        let (part, left) = split_run(after, b"/");
        made.push_str(".")?;
        made.push_str(part)?;
        rest = left;
    }
    Ok(made)
}

/// The name of the Java language for a path (JLS 13.1).
#[tactic(auto, using(crate::proofs::Pieces::path_is_class))]
pub fn name_of_path(alloc: Global, path: &str) -> Result<Text, NoMemory>
    requires { IsTrue (is_path path.now) }
    ensures value { IfOk result (λ made. made ≡ dotted path.now) }
    ensures is_class_name { IfOk result (λ made. IsTrue (is_class_name made)) }
{
    dotted(alloc, path)
}

/// The name of the Java language for a binary name in internal form (JLS 13.1).
#[tactic(auto, using(crate::proofs::Pieces::internal_is_class))]
pub fn name_of_internal(alloc: Global, name: &str) -> Result<Text, NoMemory>
    requires { IsTrue (is_internal_name name.now) }
    ensures value { IfOk result (λ made. made ≡ dotted name.now) }
    ensures is_class_name { IfOk result (λ made. IsTrue (is_class_name made)) }
{
    dotted(alloc, name)
}

/// Puts the name of a member class behind that of the class around it (JLS 13.1). After an `Err` the name may be cut.
#[tactic(auto, using(crate::proofs::Pieces::member_is_class))]
pub fn add_member(name: &mut Text, member: &str) -> Result<(), NoMemory>
    requires class { IsTrue (is_class_name name.old) }
    requires member { IsTrue (is_identifier member.now) }
    ensures value { OnOk result (name.new ≡ name.old ++ 36 ∷ member.now) }
    ensures is_class_name { OnOk result (IsTrue (is_class_name name.new)) }
{
    name.push_str("$")?;
    name.push_str(member)?;
    Ok(())
}

/// The class of a name.
pub fn class_name(alloc: Global, text: &str) -> Result<ClassName, NoMemory>
    requires { IsTrue (is_class_name text.now) }
    ensures { IfOk result (λ made. made ≡ text.now) }
{
    match ClassName::of(alloc, text)? {
        Some(name) => Ok(name),
        None => unreachable!(),
    }
}

/// The class of a name in internal form (JVMS 4.2.1), with dots as the Java language has it (JLS 13.1), or `None` where the text is no
/// such name.
pub fn class_of_internal(alloc: Global, text: &str) -> Result<Option<ClassName>, NoMemory>
    ensures { IfOk result (λ found. MatchOption found (is_internal_name text.now ≡ false) (λ name. IsTrue (is_internal_name text.now) × (name ≡ dotted text.now))) }
{
    if !is_internal_name(text) {
        return Ok(None);
    }
    let name = name_of_internal(alloc, text)?;
    let class = class_name(alloc, name.as_str())?;
    Ok(Some(class))
}
