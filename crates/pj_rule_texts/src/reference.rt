//! References to rulesets.
ghost use Rattle.std.specs.Prelude.{◌≡◌, IfOk, MatchOption, None, Some};
ghost use Rattle.std.specs.Option.{option_map};
ghost use Rattle.pj_rule_texts.specs.References.{around_last_slash, beside, is_file, is_from_elsewhere, reference_of};
ghost use Rattle.pj_rule_texts.specs.Seen.{meant_of, parts_of};

use pj_base::{NoMemory, Text};
use std::alloc::Global;

/// What a reference means.
#[derive(Clone, Copy)]
pub enum Reference<'a> {
    /// All rules of a file.
    WholeFile(&'a str),
    /// The rule of a name in a file.
    OneRule(&'a str, &'a str),
}

/// What stands before the last slash and behind it; `None` where there is no slash.
fn around_last_slash(text: &str) -> Option<(&str, &str)>
    ensures { option_map parts_of result ≡ around_last_slash text.now }
{
    text.rsplit_once('/')
}

/// Whether a text names a file of rules.
fn is_file(text: &str) -> bool
    ensures { result ≡ is_file text.now }
{
    text.ends_with(".xml")
}

/// What a reference means: all rules of a file where it ends in `.xml`, or else what stands before and behind its last slash, a
/// file and the name of a rule. `None` where it is neither.
pub fn reference_of(text: &str) -> Option<Reference<'_>>
    ensures { option_map meant_of result ≡ reference_of text.now }
{
    if is_file(text) {
        return Some(Reference::WholeFile(text));
    }
    match around_last_slash(text) {
        Some((file, name)) => Some(Reference::OneRule(file, name)),
        None => None,
    }
}

/// The path of a file in the folder of another one: the path of the other up to and including its last slash, and the file's.
pub fn beside(alloc: Global, path: &str, file: &str) -> Result<Text, NoMemory>
    ensures { IfOk result (λ made. made ≡ beside path.now file.now) }
{
    match around_last_slash(path) {
        Some((folder, _)) => {
            let mut made = Text::from_str(alloc, folder)?;
            made.push_str("/")?;
            made.push_str(file)?;
            Ok(made)
        }
        None => Text::from_str(alloc, file),
    }
}

/// Whether a file of this name may be absent, as those that come with PMD may: it begins with `category/` or `rulesets/`.
pub fn is_from_elsewhere(file: &str) -> bool
    ensures { result ≡ is_from_elsewhere file.now }
{
    file.starts_with("category/") || file.starts_with("rulesets/")
}
