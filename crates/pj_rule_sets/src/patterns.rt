//! The patterns of a rule beside those of its expressions.
ghost use Rattle.std.specs.Prelude.{◌≡◌, [], ◌∷◌, if◌then◌else◌, IfOk, IfErr, OnOk};
ghost use Rattle.std.specs.List.{flat_map};
ghost use Rattle.std.specs.Option.{option_copied};
ghost use Rattle.pj_rule_sets.specs.Faults.{IfNoPattern, HasNoPattern};
ghost use Rattle.pj_rule_sets.specs.Patterns.{is_covered_by, pattern_of_property, value_of, whole, whole_of};
ghost use Rattle.pj_rule_texts.specs.Values.{type_named};
ghost use Rattle.pj_xpatterns.specs.Meaning.{IsNoPattern, no_flags};
ghost use Rattle.pj_xpatterns.specs.Refusing.{AreTaken};

use pj_base::{NoMemory, Text, is_same_text};
use pj_rule_texts::{Property, PropertyType, needs_no_type, type_named};
use pj_xpatterns::{CompiledPattern, PatternFault, PatternFlags};
use std::alloc::Global;

/// No flags.
const NO_FLAGS: PatternFlags = PatternFlags {
    any_case: false,
    multi_line: false,
    dot_all: false,
};

/// The text by which a pattern matches a whole text.
fn whole_text(alloc: Global, pattern: &str) -> Result<Text, NoMemory>
    ensures { IfOk result (λ text. text ≡ (whole pattern.now).0) }
{
    let mut text = Text::from_str(alloc, "\\A(?:")?;
    text.push_str(pattern)?;
    text.push_str(")\\z")?;
    Ok(text)
}

/// A pattern as one that matches a whole text: `\A(?:P)\z`. What is taken or refused is this text as a whole.
pub fn whole(alloc: Global, pattern: &str) -> Result<CompiledPattern, PatternFault>
    ensures value { IfOk result (λ compiled. compiled ≡ whole pattern.now) }
    ensures taken { OnOk result (¬ IsNoPattern (whole pattern.now)) }
    ensures refused { IfErr result (λ fault. IfNoPattern fault (IsNoPattern (whole pattern.now))) }
{
    let text = whole_text(alloc, pattern)?;
    CompiledPattern::of(alloc, text.as_str(), NO_FLAGS)
}

/// The value of the first property of a name.
pub(crate) fn value_of<'a>(properties: &'a [Property], name: &str) -> Option<&'a Text>
    ensures { option_copied result ≡ value_of name.now properties.now }
{
    for property in properties {
        if is_same_text(property.name.as_str(), name) {
            return Some(&property.value);
        }
    }
    None
}

/// Whether a property is a pattern by itself.
fn is_pattern(property: &Property) -> bool
    ensures { pattern_of_property property.now ≡ (if result then (property.now.value, no_flags) ∷ [] else []) }
{
    if needs_no_type(property.name.as_str()) {
        return false;
    }
    match type_named(property.kind.as_str()) {
        Some(PropertyType::Regex) => true,
        _ => false,
    }
}

/// Refuses a property that is to be a pattern and is none.
fn judge_property(alloc: Global, property: &Property) -> Result<(), PatternFault>
    ensures taken { OnOk result (AreTaken (pattern_of_property property.now)) }
    ensures refused { IfErr result (λ fault. IfNoPattern fault (HasNoPattern (pattern_of_property property.now))) }
{
    if !is_pattern(property) {
        return Ok(());
    }
    match CompiledPattern::of(alloc, property.value.as_str(), NO_FLAGS) {
        Ok(_) => Ok(()),
        Err(fault) => Err(fault),
    }
}

/// Refuses properties one of which is to be a pattern and is none.
pub(crate) fn judge_properties(alloc: Global, properties: &[Property]) -> Result<(), PatternFault>
    ensures taken { OnOk result (AreTaken (flat_map pattern_of_property properties.now)) }
    ensures refused { IfErr result (λ fault. IfNoPattern fault (HasNoPattern (flat_map pattern_of_property properties.now))) }
{
    for property in properties {
        match judge_property(alloc, property) {
            Ok(()) => {}
            Err(fault) => return Err(fault),
        }
    }
    Ok(())
}

/// Whether a pattern, where there is one, matches the whole text; refused where it is no pattern.
pub(crate) fn is_covered_by(
    alloc: Global,
    pattern: Option<&Text>,
    text: &str,
) -> Result<bool, PatternFault>
    ensures value { IfOk result (λ covered. covered ≡ is_covered_by (option_copied pattern.entry) text.now) }
    ensures taken { OnOk result (AreTaken (whole_of (option_copied pattern.entry))) }
    ensures refused { IfErr result (λ fault. IfNoPattern fault (HasNoPattern (whole_of (option_copied pattern.entry)))) }
{
    match pattern {
        None => Ok(false),
        Some(pattern) => match whole(alloc, pattern.as_str()) {
            Ok(compiled) => Ok(compiled.is_found(alloc, text)?),
            Err(fault) => Err(fault),
        },
    }
}
