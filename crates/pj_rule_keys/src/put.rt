//! Writing the texts of keys.
ghost use Rattle.std.specs.Prelude.{◌≡◌, ◌<◌, ◌^◌, ◌++◌, OnOk, flat_map, length};
ghost use Rattle.std.specs.Fmt.{decimal};
ghost use Rattle.std.specs.List.{All};
ghost use Rattle.pj_rule_keys.specs.Keys.{property_texts, rule_texts, spelled, HasRoom, FitsProperty, FitsKey};

use pj_base::{NoMemory, Text};
use pj_names::RuleRow;
use pj_rule_sets::Rule;
use pj_rule_texts::Property;
use std::alloc::Global;

/// Puts a text behind the number of its bytes. More bytes than four bytes tell are want of memory.
pub(crate) fn put_text(out: &mut Vec<u8>, text: &str) -> Result<(), NoMemory>
    ensures put { OnOk result (out.new.items ≡ out.old.items ++ spelled text.now) }
    ensures room { OnOk result (HasRoom text.now) }
{
    let bytes = text.as_bytes();
    if bytes.len() > 0xffff_ffff {
        return Err(NoMemory);
    }
    out.extend_from_slice(&(bytes.len() as u32).to_be_bytes())?;
    out.extend_from_slice(bytes)?;
    Ok(())
}

/// Puts a number as a decimal text.
pub(crate) fn put_number(alloc: Global, out: &mut Vec<u8>, number: usize) -> Result<(), NoMemory>
    ensures { OnOk result (out.new.items ≡ out.old.items ++ spelled (decimal number)) }
{
    let text = format!(in alloc; "{number}")?;
    put_text(out, text.as_str())
}

/// Puts the texts of a property.
fn put_property(out: &mut Vec<u8>, property: &Property) -> Result<(), NoMemory>
    ensures put { OnOk result (out.new.items ≡ out.old.items ++ (spelled property.now.name ++ (spelled property.now.kind ++ spelled property.now.value))) }
    ensures room { OnOk result (FitsProperty property.now) }
{
    put_text(out, property.name.as_str())?;
    put_text(out, property.kind.as_str())?;
    put_text(out, property.value.as_str())
}

/// Puts the texts of properties.
fn put_properties(out: &mut Vec<u8>, properties: &[Property]) -> Result<(), NoMemory>
    ensures put { OnOk result (out.new.items ≡ out.old.items ++ flat_map (λ p. spelled p.name ++ (spelled p.kind ++ spelled p.value)) properties.now) }
    ensures room { OnOk result (All FitsProperty properties.now) }
{
    for property in properties {
        put_property(out, property)?;
    }
    Ok(())
}

/// Puts texts.
fn put_texts(out: &mut Vec<u8>, texts: &[Text]) -> Result<(), NoMemory>
    ensures put { OnOk result (out.new.items ≡ out.old.items ++ flat_map spelled texts.now) }
    ensures room { OnOk result (All HasRoom texts.now) }
{
    for text in texts {
        put_text(out, text.as_str())?;
    }
    Ok(())
}

/// Puts name, ruleset and message.
fn put_row(out: &mut Vec<u8>, row: &RuleRow) -> Result<(), NoMemory>
    ensures put { OnOk result (out.new.items ≡ out.old.items ++ (spelled row.now.name ++ (spelled row.now.rule_set ++ spelled row.now.message))) }
    ensures room { OnOk result (HasRoom row.now.name × HasRoom row.now.rule_set × HasRoom row.now.message) }
{
    put_text(out, row.name.as_str())?;
    put_text(out, row.rule_set.as_str())?;
    put_text(out, row.message.as_str())
}

/// Puts priority and query.
fn put_query(alloc: Global, out: &mut Vec<u8>, priority: u8, xpath: &Text) -> Result<(), NoMemory>
    ensures put { OnOk result (out.new.items ≡ out.old.items ++ (spelled (decimal priority) ++ spelled xpath.now)) }
    ensures room { OnOk result ((priority < 2 ^ 64) × HasRoom xpath.now) }
{
    put_number(alloc, out, priority as usize)?;
    put_text(out, xpath.as_str())
}

/// Puts properties behind their number.
fn put_property_list(
    alloc: Global,
    out: &mut Vec<u8>,
    properties: &[Property],
) -> Result<(), NoMemory>
    ensures put { OnOk result (out.new.items ≡ out.old.items ++ (spelled (decimal (length properties.now)) ++ flat_map (λ p. spelled p.name ++ (spelled p.kind ++ spelled p.value)) properties.now)) }
    ensures count { OnOk result (length properties.now < 2 ^ 64) }
    ensures room { OnOk result (All FitsProperty properties.now) }
{
    put_number(alloc, out, properties.len())?;
    put_properties(out, properties)
}

/// Puts texts behind their number.
fn put_text_list(alloc: Global, out: &mut Vec<u8>, texts: &[Text]) -> Result<(), NoMemory>
    ensures put { OnOk result (out.new.items ≡ out.old.items ++ (spelled (decimal (length texts.now)) ++ flat_map spelled texts.now)) }
    ensures count { OnOk result (length texts.now < 2 ^ 64) }
    ensures room { OnOk result (All HasRoom texts.now) }
{
    put_number(alloc, out, texts.len())?;
    put_texts(out, texts)
}

/// Puts all of a rule but the number of its top ruleset.
pub(crate) fn put_rule(alloc: Global, out: &mut Vec<u8>, rule: &Rule) -> Result<(), NoMemory>
    ensures put { OnOk result (out.new.items ≡ out.old.items ++ flat_map spelled (rule_texts rule.now)) }
    ensures room { OnOk result (FitsKey rule.now) }
{
    put_row(out, &rule.row)?;
    put_query(alloc, out, rule.row.priority, &rule.xpath)?;
    put_property_list(alloc, out, rule.properties.as_slice())?;
    put_text_list(alloc, out, rule.exclude.as_slice())?;
    put_text_list(alloc, out, rule.include.as_slice())?;
    Ok(())
}
