//! Gathering the rules of top rulesets.
ghost use Rattle.std.specs.Prelude.{◌≡◌, ◌+◌, ◌++◌, map, IfOk, OnOk};
ghost use Rattle.std.specs.Arc.{arc_value};
ghost use Rattle.std.specs.List.{flat_map};
ghost use Rattle.std.specs.Option.{option_to_list};
ghost use Rattle.pj_rules.specs.Load.{error_of, errors_of_top, kept_rule, rules_from, rules_of_top};
ghost use Rattle.pj_rules.specs.States.{top_rules};

use crate::top::Top;
use pj_base::{ListOf, NoMemory};
use pj_names::ConfigErrors;
use pj_rule_sets::{Entry, Origin, PathPatterns, Rule, Rules};
use std::alloc::Global;
use std::sync::Arc;

/// What is gathered: rules and configuration errors.
#[derive(Drop)]
pub struct Gathered {
    /// The rules.
    pub rules: Rules,
    /// What cannot be used.
    pub unusable: ConfigErrors,
}

/// Gathers a member of the list of a top ruleset.
fn gather_one(
    alloc: Global,
    minimum: u8,
    number: u32,
    patterns: &Arc<PathPatterns, Global>,
    taken: (Origin, Entry),
    gathered: &mut Gathered,
) -> Result<(), NoMemory>
    ensures rules { OnOk result (gathered.new.rules ≡ gathered.old.rules ++ option_to_list (kept_rule minimum number (arc_value patterns.now).exclude (arc_value patterns.now).include taken)) }
    ensures unusable { OnOk result (gathered.new.unusable ≡ gathered.old.unusable ++ option_to_list (error_of taken)) }
{
    let (_, entry) = taken;
    match entry {
        Entry::Unusable(unusable) => gathered.unusable.push(unusable.error),
        Entry::Rule(rule) => {
            if rule.texts().row.priority > minimum {
                return Ok(());
            }
            let rule = Rule::of(alloc, number, rule, patterns)?;
            gathered.rules.push(rule)
        }
    }
}

/// Gathers the list of a top ruleset.
fn gather_top(
    alloc: Global,
    minimum: u8,
    number: u32,
    top: Top,
    gathered: &mut Gathered,
) -> Result<(), NoMemory>
    ensures rules { OnOk result (gathered.new.rules ≡ gathered.old.rules ++ rules_of_top minimum number (top_rules top)) }
    ensures unusable { OnOk result (gathered.new.unusable ≡ gathered.old.unusable ++ errors_of_top (top_rules top)) }
{
    let Top { list, patterns } = top;
    let patterns = Arc::new(alloc, patterns)?;
    for taken in list.into_vec() {
        gather_one(alloc, minimum, number, &patterns, taken, gathered)?;
    }
    Ok(())
}

/// The number behind a number. More than 4,294,967,295 is want of memory.
fn next_number(number: u32) -> Result<u32, NoMemory>
    ensures { IfOk result (λ next. next ≡ number + 1) }
{
    match number.checked_add(1) {
        Some(next) => Ok(next),
        None => Err(NoMemory),
    }
}

/// Gathers the lists of top rulesets, in their order.
pub fn gather(alloc: Global, minimum: u8, tops: ListOf<Top>) -> Result<Gathered, NoMemory>
    ensures rules { IfOk result (λ gathered. gathered.rules ≡ rules_from minimum 0 (map top_rules tops)) }
    ensures unusable { IfOk result (λ gathered. gathered.unusable ≡ flat_map errors_of_top (map top_rules tops)) }
{
    let mut gathered = Gathered {
        rules: ListOf::new(alloc),
        unusable: ListOf::new(alloc),
    };
    let mut number: u32 = 0;
    for top in tops.into_vec() {
        gather_top(alloc, minimum, number, top, &mut gathered)?;
        number = next_number(number)?;
    }
    Ok(gathered)
}
