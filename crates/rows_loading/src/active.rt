//! For which paths rules are active, and which messages they cover. A set of one or two rules is asked for the rules 0 and 1.
use pj_base::{NoMemory, Text};
use pj_rule_sets::{RuleSet, is_active, regex_covers};
use std::alloc::Global;

/// Which of two rules it is.
fn numbers(first: bool, second: bool) -> &'static str {
    match (first, second) {
        (true, true) => "0 1",
        (true, false) => "0",
        (false, true) => "1",
        (false, false) => "none",
    }
}

/// Which rules are active for a path.
pub fn active_shown(alloc: Global, set: &RuleSet, path: &str) -> Result<String, NoMemory> {
    let path = Text::from_str(alloc, path)?;
    let first = is_active(alloc, set, 0, &path)?;
    let second = is_active(alloc, set, 1, &path)?;
    Ok(String::from_str(alloc, numbers(first, second))?)
}

/// Which rules cover their messages.
pub fn covers_shown(alloc: Global, set: &RuleSet) -> Result<String, NoMemory> {
    let first = regex_covers(set, 0)?;
    let second = regex_covers(set, 1)?;
    Ok(String::from_str(alloc, numbers(first, second))?)
}
