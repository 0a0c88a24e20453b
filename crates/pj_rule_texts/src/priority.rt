//! Priorities.
ghost use Rattle.std.specs.Prelude.{◌≡◌, IfOk};
ghost use Rattle.pj_rule_texts.specs.Values.{priority_named, priority_of};

use crate::spaces::normalized;
use pj_base::NoMemory;
use std::alloc::Global;

/// The priority that a text without white space around it spells.
fn priority_named(text: &str) -> Option<u8>
    ensures { result ≡ priority_named text.now }
{
    match text {
        "1" => Some(1),
        "2" => Some(2),
        "3" => Some(3),
        "4" => Some(4),
        "5" => Some(5),
        _ => None,
    }
}

/// The priority of a text: one of the digits 1, the highest, to 5, with white space around it; else `None`.
pub fn priority_of(alloc: Global, text: &str) -> Result<Option<u8>, NoMemory>
    ensures { IfOk result (λ priority. priority ≡ priority_of text.now) }
{
    let text = normalized(alloc, text)?;
    Ok(priority_named(text.as_str()))
}
