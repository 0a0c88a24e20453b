//! Lists.
ghost use Rattle.std.specs.Prelude.{◌≡◌, IfOk};
ghost use Rattle.pj_rule_texts.specs.Values.{members_of};

use pj_base::{Names, NoMemory, Text};
use std::alloc::Global;

/// The members of a list that is written with commas between: the empty text has none, and any other text is cut at each comma.
pub fn members_of(alloc: Global, text: &str) -> Result<Names, NoMemory>
    ensures { IfOk result (λ members. members ≡ members_of text.now) }
{
    let mut members = Names::new(alloc);
    if text.is_empty() {
        return Ok(members);
    }
    let mut left = text;
    while let Some((member, rest)) = left.split_once(',') {
        members.push(Text::from_str(alloc, member)?)?;
        left = rest;
    }
    members.push(Text::from_str(alloc, left)?)?;
    Ok(members)
}
