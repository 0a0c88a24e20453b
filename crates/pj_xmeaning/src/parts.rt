//! The values of the rules that are still to come, of which the first one stands last.

ghost use Rattle.std.specs.Prelude.{◌≡◌, ◌∷◌, OnOk};
ghost use Rattle.pj_xmeaning.specs.Seen.{seen_part, seen_parts};
ghost use Rattle.pj_xmeaning.specs.Values.{top, below};

use crate::part::Part;
use pj_base::NoMemory;

/// Takes the first one off; where there is none, the tokens are cut off before its rule.
#[tactic(auto, using(crate::proofs::Values::top_of_pushed, crate::proofs::Values::below_pushed))]
pub fn take<'t>(parts: &mut Vec<Part<'t>>) -> Part<'t>
    ensures first { seen_part result ≡ top (seen_parts parts.old.items) }
    ensures others { seen_parts parts.new.items ≡ below (seen_parts parts.old.items) }
{
    match parts.pop() {
        Some(part) => part,
        None => Part::Missing,
    }
}

/// Puts a value before the others.
#[tactic(auto, using(crate::proofs::Values::pushed))]
pub fn put<'t>(parts: &mut Vec<Part<'t>>, part: Part<'t>) -> Result<(), NoMemory>
    ensures { OnOk result (seen_parts parts.new.items ≡ seen_part part.entry ∷ seen_parts parts.old.items) }
{
    parts.push(part)?;
    Ok(())
}
