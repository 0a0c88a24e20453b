//! References with where they lead.
ghost use Rattle.std.specs.Prelude.{◌≡◌, IfOk, IfErr, Some};
ghost use Rattle.std.specs.Option.{option_map};
ghost use Rattle.pj_rule_texts.specs.References.{reference_of};
ghost use Rattle.pj_rules.specs.Referring.{IsNoForm, IsReferral, meant_by};
ghost use Rattle.pj_rules.specs.Refusals.{IfOwn};

use crate::defining::refused;
use crate::fault::{RuleRefused, RuleWhat};
use pj_base::{NoMemory, Text};
use pj_rule_texts::{Reference, WrittenRule, reference_of};
use std::alloc::Global;

/// Where a reference leads.
#[derive(Drop)]
pub struct Target {
    /// The file that it names.
    pub file: Text,
    /// The rule in it, where the reference is to one.
    pub name: Option<Text>,
}

/// A reference, with where it leads.
#[derive(Drop)]
pub struct Referral {
    /// Its element.
    pub rule: WrittenRule,
    /// Its text.
    pub reference: Text,
    /// Where it leads.
    pub target: Target,
}

/// Where a reference leads; `None` where it has neither form.
fn target_of(alloc: Global, reference: &str) -> Result<Option<Target>, NoMemory>
    ensures { IfOk result (λ target. option_map meant_by target ≡ reference_of reference.now) }
{
    match reference_of(reference) {
        None => Ok(None),
        Some(Reference::WholeFile(file)) => {
            let file = Text::from_str(alloc, file)?;
            Ok(Some(Target { file, name: None }))
        }
        Some(Reference::OneRule(file, name)) => {
            let file = Text::from_str(alloc, file)?;
            let name = Text::from_str(alloc, name)?;
            Ok(Some(Target {
                file,
                name: Some(name),
            }))
        }
    }
}

/// The reference of an element, with where it leads.
pub fn referral_of(
    alloc: Global,
    path: &Text,
    rule: WrittenRule,
    reference: Text,
) -> Result<Referral, RuleRefused>
    requires { rule.reference ≡ Some reference }
    ensures value { IfOk result (IsReferral rule) }
    ensures fault { IfErr result (IfOwn (IsNoForm path.now rule)) }
{
    let target = target_of(alloc, reference.as_str())?;
    match target {
        Some(target) => Ok(Referral {
            rule,
            reference,
            target,
        }),
        None => Err(refused(path, RuleWhat::MissingRef(reference))),
    }
}
