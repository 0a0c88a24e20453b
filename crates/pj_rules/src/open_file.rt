//! Files that are being read.
ghost use Rattle.std.specs.Prelude.{◌≡◌, true, IfOk, IfErr, OnOk, is_some};
ghost use Rattle.pj_rule_sets.specs.Patterns.{whole};
ghost use Rattle.pj_rule_texts.specs.declared.written.Part.TheVariants as part;
ghost use Rattle.pj_rules.specs.Effective.{nothing};
ghost use Rattle.pj_rules.specs.Patterns.{IsPatternFault};
ghost use Rattle.pj_rules.specs.Refusals.{IfOwn};
ghost use Rattle.pj_rules.specs.States.{Gathers};
ghost use Rattle.pj_xpatterns.specs.Meaning.{IsNoPattern};

use crate::defining::refused;
use crate::fault::{RuleRefused, RuleWhat};
use crate::progress::Progress;
use crate::referral::Referral;
use crate::rest::Rest;
use pj_base::{Copied, Text};
use pj_rule_sets::{PathPattern, PathPatterns};
use pj_rule_texts::WrittenRuleset;
use pj_xpatterns::PatternFault;
use std::alloc::Global;

/// A file that is being read.
#[derive(Drop)]
pub struct OpenFile {
    /// Its path.
    pub path: Text,
    /// The name of its ruleset.
    pub rule_set: Text,
    /// The parts that are not read yet.
    pub rest: Rest,
    /// What is read of its rules.
    pub progress: Progress,
    /// The path patterns that are read, where it is a top ruleset.
    pub patterns: Option<PathPatterns>,
}

/// A file in which a reference waits until the file is read to which it leads.
#[derive(Drop)]
pub struct Waiting {
    /// The file.
    pub file: OpenFile,
    /// The reference.
    pub referral: Referral,
}

impl OpenFile {
    /// A file of which nothing is read.
    pub fn of(
        alloc: Global,
        path: Text,
        written: WrittenRuleset,
        patterns: Option<PathPatterns>,
    ) -> OpenFile
        ensures path { result.path ≡ path }
        ensures rule_set { result.rule_set ≡ written.rule_set }
        ensures rest { result.rest ≡ written.parts }
        ensures progress { result.progress ≡ nothing }
        ensures patterns { result.patterns ≡ patterns }
    {
        let WrittenRuleset { rule_set, parts } = written;
        OpenFile {
            path,
            rule_set,
            rest: Rest::of(parts),
            progress: Progress::new(alloc),
            patterns,
        }
    }
}

/// A path pattern of a file, or its refusal.
fn judged(alloc: Global, path: &Text, text: Text) -> Result<PathPattern, RuleRefused>
    ensures value { IfOk result (λ pattern. pattern ≡ text) }
    ensures taken { OnOk result (¬ IsNoPattern (whole text)) }
    ensures refused { IfErr result (IfOwn (IsPatternFault path.now text)) }
{
    let refused_text = text.copied()?;
    match PathPattern::of(alloc, text) {
        Ok(pattern) => Ok(pattern),
        Err(PatternFault::Refused(_)) => Err(refused(path, RuleWhat::PatternRefused(refused_text))),
        Err(PatternFault::Memory) => Err(RuleRefused::Memory),
    }
}

/// The path patterns with one more of paths for which rules are not active.
pub fn with_exclude(
    alloc: Global,
    path: &Text,
    patterns: Option<PathPatterns>,
    text: Text,
) -> Result<Option<PathPatterns>, RuleRefused>
    ensures value { IfOk result (Gathers patterns (part.ExcludePattern text)) }
    ensures top { IfOk result (λ new. is_some new ≡ is_some patterns) }
    ensures refused { IfErr result (IfOwn (λ fault. (is_some patterns ≡ true) × IsPatternFault path.now text fault)) }
{
    match patterns {
        None => Ok(None),
        Some(patterns) => {
            let PathPatterns {
                mut exclude,
                include,
            } = patterns;
            let pattern = judged(alloc, path, text)?;
            exclude.push(pattern)?;
            Ok(Some(PathPatterns { exclude, include }))
        }
    }
}

/// The path patterns with one more of paths for which rules are active nevertheless.
pub fn with_include(
    alloc: Global,
    path: &Text,
    patterns: Option<PathPatterns>,
    text: Text,
) -> Result<Option<PathPatterns>, RuleRefused>
    ensures value { IfOk result (Gathers patterns (part.IncludePattern text)) }
    ensures top { IfOk result (λ new. is_some new ≡ is_some patterns) }
    ensures refused { IfErr result (IfOwn (λ fault. (is_some patterns ≡ true) × IsPatternFault path.now text fault)) }
{
    match patterns {
        None => Ok(None),
        Some(patterns) => {
            let PathPatterns {
                exclude,
                mut include,
            } = patterns;
            let pattern = judged(alloc, path, text)?;
            include.push(pattern)?;
            Ok(Some(PathPatterns { exclude, include }))
        }
    }
}
