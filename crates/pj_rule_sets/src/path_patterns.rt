//! The path patterns of top rulesets.
ghost use Rattle.std.specs.Prelude.{◌≡◌, [], IfOk, IfErr, OnOk};
ghost use Rattle.pj_rule_sets.specs.Faults.{IfNoPattern};
ghost use Rattle.pj_rule_sets.specs.Patterns as patterns;
ghost use Rattle.pj_rule_sets.specs.Active.{are_active, matches_some};
ghost use Rattle.pj_xpatterns.specs.Meaning.{IsNoPattern, is_found};

use crate::patterns::whole;
use pj_base::{Copied, ListOf, Names, NoMemory, Text};
use pj_xpatterns::{CompiledPattern, PatternFault};
use std::alloc::Global;
use std::marker::Model;

/// A pattern that is matched against whole paths, compiled once. Contracts see it as its text.
#[derive(Drop)]
pub struct PathPattern {
    text: Text,
    compiled: CompiledPattern,
}

impl Model for PathPattern {
    ghost use Rattle.std.specs.Prelude.{◌≡◌, List, ℕ};
    ghost use Rattle.pj_rule_sets.specs.Patterns.{whole};

    ghost Value = { List ℕ };

    ghost view = { λ pattern. pattern.text };

    ghost invariant = { λ pattern. pattern.compiled ≡ whole pattern.text };
}

impl PathPattern {
    /// Compiles a pattern, as `\A(?:P)\z`.
    pub fn of(alloc: Global, text: Text) -> Result<PathPattern, PatternFault>
        ensures value { IfOk result (λ pattern. pattern ≡ text) }
        ensures taken { OnOk result (¬ IsNoPattern (patterns.whole text)) }
        ensures refused { IfErr result (λ fault. IfNoPattern fault (IsNoPattern (patterns.whole text))) }
    {
        let compiled = whole(alloc, text.as_str())?;
        Ok(PathPattern { text, compiled })
    }

    /// Its text.
    pub fn text(&self) -> &Text
        ensures { result.now ≡ self.now }
    {
        &self.text
    }

    /// Whether it matches the whole path.
    pub fn matches(&self, alloc: Global, path: &str) -> Result<bool, NoMemory>
        ensures { IfOk result (λ found. found ≡ is_found (patterns.whole self.now) path.now) }
    {
        self.compiled.is_found(alloc, path)
    }
}

/// The path patterns of a top ruleset.
#[derive(Drop)]
pub struct PathPatterns {
    /// Those of paths for which its rules are not active.
    pub exclude: ListOf<PathPattern>,
    /// Those of paths for which they are active nevertheless.
    pub include: ListOf<PathPattern>,
}

impl PathPatterns {
    /// No patterns.
    pub fn new(alloc: Global) -> PathPatterns
        ensures exclude { result.exclude ≡ [] }
        ensures include { result.include ≡ [] }
    {
        PathPatterns {
            exclude: ListOf::new(alloc),
            include: ListOf::new(alloc),
        }
    }

    /// Whether the rules of a top ruleset with these patterns are active for a path: unless an exclude pattern matches the whole path and
    /// no include pattern does.
    pub fn are_active(&self, alloc: Global, path: &str) -> Result<bool, NoMemory>
        ensures { IfOk result (λ active. active ≡ are_active self.now.exclude self.now.include path.now) }
    {
        let is_excluded = matches_some(alloc, self.exclude.as_slice(), path)?;
        if !is_excluded {
            return Ok(true);
        }
        matches_some(alloc, self.include.as_slice(), path)
    }
}

/// The texts of patterns.
pub fn texts_of(alloc: Global, patterns: &[PathPattern]) -> Result<Names, NoMemory>
    ensures { IfOk result (λ texts. texts ≡ patterns.now) }
{
    let mut texts = Names::new(alloc);
    for pattern in patterns {
        texts.push(pattern.text().copied()?)?;
    }
    Ok(texts)
}

/// Whether some pattern matches the whole path.
fn matches_some(alloc: Global, patterns: &[PathPattern], path: &str) -> Result<bool, NoMemory>
    ensures { IfOk result (λ found. found ≡ matches_some patterns.now path.now) }
{
    for pattern in patterns {
        if pattern.matches(alloc, path)? {
            return Ok(true);
        }
    }
    Ok(false)
}
