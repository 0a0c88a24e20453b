//! The patterns of an expression.
ghost use Rattle.std.specs.Prelude.{◌≡◌, ◌||◌, true, false, IfOk, IfErr, OnOk, MatchOption};
ghost use Rattle.std.specs.BTreeMap.{IsOrdered};
ghost use Rattle.std.specs.Cmp.Lexicographic.{slice_cmp};
ghost use Rattle.std.specs.Map.{values_of};
ghost use Rattle.std.specs.Ordering.{nat_cmp};
ghost use Rattle.pj_xpatterns.specs.Keys.{AreKeyed, key_of};
ghost use Rattle.pj_xpatterns.specs.Meaning.{AreApart, IsNoPattern, Pattern, has, same_pattern};
ghost use Rattle.pj_xpatterns.specs.Refusing.{AreTaken, IfRefused, IsFirstRefused};
ghost use Rattle.pj_xpatterns.specs.Written.{patterns_in, variables_of};

use crate::compiled::{CompiledPattern, PatternFault};
use crate::flags::PatternFlags;
use crate::own::Found;
use crate::written::gather;
use pj_base::{NoMemory, Text};
use pj_xexpressions::Expr;
use pj_xvalue::BoundVars;
use std::alloc::Global;
use std::collections::BTreeMap;
use std::marker::Model;

/// The patterns of an expression and the variables of its rule, each compiled once. Contracts see them as their texts with their flags.
///
/// A pattern is found by its text and flags in a time that grows with the logarithm of their number.
#[derive(Drop)]
pub struct Patterns {
    held: BTreeMap<Text, CompiledPattern>,
}

impl Model for Patterns {
    ghost use Rattle.std.specs.Prelude.{◌≡◌, List};
    ghost use Rattle.std.specs.Map.{values_of};
    ghost use Rattle.pj_xpatterns.specs.Keys.{AreKeyed};
    ghost use Rattle.pj_xpatterns.specs.Meaning.{Pattern};

    ghost Value = { List Pattern };

    ghost view = { λ patterns. values_of patterns.held.entries };

    ghost invariant = { λ patterns. ∥ AreKeyed patterns.held.entries ∥₁ };
}

impl Patterns {
    /// The patterns of the expression, each once, of which a variable's is the value that it has here.
    ///
    /// Refused is the first pattern in the order of the text that is with its flags no pattern of `regex`'s grammar or nests past its depth.
    pub fn of(
        alloc: Global,
        expr: &Expr,
        variables: &BoundVars<'_>,
    ) -> Result<Patterns, PatternFault>
        ensures value { IfOk result (λ patterns. (pattern : Pattern) → has patterns pattern ≡ has (patterns_in (variables_of variables.now) expr.now) pattern) }
        ensures once { IfOk result (λ patterns. AreApart patterns) }
        ensures taken { OnOk result (AreTaken (patterns_in (variables_of variables.now) expr.now)) }
        ensures refused { IfErr result (λ fault. IfRefused fault (IsFirstRefused (patterns_in (variables_of variables.now) expr.now))) }
    {
        let mut found = Found::new(alloc);
        gather(alloc, variables, expr, &mut found)?;
        compiled(alloc, found.as_slice())
    }

    /// The compiled pattern, where it is among these.
    pub fn get(
        &self,
        alloc: Global,
        pattern: &str,
        flags: PatternFlags,
    ) -> Result<Option<&CompiledPattern>, NoMemory>
        ensures { IfOk result (λ found. MatchOption found (has self.now (pattern.now, flags) ≡ false) (λ compiled. (compiled.now ≡ (pattern.now, flags)) × (has self.now (pattern.now, flags) ≡ true))) }
    {
        let key = key_of(alloc, pattern, flags)?;
        Ok(self.held.get(&key))
    }
}

/// All the patterns found, each compiled once.
fn compiled(alloc: Global, found: &[(Text, PatternFlags)]) -> Result<Patterns, PatternFault>
    ensures value { IfOk result (λ patterns. (pattern : Pattern) → has patterns pattern ≡ has found.now pattern) }
    ensures once { IfOk result (λ patterns. AreApart patterns) }
    ensures taken { OnOk result (AreTaken found.now) }
    ensures refused { IfErr result (λ fault. IfRefused fault (IsFirstRefused found.now)) }
{
    let mut held = BTreeMap::new(alloc);
    for pattern in found {
        match keep(alloc, &mut held, pattern) {
            Ok(()) => {}
            Err(fault) => return Err(fault),
        }
    }
    Ok(Patterns { held })
}

/// Compiles the pattern, unless it is held.
fn keep(
    alloc: Global,
    held: &mut BTreeMap<Text, CompiledPattern>,
    pattern: &(Text, PatternFlags),
) -> Result<(), PatternFault>
    requires keyed { AreKeyed held.old.entries }
    requires ordered { IsOrdered (slice_cmp nat_cmp) held.old }
    ensures keyed { OnOk result (AreKeyed held.new.entries) }
    ensures ordered { OnOk result (IsOrdered (slice_cmp nat_cmp) held.new) }
    ensures value { OnOk result ((other : Pattern) → has (values_of held.new.entries) other ≡ (same_pattern pattern.now other || has (values_of held.old.entries) other)) }
    ensures taken { OnOk result (has (values_of held.old.entries) pattern.now ≡ false → ¬ IsNoPattern pattern.now) }
    ensures refused { IfErr result (λ fault. IfRefused fault (λ text. (text ≡ pattern.now.0) × IsNoPattern pattern.now)) }
{
    let (text, flags) = (pattern.0.as_str(), pattern.1);
    let key = key_of(alloc, text, flags)?;
    if held.contains_key(&key) {
        return Ok(());
    }
    let compiled = CompiledPattern::of(alloc, text, flags)?;
    let _ = held.insert(key, compiled)?;
    Ok(())
}

/// The key of a pattern: its flags, each as its letter or `-`, and its text.
fn key_of(alloc: Global, text: &str, flags: PatternFlags) -> Result<Text, NoMemory>
    ensures { IfOk result (λ key. key ≡ key_of (text.now, flags)) }
{
    let mut key = String::new(alloc);
    key.push(if flags.any_case { 'i' } else { '-' })?;
    key.push(if flags.multi_line { 'm' } else { '-' })?;
    key.push(if flags.dot_all { 's' } else { '-' })?;
    key.push_str(text)?;
    Ok(Text::from_string(key))
}
