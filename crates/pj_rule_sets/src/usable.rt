//! Rules that can be used, each with its expressions.
ghost use Rattle.std.specs.Prelude.{◌≡◌, true, IfOk, IfErr, OnOk};
ghost use Rattle.std.specs.Arc.{arc_value};
ghost use Rattle.pj_rule_sets.specs.Expressions.{AreOf, IsSound};
ghost use Rattle.pj_rule_sets.specs.Faults.{IsFault};
ghost use Rattle.pj_rule_sets.specs.Usable.{IsUsable, have_same_sources};

use crate::expressions::{RuleExpressions, expressions_of};
use crate::fault::ExpressionFault;
use pj_base::{Copied, NoMemory};
use pj_rule_texts::RuleTexts;
use pj_xparse::Parser;
use std::alloc::Global;
use std::marker::Model;
use std::sync::Arc;

/// A rule that can be used: its texts with the expressions that they spell, which its copies share. Contracts see it as its texts.
#[derive(Drop)]
pub struct UsableRule {
    texts: RuleTexts,
    expressions: Arc<RuleExpressions, Global>,
}

impl Model for UsableRule {
    ghost use Rattle.std.specs.Arc.{arc_value};
    ghost use Rattle.pj_rule_sets.specs.Usable.{IsUsable};
    ghost use Rattle.pj_rule_texts.specs.declared.rule.RuleTexts.{RuleTexts};

    ghost Value = { RuleTexts };

    ghost view = { λ rule. rule.texts };

    ghost invariant = { λ rule. IsUsable rule.texts (arc_value rule.expressions) };
}

impl Copied for UsableRule {
    fn copied(&self) -> Result<UsableRule, NoMemory> {
        Ok(UsableRule {
            texts: self.texts.copied()?,
            expressions: self.expressions.clone()?,
        })
    }
}

/// Whether two rules have the same texts in all from which expressions are made: the message, the query and the other properties.
fn have_same_sources(one: &RuleTexts, other: &RuleTexts) -> bool
    ensures { result ≡ have_same_sources one.now other.now }
{
    one.row.message == other.row.message
        && one.xpath == other.xpath
        && one.properties == other.properties
}

impl UsableRule {
    /// The rule of these texts, or the first fault of their expressions. These are compiled here, and nowhere again.
    pub fn of(
        alloc: Global,
        parser: &Parser,
        texts: RuleTexts,
    ) -> Result<UsableRule, ExpressionFault>
        ensures value { IfOk result (λ rule. rule ≡ texts) }
        ensures sound { OnOk result (IsSound texts) }
        ensures fault { IfErr result (IsFault texts) }
    {
        let expressions = expressions_of(alloc, parser, &texts)?;
        let rule = UsableRule::with(alloc, texts, expressions)?;
        Ok(rule)
    }

    /// The rule of these texts, with the expressions that they spell.
    fn with(
        alloc: Global,
        texts: RuleTexts,
        expressions: RuleExpressions,
    ) -> Result<UsableRule, NoMemory>
        requires { IsUsable texts expressions }
        ensures { IfOk result (λ rule. rule ≡ texts) }
    {
        let expressions = Arc::new(alloc, expressions)?;
        Ok(UsableRule { texts, expressions })
    }

    /// The rule of these texts, which has the expressions of this rule.
    fn with_same(&self, texts: RuleTexts) -> Result<UsableRule, NoMemory>
        requires { have_same_sources self.now texts ≡ true }
        ensures value { IfOk result (λ rule. rule ≡ texts) }
        ensures sound { OnOk result (IsSound texts) }
    {
        let expressions = self.expressions.clone()?;
        Ok(UsableRule { texts, expressions })
    }

    /// The rule of these texts in the place of this rule, or the first fault of their expressions. Where message, query and other
    /// properties are the same, nothing is compiled: it shares the expressions of this rule.
    pub fn changed(
        &self,
        alloc: Global,
        parser: &Parser,
        texts: RuleTexts,
    ) -> Result<UsableRule, ExpressionFault>
        ensures value { IfOk result (λ rule. rule ≡ texts) }
        ensures sound { OnOk result (IsSound texts) }
        ensures fault { IfErr result (IsFault texts) }
    {
        if !have_same_sources(&self.texts, &texts) {
            return UsableRule::of(alloc, parser, texts);
        }
        let rule = self.with_same(texts)?;
        Ok(rule)
    }

    /// Its texts.
    pub fn texts(&self) -> &RuleTexts
        ensures value { result.now ≡ self.now }
        ensures sound { IsSound self.now }
    {
        &self.texts
    }

    /// Its texts, and the expressions that they spell.
    pub fn into_parts(self) -> (RuleTexts, Arc<RuleExpressions, Global>)
        ensures texts { result.0 ≡ self }
        ensures expressions { AreOf result.0 (arc_value result.1) }
        ensures sound { IsSound self }
    {
        let UsableRule { texts, expressions } = self;
        (texts, expressions)
    }
}
