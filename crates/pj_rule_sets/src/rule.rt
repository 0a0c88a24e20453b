//! Rules.
ghost use Rattle.std.specs.Prelude.{◌≡◌, IfOk, OnOk};
ghost use Rattle.std.specs.Arc.{arc_value};
ghost use Rattle.std.specs.Option.{option_copied};
ghost use Rattle.pj_rule_sets.specs.Expressions.{AreOf, Both, IsParsed, IsSound, names_of, variables_of};
ghost use Rattle.pj_rule_sets.specs.Patterns.{suppression_of};
ghost use Rattle.pj_rule_texts.specs.Seen.{variables_seen};
ghost use Rattle.pj_rule_sets.specs.Active.{covers, is_active};
ghost use Rattle.pj_rule_sets.specs.Rules.{rule_of, texts_of};
ghost use Rattle.pj_rule_sets.specs.Kept.{ArePatternsOf};

use crate::expressions::RuleExpressions;
use crate::path_patterns::{PathPatterns, texts_of};
use crate::usable::UsableRule;
use pj_base::{Names, NoMemory, Text};
use pj_names::RuleRow;
use pj_rule_texts::{Properties, RuleTexts};
use pj_xexpressions::Expr;
use pj_xpatterns::Patterns;
use pj_xvalue::BoundVars;
use std::alloc::Global;
use std::marker::Model;
use std::sync::Arc;

/// A rule, which contracts see as its texts with the number and the path patterns of its top ruleset.
#[derive(Drop)]
pub struct Rule {
    /// The number of its top ruleset, counted from 0.
    pub top: u32,
    /// Its name, message and priority, and the name of the ruleset that defines it.
    pub row: RuleRow,
    /// The text of its query.
    pub xpath: Text,
    /// Its other properties.
    pub properties: Properties,
    /// The patterns of paths for which the rules of its top ruleset are not active.
    pub exclude: Names,
    /// The patterns of paths for which they are active nevertheless.
    pub include: Names,
    expressions: Arc<RuleExpressions, Global>,
    patterns: Arc<PathPatterns, Global>,
}

impl Model for Rule {
    ghost use Rattle.std.specs.Arc.{arc_value};
    ghost use Rattle.pj_rule_sets.specs.Rules.{EffectiveRule};
    ghost use Rattle.pj_rule_sets.specs.Kept.{IsKept};

    ghost Value = { EffectiveRule };

    ghost view = { λ rule. record { top = rule.top; row = rule.row; xpath = rule.xpath; properties = rule.properties; exclude = rule.exclude; include = rule.include } };

    ghost invariant = { λ rule. IsKept (record { row = rule.row; xpath = rule.xpath; properties = rule.properties }) rule.exclude rule.include (arc_value rule.expressions) (arc_value rule.patterns) };
}

impl Rule {
    /// The rule in a top ruleset. Nothing is compiled: it has the expressions that were made with the rule.
    pub fn of(
        alloc: Global,
        top: u32,
        rule: UsableRule,
        patterns: &Arc<PathPatterns, Global>,
    ) -> Result<Rule, NoMemory>
        ensures value { IfOk result (λ made. made ≡ rule_of top (arc_value patterns.now).exclude (arc_value patterns.now).include rule) }
        ensures sound { OnOk result (IsSound rule) }
    {
        let exclude = texts_of(alloc, patterns.exclude.as_slice())?;
        let include = texts_of(alloc, patterns.include.as_slice())?;
        let patterns = patterns.clone()?;
        let (texts, expressions) = rule.into_parts();
        let RuleTexts {
            row,
            xpath,
            properties,
        } = texts;
        Ok(Rule {
            top,
            row,
            xpath,
            properties,
            exclude,
            include,
            expressions,
            patterns,
        })
    }

    /// The expressions that the rule's texts spell, with their patterns and variables.
    pub fn expressions(&self) -> &RuleExpressions
        ensures { AreOf (texts_of self.now) result.now }
    {
        &self.expressions
    }

    /// The expression that the property `xpath` spells.
    pub fn query(&self) -> &Expr
        ensures { IsParsed (names_of (texts_of self.now)) self.now.xpath result.now }
    {
        &self.expressions.query.expr
    }

    /// The patterns that stand in the query.
    pub fn query_patterns(&self) -> &Patterns
        ensures { ArePatternsOf (texts_of self.now) self.now.xpath result.now }
    {
        &self.expressions.query.patterns
    }

    /// The expression that the property `violationSuppressXPath` spells; `None` exactly where the rule has no such property.
    pub fn suppression(&self) -> Option<&Expr>
        ensures { Both (suppression_of (texts_of self.now)) (option_copied result) (IsParsed (names_of (texts_of self.now))) }
    {
        match &self.expressions.suppression {
            Some(suppression) => Some(&suppression.expr),
            None => None,
        }
    }

    /// The patterns that stand in it.
    pub fn suppression_patterns(&self) -> Option<&Patterns>
        ensures { Both (suppression_of (texts_of self.now)) (option_copied result) (ArePatternsOf (texts_of self.now)) }
    {
        match &self.expressions.suppression {
            Some(suppression) => Some(&suppression.patterns),
            None => None,
        }
    }

    /// The properties that are variables of both expressions, with their values.
    pub fn variables(&self) -> &BoundVars<'static>
        ensures { variables_seen result.now ≡ variables_of (texts_of self.now) }
    {
        &self.expressions.variables
    }

    /// Whether the rule has a `violationSuppressRegex` that matches its whole message.
    pub fn covers(&self) -> bool
        ensures { result ≡ covers self.now }
    {
        self.expressions.is_covered
    }

    /// Whether the rule is active for a path.
    pub fn is_active(&self, alloc: Global, path: &str) -> Result<bool, NoMemory>
        ensures { IfOk result (λ active. active ≡ is_active self.now path.now) }
    {
        self.patterns.are_active(alloc, path)
    }
}
