//! The expressions of a rule.
ghost use Rattle.std.specs.Prelude.{◌≡◌, IfOk, IfErr, OnOk, map};
ghost use Rattle.std.specs.Option.{option_copied};
ghost use Rattle.pj_rule_sets.specs.Expressions.{AreOf, Both, HasPatterns, IsParsed, IsSound, IsSpelled, names_of, patterns_in_some, patterns_of, variables_of};
ghost use Rattle.pj_rule_sets.specs.Faults.{IfNoPattern, HasNoPattern, IsFault, IsParseFault, IsSomeParseFault};
ghost use Rattle.pj_rule_sets.specs.Patterns.{is_covered};
ghost use Rattle.pj_rule_texts.specs.Seen.{variables_seen};
ghost use Rattle.pj_xpatterns.specs.Refusing.{AreTaken};
ghost use Rattle.pj_xpatterns.specs.Written.{patterns_in};

use crate::fault::ExpressionFault;
use crate::patterns::{is_covered_by, judge_properties, value_of};
use crate::spelled::Spelled;
use pj_base::{Copied, Names, NoMemory, Text};
use pj_rule_texts::{RuleTexts, variables_of};
use pj_xexpressions::Expr;
use pj_xparse::{Parser, parse_with};
use pj_xpatterns::{PatternFault, Patterns};
use pj_xvalue::{BoundVars, Sequence};
use std::alloc::Global;

/// What is kept of a rule beside its texts.
#[derive(Drop)]
pub struct RuleExpressions {
    /// The query, which the property `xpath` spells.
    pub query: Spelled,
    /// What the property `violationSuppressXPath` spells, where the rule has it.
    pub suppression: Option<Spelled>,
    /// The variables of both, with their values.
    pub variables: BoundVars<'static>,
    /// Whether the rule has a property `violationSuppressRegex` that matches its whole message.
    pub is_covered: bool,
}

/// The names of variables.
fn names_of(alloc: Global, variables: &[(Text, Sequence<'static>)]) -> Result<Names, NoMemory>
    ensures { IfOk result (λ names. names ≡ map (λ variable. variable.0) variables.now) }
{
    let mut names = Names::new(alloc);
    for variable in variables {
        names.push(variable.0.copied()?)?;
    }
    Ok(names)
}

/// The expression that a text spells.
fn parsed(
    alloc: Global,
    parser: &Parser,
    text: &str,
    names: &Names,
) -> Result<Expr, ExpressionFault>
    ensures value { IfOk result (IsParsed names.now text.now) }
    ensures fault { IfErr result (IsParseFault names.now text.now) }
{
    let expr = parse_with(alloc, parser, text, names)?;
    Ok(expr)
}

/// The expression that a text spells, where there is one.
fn parsed_some(
    alloc: Global,
    parser: &Parser,
    text: Option<&Text>,
    names: &Names,
) -> Result<Option<Expr>, ExpressionFault>
    ensures value { IfOk result (λ expr. Both (option_copied text.entry) expr (IsParsed names.now)) }
    ensures fault { IfErr result (IsSomeParseFault names.now (option_copied text.entry)) }
{
    match text {
        None => Ok(None),
        Some(text) => Ok(Some(parsed(alloc, parser, text.as_str(), names)?)),
    }
}

/// The expression with its patterns, each compiled once.
fn spelled(
    alloc: Global,
    expr: Expr,
    variables: &BoundVars<'static>,
) -> Result<Spelled, PatternFault>
    ensures expr { IfOk result (λ spelled. spelled.expr ≡ expr) }
    ensures patterns { IfOk result (HasPatterns (variables_seen variables.now)) }
    ensures taken { OnOk result (AreTaken (patterns_in (variables_seen variables.now) expr)) }
    ensures refused { IfErr result (λ fault. IfNoPattern fault (HasNoPattern (patterns_in (variables_seen variables.now) expr))) }
{
    let patterns = Patterns::of(alloc, &expr, variables)?;
    Ok(Spelled { expr, patterns })
}

/// The expression with its patterns, where there is one.
fn spelled_some(
    alloc: Global,
    expr: Option<Expr>,
    variables: &BoundVars<'static>,
) -> Result<Option<Spelled>, PatternFault>
    ensures value { IfOk result (λ spelled. Both expr spelled (IsSpelled (variables_seen variables.now))) }
    ensures taken { OnOk result (AreTaken (patterns_in_some (variables_seen variables.now) expr)) }
    ensures refused { IfErr result (λ fault. IfNoPattern fault (HasNoPattern (patterns_in_some (variables_seen variables.now) expr))) }
{
    match expr {
        None => Ok(None),
        Some(expr) => Ok(Some(spelled(alloc, expr, variables)?)),
    }
}

/// What is kept of a rule with these expressions and variables.
fn kept(
    alloc: Global,
    texts: &RuleTexts,
    query: Expr,
    suppression: Option<Expr>,
    variables: BoundVars<'static>,
) -> Result<RuleExpressions, PatternFault>
    requires { variables_seen variables ≡ variables_of texts.now }
    ensures query_kept { IfOk result (λ kept. IsSpelled (variables_of texts.now) query kept.query) }
    ensures suppression_kept { IfOk result (λ kept. Both suppression kept.suppression (IsSpelled (variables_of texts.now))) }
    ensures variables_kept { IfOk result (λ kept. variables_seen kept.variables ≡ variables_of texts.now) }
    ensures covers { IfOk result (λ kept. kept.is_covered ≡ is_covered texts.now) }
    ensures taken { OnOk result (AreTaken (patterns_of texts.now query suppression)) }
    ensures refused { IfErr result (λ fault. IfNoPattern fault (HasNoPattern (patterns_of texts.now query suppression))) }
{
    judge_properties(alloc, texts.properties.as_slice())?;
    let query = spelled(alloc, query, &variables)?;
    let suppression = spelled_some(alloc, suppression, &variables)?;
    let regex = value_of(texts.properties.as_slice(), "violationSuppressRegex");
    let is_covered = is_covered_by(alloc, regex, texts.row.message.as_str())?;
    Ok(RuleExpressions {
        query,
        suppression,
        variables,
        is_covered,
    })
}

/// The expressions that the rule's texts spell, with its variables and patterns, or why they spell none: the fault of `xpath`, or
/// else of `violationSuppressXPath`, or else that a pattern is none.
pub fn expressions_of(
    alloc: Global,
    parser: &Parser,
    texts: &RuleTexts,
) -> Result<RuleExpressions, ExpressionFault>
    ensures value { IfOk result (AreOf texts.now) }
    ensures sound { OnOk result (IsSound texts.now) }
    ensures fault { IfErr result (IsFault texts.now) }
{
    let variables = variables_of(alloc, texts.properties.as_slice())?;
    let names = names_of(alloc, variables.as_slice())?;
    let query = parsed(alloc, parser, texts.xpath.as_str(), &names)?;
    let text = value_of(texts.properties.as_slice(), "violationSuppressXPath");
    let suppression = parsed_some(alloc, parser, text, &names)?;
    let kept = kept(alloc, texts, query, suppression, variables)?;
    Ok(kept)
}
