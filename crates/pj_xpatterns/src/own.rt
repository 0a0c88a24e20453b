//! The pattern of a call.
ghost use Rattle.std.specs.Prelude.{◌≡◌, ◌++◌, OnOk, map, option_map, slice_get};
ghost use Rattle.pj_xvalue.specs.Items.{values_of};
ghost use Rattle.pj_xpatterns.specs.Forms.{written_as_form};
ghost use Rattle.pj_xpatterns.specs.Written.{Variables, couple, flags_place, one_string, own_pattern, pattern_text, seen_of, text_of_variable, variables_of, written_flags};

use crate::flags::PatternFlags;
use pj_base::{ListOf, NoMemory, Text};
use pj_xexpressions::{Expr, Function};
use pj_xvalue::{BoundVars, Sequence};
use std::alloc::Global;

/// Patterns with their flags.
pub(crate) type Found = ListOf<(Text, PatternFlags)>;

/// How an argument is written, where that decides.
#[derive(Clone, Copy)]
enum Form<'e> {
    /// A string literal.
    Literal(&'e str),
    /// An integer literal.
    Number,
    /// A variable.
    Name(&'e str),
    /// Anything else.
    Other,
}

/// Puts the call's own pattern at the end, where it has one.
pub(crate) fn push_own(
    alloc: Global,
    variables: &BoundVars<'_>,
    function: Function,
    arguments: &[Expr],
    found: &mut Found,
) -> Result<(), NoMemory>
    ensures { OnOk result (found.new ≡ found.old ++ own_pattern (variables_of variables.now) function (map (λ argument. (seen_of (variables_of variables.now) argument).written) arguments.now)) }
{
    match flags_place(function) {
        Some(place) => push_written(
            alloc,
            variables,
            form_at(arguments, 1),
            form_at(arguments, place),
            found,
        ),
        None => Ok(()),
    }
}

/// Puts a pattern with its flags at the end, where they are written as they may be.
fn push_written(
    alloc: Global,
    variables: &BoundVars<'_>,
    pattern: Option<Form<'_>>,
    flags: Option<Form<'_>>,
    found: &mut Found,
) -> Result<(), NoMemory>
    ensures { OnOk result (found.new ≡ found.old ++ couple (pattern_text (variables_of variables.now) (option_map written_as_form pattern.entry)) (written_flags (option_map written_as_form flags.entry))) }
{
    match pattern_text(variables, pattern) {
        Some(text) => match written_flags(flags) {
            Some(flags) => {
                found.push((Text::from_str(alloc, text)?, flags))?;
                Ok(())
            }
            None => Ok(()),
        },
        None => Ok(()),
    }
}

/// Which argument is the flags of a function that takes a pattern, counted from 0.
fn flags_place(function: Function) -> Option<usize>
    ensures { result ≡ flags_place function }
{
    match function {
        Function::Matches => Some(2),
        Function::Tokenize => Some(2),
        Function::Replace => Some(3),
        _ => None,
    }
}

/// How the argument at a place is written.
fn form_at(arguments: &[Expr], place: usize) -> Option<Form<'_>>
    ensures { (variables : Variables) → option_map written_as_form result ≡ slice_get (map (λ argument. (seen_of variables argument).written) arguments.now) place }
{
    match arguments.get(place) {
        Some(argument) => Some(form_of(argument)),
        None => None,
    }
}

/// How the expression is written.
#[tactic(auto, using(crate::proofs::Forms::seen_forms))]
fn form_of(expr: &Expr) -> Form<'_>
    ensures { (variables : Variables) → written_as_form result ≡ (seen_of variables expr.now).written }
{
    match expr {
        Expr::String(text) => Form::Literal(text.as_str()),
        Expr::Integer(_) => Form::Number,
        Expr::Variable(name) => Form::Name(name.as_str()),
        Expr::Comma(_) => Form::Other,
        Expr::For(_, _) => Form::Other,
        Expr::Let(_, _) => Form::Other,
        Expr::Quantified(_, _, _) => Form::Other,
        Expr::If(_, _, _) => Form::Other,
        Expr::Or(_) => Form::Other,
        Expr::And(_) => Form::Other,
        Expr::Comparison(_, _, _) => Form::Other,
        Expr::Concatenation(_) => Form::Other,
        Expr::Range(_, _) => Form::Other,
        Expr::Additive(_, _) => Form::Other,
        Expr::Multiplicative(_, _) => Form::Other,
        Expr::Union(_) => Form::Other,
        Expr::IntersectExcept(_, _) => Form::Other,
        Expr::Unary(_, _) => Form::Other,
        Expr::SimpleMap(_) => Form::Other,
        Expr::Path(_) => Form::Other,
        Expr::Root => Form::Other,
        Expr::Step(_, _, _) => Form::Other,
        Expr::AttributeStep(_, _) => Form::Other,
        Expr::Filter(_, _) => Form::Other,
        Expr::ContextItem => Form::Other,
        Expr::Call(_, _) => Form::Other,
        Expr::PmdCall(_, _) => Form::Other,
    }
}

/// The text of a pattern: a literal, or a variable whose value is one string.
fn pattern_text<'e>(variables: &'e BoundVars<'_>, form: Option<Form<'e>>) -> Option<&'e str>
    ensures { option_map (λ text. text.now) result ≡ pattern_text (variables_of variables.now) (option_map written_as_form form.entry) }
{
    match form {
        Some(Form::Literal(text)) => Some(text),
        Some(Form::Name(name)) => text_of_variable(variables.as_slice(), name),
        Some(Form::Number) => None,
        Some(Form::Other) => None,
        None => None,
    }
}

/// The flags of a call: a literal, and none where the argument is not there.
fn written_flags(form: Option<Form<'_>>) -> Option<PatternFlags>
    ensures { result ≡ written_flags (option_map written_as_form form.entry) }
{
    match form {
        None => Some(PatternFlags::NONE),
        Some(Form::Literal(text)) => PatternFlags::of(text),
        Some(Form::Name(_)) => None,
        Some(Form::Number) => None,
        Some(Form::Other) => None,
    }
}

/// The text of the variable, where its value is one string.
fn text_of_variable<'e>(variables: &'e [(Text, Sequence<'_>)], name: &str) -> Option<&'e str>
    ensures { option_map (λ text. text.now) result ≡ text_of_variable (variables_of variables.now) name.now }
{
    for variable in variables {
        if variable.0.as_str() == name {
            return one_string(&variable.1);
        }
    }
    None
}

/// The text of a sequence that is one string.
fn one_string<'e>(items: &'e Sequence<'_>) -> Option<&'e str>
    ensures { option_map (λ text. text.now) result ≡ one_string (values_of items.now) }
{
    match items.as_slice() {
        [item] => item.as_text(),
        _ => None,
    }
}
