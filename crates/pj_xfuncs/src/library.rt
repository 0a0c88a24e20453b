//! Calls of functions.
ghost use Rattle.std.specs.Prelude.{◌≡◌, ℕ, IfOk, map};
ghost use Rattle.pj_xvalue.specs.Items.{values_of};
ghost use Rattle.pj_xvalue.specs.OfTree.{OfTree, ArgumentsOfTree};
ghost use Rattle.pj_xvalue.specs.Replies.{outcome};
ghost use Rattle.pj_xvalue.specs.Arguments.{IsGiven};
ghost use Rattle.pj_xfuncs.specs.Library.{by_number as by_number_of, called, is_concat, of_four as of_four_of, of_none as of_none_of, of_one as of_one_of, of_several as of_several_of, of_three as of_three_of, of_two as of_two_of};

use crate::cases::{lower_case, upper_case};
use crate::general::{
    boolean, concat, count, data, exists, is_empty, negated, string_join, string_of,
};
use crate::numbers::{magnitude, maximum, minimum, sum, sum_with};
use crate::sequences::{distinct_values, index_of, reversed, subsequence, subsequence_from};
use crate::spaces::normalize_space;
use crate::strings::{
    contains, ends, starts, string_length, substring, substring_after, substring_before,
    substring_from,
};
use crate::translate::translate;
use pj_xexpressions::Function;
use pj_xpatterns::{Patterns, matches, replace, tokenize};
use pj_xvalue::{Arguments, Sequence, XCode, XFault, boolean_singleton};
use std::alloc::Global;

/// What the function gives for its arguments, where the library has these patterns (XPath Functions and Operators).
///
/// In the place of an attribute its value has been put before, where the argument is atomised or its string is taken. XPTY0004
/// is the answer to a number of arguments that the function does not take, to a function that needs the tree or the focus, to
/// flags of other letters than `i`, `m` and `s`, to a pattern that with its flags is not among the patterns, and to a replacement
/// with `$` or `\`. `Ask(Failed)` never comes.
pub fn call<'t>(
    alloc: Global,
    function: Function,
    arguments: &Arguments<'t>,
    patterns: &Patterns,
) -> Result<Sequence<'t>, XFault>
    ensures value { IsGiven (called patterns.now function (map values_of arguments.now)) (outcome values_of result) }
    ensures of_tree { (nodes : ℕ) → ArgumentsOfTree nodes (map values_of arguments.now) → IfOk result (λ items. OfTree nodes (values_of items)) }
{
    given(alloc, function, arguments.as_slice(), patterns)
}

/// The same of a slice.
fn given<'t>(
    alloc: Global,
    function: Function,
    arguments: &[Sequence<'t>],
    patterns: &Patterns,
) -> Result<Sequence<'t>, XFault>
    ensures { IsGiven (called patterns.now function (map values_of arguments.now)) (outcome values_of result) }
{
    if is_concat(function) {
        return of_several(alloc, arguments);
    }
    by_number(alloc, function, arguments, patterns)
}

/// Whether the function is `concat`, which takes any number of arguments.
fn is_concat(function: Function) -> bool
    ensures { result ≡ is_concat function }
{
    matches!(function, Function::Concat)
}

/// `concat`, which takes two arguments or more.
fn of_several<'t>(alloc: Global, arguments: &[Sequence<'t>]) -> Result<Sequence<'t>, XFault>
    ensures { IsGiven (of_several_of (map values_of arguments.now)) (outcome values_of result) }
{
    match arguments {
        [] => Err(XFault::Code(XCode::XPTY0004)),
        [_] => Err(XFault::Code(XCode::XPTY0004)),
        _ => concat(alloc, arguments),
    }
}

/// A function that takes at most four arguments.
fn by_number<'t>(
    alloc: Global,
    function: Function,
    arguments: &[Sequence<'t>],
    patterns: &Patterns,
) -> Result<Sequence<'t>, XFault>
    ensures { IsGiven (by_number_of patterns.now function (map values_of arguments.now)) (outcome values_of result) }
{
    match arguments {
        [] => of_none(alloc, function),
        [a] => of_one(alloc, function, a),
        [a, b] => of_two(alloc, function, a, b, patterns),
        [a, b, c] => of_three(alloc, function, a, b, c, patterns),
        [a, b, c, d] => of_four(alloc, function, a, b, c, d, patterns),
        _ => Err(XFault::Code(XCode::XPTY0004)),
    }
}

/// A function without arguments.
fn of_none<'t>(alloc: Global, function: Function) -> Result<Sequence<'t>, XFault>
    ensures { IsGiven (of_none_of function) (outcome values_of result) }
{
    match function {
        Function::True => Ok(boolean_singleton(alloc, true)?),
        Function::False => Ok(boolean_singleton(alloc, false)?),
        _ => Err(XFault::Code(XCode::XPTY0004)),
    }
}

/// A function of one argument.
fn of_one<'t>(alloc: Global, function: Function, a: &Sequence<'t>) -> Result<Sequence<'t>, XFault>
    ensures { IsGiven (of_one_of function (values_of a.now)) (outcome values_of result) }
{
    match function {
        Function::Count => count(alloc, a),
        Function::Exists => exists(alloc, a),
        Function::Empty => is_empty(alloc, a),
        Function::Not => negated(alloc, a),
        Function::Boolean => boolean(alloc, a),
        Function::String => string_of(alloc, a),
        Function::Data => data(alloc, a),
        Function::StringLength => string_length(alloc, a),
        Function::NormalizeSpace => normalize_space(alloc, a),
        Function::UpperCase => upper_case(alloc, a),
        Function::LowerCase => lower_case(alloc, a),
        Function::DistinctValues => distinct_values(alloc, a),
        Function::Sum => sum(alloc, a),
        Function::Min => minimum(alloc, a),
        Function::Max => maximum(alloc, a),
        Function::Abs => magnitude(alloc, a),
        Function::Reverse => reversed(alloc, a),
        _ => Err(XFault::Code(XCode::XPTY0004)),
    }
}

/// A function of two arguments.
fn of_two<'t>(
    alloc: Global,
    function: Function,
    a: &Sequence<'t>,
    b: &Sequence<'t>,
    patterns: &Patterns,
) -> Result<Sequence<'t>, XFault>
    ensures { IsGiven (of_two_of patterns.now function (values_of a.now) (values_of b.now)) (outcome values_of result) }
{
    match function {
        Function::StringJoin => string_join(alloc, a, b),
        Function::Contains => contains(alloc, a, b),
        Function::StartsWith => starts(alloc, a, b),
        Function::EndsWith => ends(alloc, a, b),
        Function::Substring => substring_from(alloc, a, b),
        Function::SubstringBefore => substring_before(alloc, a, b),
        Function::SubstringAfter => substring_after(alloc, a, b),
        Function::Matches => matches(alloc, patterns, a, b, None),
        Function::Tokenize => tokenize(alloc, patterns, a, b, None),
        Function::Sum => sum_with(alloc, a, b),
        Function::IndexOf => index_of(alloc, a, b),
        Function::Subsequence => subsequence_from(alloc, a, b),
        _ => Err(XFault::Code(XCode::XPTY0004)),
    }
}

/// A function of three arguments.
fn of_three<'t>(
    alloc: Global,
    function: Function,
    a: &Sequence<'t>,
    b: &Sequence<'t>,
    c: &Sequence<'t>,
    patterns: &Patterns,
) -> Result<Sequence<'t>, XFault>
    ensures { IsGiven (of_three_of patterns.now function (values_of a.now) (values_of b.now) (values_of c.now)) (outcome values_of result) }
{
    match function {
        Function::Substring => substring(alloc, a, b, c),
        Function::Translate => translate(alloc, a, b, c),
        Function::Matches => matches(alloc, patterns, a, b, Some(c)),
        Function::Replace => replace(alloc, patterns, a, b, c, None),
        Function::Tokenize => tokenize(alloc, patterns, a, b, Some(c)),
        Function::Subsequence => subsequence(alloc, a, b, c),
        _ => Err(XFault::Code(XCode::XPTY0004)),
    }
}

/// A function of four arguments.
fn of_four<'t>(
    alloc: Global,
    function: Function,
    a: &Sequence<'t>,
    b: &Sequence<'t>,
    c: &Sequence<'t>,
    d: &Sequence<'t>,
    patterns: &Patterns,
) -> Result<Sequence<'t>, XFault>
    ensures { IsGiven (of_four_of patterns.now function (values_of a.now) (values_of b.now) (values_of c.now) (values_of d.now)) (outcome values_of result) }
{
    match function {
        Function::Replace => replace(alloc, patterns, a, b, c, Some(d)),
        _ => Err(XFault::Code(XCode::XPTY0004)),
    }
}
