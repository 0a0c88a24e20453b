//! The numbers that nodes tell.

ghost use Rattle.std.specs.Prelude.{◌≡◌, ◌<◌, ◌^◌, length, pos};
ghost use Rattle.std.specs.Str.{chars};
ghost use Rattle.pj_parse.specs.Parses.{file_parsed};
ghost use Rattle.pj_parse.specs.PoolText.{IsPoolOf};
ghost use Rattle.pj_properties.specs.Numbers.{number_value, arity, lambda_arity, argument_count, dimension_count, array_depth, value_length};
ghost use Rattle.pj_properties.specs.OneFile.{IsOneFile};
ghost use Rattle.pj_symbols.specs.Symbols.{FileSymbols};

use crate::literals::{constant_integer, radix_of};
use crate::parentheses::parenthesis_depth;
use crate::property::NumberProperty;
use pj_parse::{Parsed, Pool};
use pj_symbols::Symbols;
use pj_tree::{Kind, Node, SyntaxTree, child_count, child_of, kind_count};

/// How many parameters a method or constructor has.
fn arity(tree: &SyntaxTree<'_>, n: Node) -> u32
    requires inside { n.0 < length tree.now.nodes }
    ensures { result ≡ arity tree.now n }
{
    match child_of(tree, n, Kind::FormalParameters) {
        Some(parameters) => kind_count(tree, parameters, Kind::FormalParameter),
        None => 0,
    }
}

/// How many parameters a lambda expression has.
fn lambda_arity(tree: &SyntaxTree<'_>, n: Node) -> u32
    requires inside { n.0 < length tree.now.nodes }
    ensures { result ≡ lambda_arity tree.now n }
{
    match child_of(tree, n, Kind::LambdaParameterList) {
        Some(parameters) => kind_count(tree, parameters, Kind::LambdaParameter),
        None => 0,
    }
}

/// How many arguments a call has.
fn argument_count(tree: &SyntaxTree<'_>, n: Node) -> u32
    requires inside { n.0 < length tree.now.nodes }
    ensures { result ≡ argument_count tree.now n }
{
    match child_of(tree, n, Kind::ArgumentList) {
        Some(arguments) => child_count(tree, arguments),
        None => 0,
    }
}

/// How many dimensions are written directly below a node.
fn dimension_count(tree: &SyntaxTree<'_>, n: Node) -> u32
    requires inside { n.0 < length tree.now.nodes }
    ensures { result ≡ dimension_count tree.now n }
{
    match child_of(tree, n, Kind::ArrayDimensions) {
        Some(dimensions) => child_count(tree, dimensions),
        None => 0,
    }
}

/// How many dimensions the array type has that a node has.
fn array_depth(tree: &SyntaxTree<'_>, n: Node) -> u32
    requires inside { n.0 < length tree.now.nodes }
    ensures { result ≡ array_depth tree.now n }
{
    match child_of(tree, n, Kind::ArrayType) {
        Some(array) => dimension_count(tree, array),
        None => 0,
    }
}

/// How many characters the text has that the pool keeps of the node.
fn value_length(tree: &SyntaxTree<'_>, pool: &Pool, n: Node) -> Option<i64>
    requires pool { IsPoolOf tree.now pool.now }
    ensures { result ≡ value_length tree.now n }
{
    let _ = tree;
    match pool.text(n) {
        Some(text) => Some(character_count(text) as i64),
        None => None,
    }
}

/// How many characters a text has.
fn character_count(text: &str) -> usize
    ensures value { result ≡ length (chars text.now) }
    ensures small { result < 2 ^ 63 }
{
    text.chars().count()
}

/// The number that the node tells, if it tells one.
pub fn number_value<'t>(
    property: NumberProperty,
    parsed: &'t Parsed<'t>,
    symbols: &'t Symbols,
    n: Node,
) -> Option<i64>
    requires inside { n.0 < length parsed.now.tree.nodes }
    requires one_file { IsOneFile parsed.now symbols.now }
    ensures { result ≡ number_value property (file_parsed parsed.now) n }
{
    let _ = symbols;
    let tree = &parsed.tree;
    match property {
        NumberProperty::ChildCount => Some(i64::from(child_count(tree, n))),
        NumberProperty::ParameterCount => {
            Some(i64::from(kind_count(tree, n, Kind::FormalParameter)))
        }
        NumberProperty::Arity => Some(i64::from(arity(tree, n))),
        NumberProperty::LambdaArity => Some(i64::from(lambda_arity(tree, n))),
        NumberProperty::ArgumentCount => Some(i64::from(argument_count(tree, n))),
        NumberProperty::ArrayDepth => Some(i64::from(array_depth(tree, n))),
        NumberProperty::ParenthesisDepth => Some(parenthesis_depth(parsed, n) as i64),
        NumberProperty::Radix => Some(radix_of(tree.text(n))),
        NumberProperty::IntegerValue => constant_integer(tree.text(n)),
        NumberProperty::ValueLength => value_length(tree, &parsed.pool, n),
    }
}
