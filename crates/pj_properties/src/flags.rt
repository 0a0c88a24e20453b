//! What holds of nodes or does not.

ghost use Rattle.std.specs.Prelude.{◌≡◌, ◌<◌, length};
ghost use Rattle.pj_parse.specs.Parses.{file_parsed};
ghost use Rattle.pj_parse.specs.PoolText.{IsPoolOf};
ghost use Rattle.pj_properties.specs.Flags.{word_text, is_childless, is_nested_so, is_regular_class, is_regular_interface, is_variable_so, has_empty_value, is_constructor_reference, has_diamond, is_default_label, is_default_branch, has_default, flag_value, same_nesting, same_variable};
ghost use Rattle.pj_properties.specs.OneFile.{IsOneFile};

use crate::literals::{
    is_double_literal, is_float_literal, is_int_literal, is_long_literal, is_text_block,
};
use crate::operators::{is_compound, is_prefix};
use crate::parentheses::parenthesis_depth;
use crate::property::{FlagProperty, Word};
use crate::types::{
    is_array_variable, is_inferred, is_varargs, is_varargs_method, is_variable_inferred,
};
use pj_modifiers::{is_effective, is_interface};
use pj_parse::{Parsed, Pool};
use pj_symbols::{Nesting, Symbols, VariableKind, nesting_of, variable_kind};
use pj_tree::{
    Kind, Node, SyntaxTree, child_of, first_child, has_child, has_word, is_kind, last_word,
};

/// The text of a word.
fn word_text(word: Word) -> &'static str
    ensures { result.now ≡ word_text word }
{
    match word {
        Word::Star => "*",
        Word::Dot => ".",
        Word::Ellipsis => "...",
        Word::Default => "default",
        Word::Else => "else",
        Word::Extends => "extends",
        Word::Static => "static",
        Word::Super => "super",
        Word::This => "this",
    }
}

/// Whether a node has no children.
fn is_childless(tree: &SyntaxTree<'_>, n: Node) -> bool
    requires inside { n.0 < length tree.now.nodes }
    ensures { result ≡ is_childless tree.now n }
{
    !first_child(tree, n).is_some()
}

/// Whether two classes stand in the same way.
fn same_nesting(nesting: Nesting, other: Nesting) -> bool
    ensures { result ≡ same_nesting nesting other }
{
    nesting == other
}

/// Whether two variables are of the same kind.
fn same_variable(kind: VariableKind, other: VariableKind) -> bool
    ensures { result ≡ same_variable kind other }
{
    kind == other
}

/// Whether the node is a class that is written with `class`.
fn is_regular_class(tree: &SyntaxTree<'_>, n: Node) -> bool
    requires inside { n.0 < length tree.now.nodes }
    ensures { result ≡ is_regular_class tree.now n }
{
    is_kind(tree, Kind::ClassDeclaration, n) && !is_interface(tree, n)
}

/// Whether the node is an interface that is written with `interface`.
fn is_regular_interface(tree: &SyntaxTree<'_>, n: Node) -> bool
    requires inside { n.0 < length tree.now.nodes }
    ensures { result ≡ is_regular_interface tree.now n }
{
    is_kind(tree, Kind::ClassDeclaration, n) && is_interface(tree, n)
}

/// Whether the value of a string literal is the empty text.
fn has_empty_value(tree: &SyntaxTree<'_>, pool: &Pool, n: Node) -> bool
    requires pool { IsPoolOf tree.now pool.now }
    ensures { result ≡ has_empty_value tree.now n }
{
    let _ = tree;
    match pool.text(n) {
        Some(text) => text.is_empty(),
        None => false,
    }
}

/// Whether a method reference ends in `new` (JLS 15.13).
fn is_constructor_reference(tree: &SyntaxTree<'_>, n: Node) -> bool
    requires inside { n.0 < length tree.now.nodes }
    ensures { result ≡ is_constructor_reference tree.now n }
{
    last_word(tree, n) == "new"
}

/// Whether the class that is created is written with `<>` (JLS 15.9).
fn has_diamond(tree: &SyntaxTree<'_>, n: Node) -> bool
    requires inside { n.0 < length tree.now.nodes }
    ensures { result ≡ has_diamond tree.now n }
{
    let Some(class) = child_of(tree, n, Kind::ClassType) else {
        return false;
    };
    match child_of(tree, class, Kind::TypeArguments) {
        Some(arguments) => is_childless(tree, arguments),
        None => false,
    }
}

/// Whether the label of a switch is `default`.
fn is_default_label(tree: &SyntaxTree<'_>, n: Node) -> bool
    requires inside { n.0 < length tree.now.nodes }
    ensures { result ≡ is_default_label tree.now n }
{
    has_word(tree, n, "default")
}

/// Whether a branch of a switch has such a label.
fn is_default_branch(tree: &SyntaxTree<'_>, n: Node) -> bool
    requires inside { n.0 < length tree.now.nodes }
    ensures { result ≡ is_default_branch tree.now n }
{
    match child_of(tree, n, Kind::SwitchLabel) {
        Some(label) => is_default_label(tree, label),
        None => false,
    }
}

/// Whether a switch has such a branch.
fn has_default(tree: &SyntaxTree<'_>, n: Node) -> bool
    requires inside { n.0 < length tree.now.nodes }
    ensures { result ≡ has_default tree.now n }
{
    for branch in tree.children(n) {
        if is_default_branch(tree, branch) {
            return true;
        }
    }
    false
}

/// Whether the property holds of the node.
pub fn flag_value<'t>(
    property: FlagProperty,
    parsed: &'t Parsed<'t>,
    symbols: &'t Symbols,
    n: Node,
) -> bool
    requires inside { n.0 < length parsed.now.tree.nodes }
    requires one_file { IsOneFile parsed.now symbols.now }
    ensures { result ≡ flag_value property (file_parsed parsed.now) n }
{
    let _ = symbols;
    let tree = &parsed.tree;
    match property {
        FlagProperty::Word(word) => has_word(tree, n, word_text(word)),
        FlagProperty::Modifier(modifier) => is_effective(tree, n, modifier),
        FlagProperty::Kind(kind) => is_kind(tree, kind, n),
        FlagProperty::Child(kind) => has_child(tree, n, kind),
        FlagProperty::NoChild(kind) => !has_child(tree, n, kind),
        FlagProperty::Childless => is_childless(tree, n),
        FlagProperty::Nesting(nesting) => same_nesting(nesting_of(tree, n), nesting),
        FlagProperty::Interface => is_interface(tree, n),
        FlagProperty::RegularClass => is_regular_class(tree, n),
        FlagProperty::RegularInterface => is_regular_interface(tree, n),
        FlagProperty::VarargsMethod => is_varargs_method(tree, n),
        FlagProperty::VarargsParameter => is_varargs(tree, n),
        FlagProperty::TypeInferred => is_inferred(tree, n),
        FlagProperty::VariableInferred => is_variable_inferred(tree, n),
        FlagProperty::ArrayVariable => is_array_variable(tree, n),
        FlagProperty::Variable(kind) => same_variable(variable_kind(tree, n), kind),
        FlagProperty::Shorthand => !has_word(tree, n, "="),
        FlagProperty::FullyQualified => parsed.pool.text(n).is_some(),
        FlagProperty::Parenthesized => parenthesis_depth(parsed, n) > 0,
        FlagProperty::IntLiteral => is_int_literal(tree.text(n)),
        FlagProperty::LongLiteral => is_long_literal(tree.text(n)),
        FlagProperty::FloatLiteral => is_float_literal(tree.text(n)),
        FlagProperty::DoubleLiteral => is_double_literal(tree.text(n)),
        FlagProperty::EmptyValue => has_empty_value(tree, &parsed.pool, n),
        FlagProperty::TextBlock => is_text_block(tree.text(n)),
        FlagProperty::True => tree.text(n) == "true",
        FlagProperty::Prefix => is_prefix(tree, n),
        FlagProperty::Compound => is_compound(tree, n),
        FlagProperty::ConstructorReference => is_constructor_reference(tree, n),
        FlagProperty::Diamond => has_diamond(tree, n),
        FlagProperty::DefaultCase => has_default(tree, n),
    }
}
