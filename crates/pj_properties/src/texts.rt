//! The texts that nodes tell.

ghost use Rattle.std.specs.Prelude.{◌≡◌, ◌<◌, length};
ghost use Rattle.std.specs.Option.{option_copied};
ghost use Rattle.pj_properties.specs.OneFile.{IsOneFile};
ghost use Rattle.pj_properties.specs.Texts.{text_value, binary_name_of};
ghost use Rattle.pj_symbols.specs.Symbols.{FindsClasses};

use crate::access::access_type;
use crate::names::{
    imported_package, imported_simple_name, jump_label, pair_name, type_name, variable_name,
};
use crate::operators::operator_of;
use crate::property::TextProperty;
use crate::visibility::{class_visibility, member_visibility, variable_visibility};
use pj_parse::Parsed;
use pj_symbols::Symbols;
use pj_tree::{Node, SyntaxTree, first_word, last_word};

/// The binary name of the class that the node declares.
fn binary_name<'t>(symbols: &'t Symbols, tree: &SyntaxTree<'_>, n: Node) -> Option<&'t str>
    requires finds { FindsClasses tree.now symbols.now.classes }
    ensures { option_copied result ≡ binary_name_of tree.now n }
{
    match symbols.class(n) {
        Some(class) => Some(class.name.as_str()),
        None => None,
    }
}

/// The text that the node tells, if it tells one.
pub fn text_value<'t>(
    property: TextProperty,
    parsed: &'t Parsed<'t>,
    symbols: &'t Symbols,
    n: Node,
) -> Option<&'t str>
    requires inside { n.0 < length parsed.now.tree.nodes }
    requires one_file { IsOneFile parsed.now symbols.now }
    ensures { option_copied result ≡ text_value property parsed.now.tree n }
{
    let tree = &parsed.tree;
    match property {
        TextProperty::PackageName => Some(symbols.package_name()),
        TextProperty::BinaryName => binary_name(symbols, tree, n),
        TextProperty::Kept => parsed.pool.text(n),
        TextProperty::ImportedSimpleName => imported_simple_name(tree, n),
        TextProperty::ImportedPackage => imported_package(tree, &parsed.pool, n),
        TextProperty::FirstWord => Some(first_word(tree, n)),
        TextProperty::LastWord => Some(last_word(tree, n)),
        TextProperty::Spelling => Some(tree.text(n)),
        TextProperty::VariableName => variable_name(tree, n),
        TextProperty::TypeName => type_name(tree, n),
        TextProperty::PairName => Some(pair_name(tree, n)),
        TextProperty::JumpLabel => jump_label(tree, n),
        TextProperty::Operator => operator_of(tree, n),
        TextProperty::AccessType => Some(access_type(tree, n)),
        TextProperty::ClassVisibility => Some(class_visibility(tree, n)),
        TextProperty::MemberVisibility => Some(member_visibility(tree, n)),
        TextProperty::VariableVisibility => Some(variable_visibility(tree, n)),
    }
}
