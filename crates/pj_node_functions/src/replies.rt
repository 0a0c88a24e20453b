//! What the functions reply that ask for no class.
ghost use Rattle.std.specs.Prelude.{◌≡◌, ◌<◌, length, pos};
ghost use Rattle.std.specs.Option.{ForSome};
ghost use Rattle.pj_node_functions.specs.Replies.{end_column, end_line, file_reply, kind_reply, start_column, start_line};
ghost use Rattle.pj_xvalue.specs.Arguments.{IsGiven, one};
ghost use Rattle.pj_xvalue.specs.Items.{Integer, values_of};
ghost use Rattle.pj_xvalue.specs.OfTree.{OfTree};
ghost use Rattle.pj_xvalue.specs.Replies.{outcome};

use crate::arguments::{one_node, text_argument};
use crate::files::file_name;
use crate::kinds::node_is;
use pj_base::Text;
use pj_findings::extent_of;
use pj_tree::{Node, SyntaxTree};
use pj_xvalue::{
    Attributes, Item, Sequence, XFault, boolean_singleton, integer_singleton, singleton,
};
use std::alloc::Global;

/// `fileName()`: the last part of the file's path, as one string.
pub fn file_reply(alloc: Global, path: &Text) -> Result<Sequence<'static>, XFault>
    ensures { IsGiven (file_reply path.now) (outcome values_of result) }
{
    let name = Text::from_str(alloc, file_name(path.as_str()))?;
    Ok(singleton(alloc, Item::Str(name))?)
}

/// A number, as one integer.
fn number_reply(alloc: Global, number: u32) -> Result<Sequence<'static>, XFault>
    ensures { IsGiven (one (Integer (pos number))) (outcome values_of result) }
{
    Ok(integer_singleton(alloc, i64::from(number))?)
}

/// `startLine(n)`: the line of the first character of the one node that is the argument, from 1; XPTY0004 for every other argument.
pub fn start_line<A: Attributes>(
    alloc: Global,
    tree: &SyntaxTree<'_>,
    facts: &A,
    argument: &Sequence<'_>,
) -> Result<Sequence<'static>, XFault>
    requires inside { OfTree (length tree.now.nodes) (values_of argument.now) }
    requires text { A.text_length facts.now ≡ length tree.now.text }
    ensures { IsGiven (start_line (A.place_of facts.now) tree.now (values_of argument.now)) (outcome values_of result) }
{
    let n = one_node(argument)?;
    number_reply(alloc, extent_of(tree, facts, n).begin.line)
}

/// `startColumn(n)`: the column of the first character of the one node that is the argument, in characters from 1; XPTY0004 for every other argument.
pub fn start_column<A: Attributes>(
    alloc: Global,
    tree: &SyntaxTree<'_>,
    facts: &A,
    argument: &Sequence<'_>,
) -> Result<Sequence<'static>, XFault>
    requires inside { OfTree (length tree.now.nodes) (values_of argument.now) }
    requires text { A.text_length facts.now ≡ length tree.now.text }
    ensures { IsGiven (start_column (A.place_of facts.now) tree.now (values_of argument.now)) (outcome values_of result) }
{
    let n = one_node(argument)?;
    number_reply(alloc, extent_of(tree, facts, n).begin.column)
}

/// `endLine(n)`: the line of the last character of the one node that is the argument, from 1, or the one where it begins if it is empty; XPTY0004 for every
/// other argument.
pub fn end_line<A: Attributes>(
    alloc: Global,
    tree: &SyntaxTree<'_>,
    facts: &A,
    argument: &Sequence<'_>,
) -> Result<Sequence<'static>, XFault>
    requires inside { OfTree (length tree.now.nodes) (values_of argument.now) }
    requires text { A.text_length facts.now ≡ length tree.now.text }
    ensures { IsGiven (end_line (A.place_of facts.now) tree.now (values_of argument.now)) (outcome values_of result) }
{
    let n = one_node(argument)?;
    number_reply(alloc, extent_of(tree, facts, n).end.line)
}

/// `endColumn(n)`: the column of the last character of the one node that is the argument, in characters from 1, or the one where it begins if it is empty;
/// XPTY0004 for every other argument.
pub fn end_column<A: Attributes>(
    alloc: Global,
    tree: &SyntaxTree<'_>,
    facts: &A,
    argument: &Sequence<'_>,
) -> Result<Sequence<'static>, XFault>
    requires inside { OfTree (length tree.now.nodes) (values_of argument.now) }
    requires text { A.text_length facts.now ≡ length tree.now.text }
    ensures { IsGiven (end_column (A.place_of facts.now) tree.now (values_of argument.now)) (outcome values_of result) }
{
    let n = one_node(argument)?;
    number_reply(alloc, extent_of(tree, facts, n).end.column)
}

/// `nodeIs(s)`: whether the context node is of the kind or the group of the name, as one boolean; without a context node it is not. The codes are those of
/// an argument that is no string.
pub fn kind_reply<'t, A: Attributes>(
    alloc: Global,
    tree: &SyntaxTree<'_>,
    facts: &'t A,
    at: Option<Node>,
    argument: &Sequence<'t>,
) -> Result<Sequence<'static>, XFault>
    requires inside { ForSome at (λ n. n.0 < length tree.now.nodes) }
    requires of_tree { A.nodes facts.now ≡ length tree.now.nodes }
    requires argument { OfTree (length tree.now.nodes) (values_of argument.now) }
    ensures { IsGiven (kind_reply (A.attribute_of facts.now) (A.names_of facts.now) tree.now at (values_of argument.now)) (outcome values_of result) }
{
    let text = text_argument(alloc, facts, argument)?;
    Ok(boolean_singleton(alloc, node_is(tree, at, text.as_str()))?)
}
