//! Sequences of nodes, and sets of them.
ghost use Rattle.std.specs.Prelude.{◌≡◌, ◌++◌, [], ℕ, IfOk, filter};
ghost use Rattle.std.specs.List.Sorted.{IsStrictlySortedBy};
ghost use Rattle.pj_xvalue.specs.Items.{value_of_item, values_of};
ghost use Rattle.pj_xvalue.specs.OfTree.{OfTree};
ghost use Rattle.pj_xvalue.specs.Arguments.{seen_as};
ghost use Rattle.pj_xaxes.specs.Order.{document_order, has_item, ordered};
ghost use Rattle.pj_xsteps.specs.Operands.{only_nodes};
ghost use Rattle.pj_xsteps.specs.Sets.{chosen, stays as stays_by};

use pj_base::{Copied, NoMemory};
use pj_xaxes::{in_order, is_among};
use pj_xexpressions::SetOperator;
use pj_xvalue::{Item, Sequence, XCode, are_nodes};
use std::alloc::Global;
use std::marker::Model;

/// A sequence of nodes alone: the document, elements and attributes. Contracts see it as its items.
#[derive(Drop)]
pub struct NodeItems<'t> {
    items: Sequence<'t>,
}

impl<'t> Model for NodeItems<'t> {
    ghost use Rattle.std.specs.Prelude.{List, IsTrue};
    ghost use Rattle.pj_xvalue.specs.declared.item.Item.{Item};
    ghost use Rattle.pj_xvalue.specs.Items.{values_of, are_nodes};

    ghost Value = { List Item };

    ghost view = { λ nodes. nodes.items };

    ghost invariant = { λ nodes. IsTrue (are_nodes (values_of nodes.items)) };
}

impl<'t> NodeItems<'t> {
    /// The empty sequence.
    pub fn new(alloc: Global) -> NodeItems<'t>
        ensures { result ≡ [] }
    {
        NodeItems {
            items: Sequence::new(alloc),
        }
    }

    /// An operand of `union`, `intersect` or `except` (XPath 2.0, 3.3.3): the items, where all are nodes, else XPTY0004.
    pub fn of(items: Sequence<'t>) -> Result<NodeItems<'t>, XCode>
        ensures value { seen_as values_of result ≡ only_nodes (values_of items.entry) }
        ensures same { IfOk result (λ nodes. nodes ≡ items.entry) }
    {
        if are_nodes(items.as_slice()) {
            Ok(NodeItems { items })
        } else {
            Err(XCode::XPTY0004)
        }
    }

    /// The nodes with those of another sequence behind them.
    pub fn joined(self, more: NodeItems<'t>) -> Result<NodeItems<'t>, NoMemory>
        ensures { IfOk result (λ nodes. nodes ≡ self.entry ++ more.entry) }
    {
        let NodeItems { items } = self;
        let NodeItems { items: behind } = more;
        let mut items = items;
        items.append(behind)?;
        Ok(NodeItems { items })
    }

    /// The nodes in document order, each once. It takes no memory.
    pub fn in_order(self) -> Sequence<'t>
        ensures value { values_of result ≡ ordered (values_of self.entry) }
        ensures ascending { IsStrictlySortedBy document_order (values_of result) }
        ensures of_tree { (n : ℕ) → OfTree n (values_of self.entry) → OfTree n (values_of result) }
    {
        let NodeItems { items } = self;
        in_order(items)
    }

    /// The nodes that are, or are not, among the others, in document order, each once (XPath 2.0, 3.3.3). The
    /// others are put in order, and each node is searched for among them.
    pub fn chosen(
        self,
        operator: SetOperator,
        others: NodeItems<'t>,
    ) -> Result<NodeItems<'t>, NoMemory>
        ensures value { IfOk result (λ nodes. values_of nodes ≡ chosen operator (values_of self.entry) (values_of others.entry)) }
        ensures of_tree { (n : ℕ) → OfTree n (values_of self.entry) → IfOk result (λ nodes. OfTree n (values_of nodes)) }
    {
        let NodeItems { items } = self;
        let sorted = others.in_order();
        let found = kept(
            items.allocator(),
            operator,
            items.as_slice(),
            sorted.as_slice(),
        )?;
        let all = in_order(found);
        Ok(NodeItems { items: all })
    }

    /// The nodes as they come.
    pub fn into_items(self) -> Sequence<'t>
        ensures { result ≡ self.entry }
    {
        let NodeItems { items } = self;
        items
    }
}

/// Whether a node stays that is, or is not, among the others.
fn stays(operator: SetOperator, is_among: bool) -> bool
    ensures { result ≡ stays_by operator is_among }
{
    match operator {
        SetOperator::Intersect => is_among,
        SetOperator::Except => !is_among,
    }
}

/// The nodes that are, or are not, among the others, which stand in document order, each once.
fn kept<'t>(
    alloc: Global,
    operator: SetOperator,
    items: &[Item<'t>],
    others: &[Item<'_>],
) -> Result<Sequence<'t>, NoMemory>
    requires { IsStrictlySortedBy document_order (values_of others.now) }
    ensures { IfOk result (λ found. values_of found ≡ filter (λ item. stays_by operator (has_item (values_of others.now) item)) (values_of items.now)) }
{
    let mut found = Sequence::new(alloc);
    for item in items {
        let is_there = is_among(others, item);
        if stays(operator, is_there) {
            found.push(item.copied()?)?;
        }
    }
    Ok(found)
}
