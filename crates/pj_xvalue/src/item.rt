//! Items and sequences.
ghost use Rattle.std.specs.Prelude.{◌≡◌, ◌++◌, MatchOption, OnOk, string_bytes};
ghost use Rattle.pj_xvalue.specs.Atomic.{text_of};
ghost use Rattle.pj_xvalue.specs.Items.{value_of_item, string_in, is_node, is_attribute};

use pj_base::{Copied, ListOf, NoMemory, Text};
use pj_tree::Node;
use std::fmt::Write;

/// An item: a node or an atomic value (XPath 2.0, 2).
///
/// A borrowed string is the same value as an owned one with the same characters.
#[derive(Debug, Drop)]
pub enum Item<'t> {
    /// A node of the tree, which is an element.
    Node(Node),
    /// An attribute of a node: its place among the names of the node's attributes, counted from 0.
    Attribute(Node, u32),
    /// The document, which is the parent of the tree's root.
    Document,
    /// A string (`xs:string`) that the item owns.
    Str(Text),
    /// An integer (`xs:integer`) of 64 bits.
    Int(i64),
    /// A boolean (`xs:boolean`).
    Bool(bool),
    /// A string that is lent, as a part of the tree's text.
    Borrowed(&'t str),
}

/// A sequence of items.
pub type Sequence<'t> = ListOf<Item<'t>>;

/// The arguments of a call, in order.
pub type Arguments<'t> = ListOf<Sequence<'t>>;

/// The variables of an expression with their values. Of two pairs of one name the first counts.
pub type BoundVars<'t> = ListOf<(Text, Sequence<'t>)>;

impl Item<'_> {
    /// The characters, where the item is a string.
    pub fn as_text(&self) -> Option<&str>
        ensures { MatchOption result (string_in (value_of_item self.now) ≡ None) (λ text. string_in (value_of_item self.now) ≡ Some text.now) }
    {
        match self {
            Item::Str(text) => Some(text.as_str()),
            Item::Borrowed(text) => Some(*text),
            _ => None,
        }
    }

    /// Whether the item is a node: an element, an attribute or the document.
    pub fn is_node(&self) -> bool
        ensures { result ≡ is_node (value_of_item self.now) }
    {
        match self {
            Item::Node(_) => true,
            Item::Attribute(_, _) => true,
            Item::Document => true,
            _ => false,
        }
    }

    /// Whether the item is an attribute.
    pub fn is_attribute(&self) -> bool
        ensures { result ≡ is_attribute (value_of_item self.now) }
    {
        match self {
            Item::Attribute(_, _) => true,
            _ => false,
        }
    }

    /// Puts the text of an atomic value at the end (XPath Functions and Operators, 17.1.2), and nothing for a node.
    pub fn push_text(&self, text: &mut String) -> Result<(), NoMemory>
        ensures { OnOk result (string_bytes text.new ≡ string_bytes text.old ++ text_of (value_of_item self.now)) }
    {
        match self {
            Item::Str(part) => text.push_str(part.as_str())?,
            Item::Borrowed(part) => text.push_str(part)?,
            Item::Int(value) => write!(text, "{}", *value)?,
            Item::Bool(true) => text.push_str("true")?,
            Item::Bool(false) => text.push_str("false")?,
            _ => {}
        }
        Ok(())
    }
}

impl Copied for Item<'_> {
    fn copied(&self) -> Result<Self, NoMemory> {
        match self {
            Item::Node(n) => Ok(Item::Node(*n)),
            Item::Attribute(n, place) => Ok(Item::Attribute(*n, *place)),
            Item::Document => Ok(Item::Document),
            Item::Str(text) => Ok(Item::Str(text.copied()?)),
            Item::Int(value) => Ok(Item::Int(*value)),
            Item::Bool(value) => Ok(Item::Bool(*value)),
            Item::Borrowed(text) => Ok(Item::Borrowed(*text)),
        }
    }
}
