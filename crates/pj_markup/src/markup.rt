//! The elements of a text.

ghost use Rattle.std.specs.Prelude.{◌≡◌, IfOk, length, nat_eq, pred, slice_get};
ghost use Rattle.std.specs.Cmp.Lexicographic.{pointwise};
ghost use Rattle.std.specs.Option.{option_copied};
ghost use Rattle.pj_markup.specs.Elements.{row_at, value_of};

use crate::element::{Attribute, Element, Row};
use pj_base::{Copied, ListOf, NoMemory, Text};
use std::marker::Model;

/// The elements of a text of markup. Clauses see the list of them, in the order of their ends; the reads of an element that
/// these do not have are those of an element with nothing.
#[derive(Drop)]
pub struct Markup {
    rows: ListOf<Row>,
    root: Element,
}

impl Model for Markup {
    ghost use Rattle.std.specs.Prelude.{◌≡◌, List, length, pred};
    ghost use Rattle.pj_markup.specs.declared.element.Row.{Row};

    ghost Value = { List Row };

    ghost view = { λ markup. markup.rows };

    ghost invariant = { λ markup. markup.root.number ≡ pred (length markup.rows) };
}

impl Markup {
    /// The elements of these rows, of which the last one is the root.
    pub(crate) fn new(rows: ListOf<Row>) -> Result<Markup, NoMemory>
        ensures { IfOk result (λ markup. markup ≡ rows) }
    {
        let Ok(number) = u32::try_from(rows.len().saturating_sub(1)) else {
            return Err(NoMemory);
        };
        Ok(Markup {
            rows,
            root: Element { number },
        })
    }

    /// The root, which has the last number.
    pub fn root(&self) -> Element
        ensures { result.number ≡ pred (length self.now) }
    {
        self.root
    }

    /// The row of an element, where it is one of this text.
    fn row(&self, element: Element) -> Option<&Row>
        ensures { option_copied result ≡ slice_get self.now element.number }
    {
        self.rows.as_slice().get(element.number as usize)
    }

    /// The name of an element.
    pub fn name(&self, element: Element) -> &str
        ensures { result.now ≡ (row_at self.now element.number).name }
    {
        match self.row(element) {
            None => "",
            Some(row) => row.name.as_str(),
        }
    }

    /// The offset in bytes of the `<` of an element's start tag.
    pub fn offset(&self, element: Element) -> u32
        ensures { result ≡ (row_at self.now element.number).offset }
    {
        match self.row(element) {
            None => 0,
            Some(row) => row.offset,
        }
    }

    /// The children of an element, in their order.
    pub fn children(&self, element: Element) -> &[Element]
        ensures { result.now ≡ (row_at self.now element.number).children }
    {
        match self.row(element) {
            None => &[],
            Some(row) => row.children.as_slice(),
        }
    }

    /// The value of the attribute of this name, with references resolved; `None` where the element has none of this name.
    pub fn attribute(&self, element: Element, name: &str) -> Result<Option<Text>, NoMemory>
        ensures { IfOk result (λ found. found ≡ value_of name.now (row_at self.now element.number).attributes) }
    {
        match self.row(element) {
            None => Ok(None),
            Some(row) => copied(value_of(row.attributes.as_slice(), name)),
        }
    }

    /// The own text of an element: its characters in order, with references resolved and sections taken as they are, without the
    /// text of its children, comments and instructions.
    pub fn text(&self, element: Element) -> Result<Text, NoMemory>
        ensures { IfOk result (λ text. text ≡ (row_at self.now element.number).text) }
    {
        match self.row(element) {
            None => Ok(Text::new(self.rows.allocator())),
            Some(row) => row.text.copied(),
        }
    }
}

/// A copy of a text, if there is one.
fn copied(found: Option<&Text>) -> Result<Option<Text>, NoMemory>
    ensures { IfOk result (λ copy. copy ≡ option_copied found.entry) }
{
    match found {
        None => Ok(None),
        Some(text) => Ok(Some(text.copied()?)),
    }
}

/// Whether the attribute has this name.
fn is_named(attribute: &Attribute, name: &str) -> bool
    ensures { result ≡ pointwise nat_eq attribute.now.name name.now }
{
    attribute.name.as_str() == name
}

/// The value of the attribute of this name, if there is one.
fn value_of<'a>(attributes: &'a [Attribute], name: &str) -> Option<&'a Text>
    ensures { option_copied result ≡ value_of name.now attributes.now }
{
    for attribute in attributes {
        if is_named(attribute, name) {
            return Some(&attribute.value);
        }
    }
    None
}
