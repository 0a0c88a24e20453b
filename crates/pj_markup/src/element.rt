//! What is read of an element.

ghost use Rattle.std.specs.Prelude.{◌≡◌, IfOk};
ghost use Rattle.pj_markup.specs.Elements.{row_of};

use crate::attributes::Attributes;
use crate::characters::text_of;
use pj_base::{ListOf, NoMemory, Text};
use std::alloc::Global;

/// An element of a text of markup. It means something only for the markup that gave it.
#[derive(Clone, Copy, Debug, PartialEq, Eq)]
pub struct Element {
    /// Elements are numbered from 0 in the order of their ends.
    pub number: u32,
}

/// An attribute: its name, and its value with references resolved.
#[derive(Drop)]
pub struct Attribute {
    pub name: Text,
    pub value: Text,
}

/// An element that has ended.
#[derive(Drop)]
pub struct Row {
    pub name: Text,
    /// The offset in bytes of the `<` of its start tag.
    pub offset: u32,
    /// Its attributes, in order.
    pub attributes: ListOf<Attribute>,
    /// Its own text, with references resolved.
    pub text: Text,
    /// Its children, in order.
    pub children: ListOf<Element>,
}

/// An element that is open, with what is read of it.
#[derive(Drop)]
pub struct Open {
    pub name: ListOf<char>,
    /// The offset in bytes of the `<` of its start tag.
    pub offset: u32,
    pub attributes: Attributes,
    pub text: Text,
    /// Its children so far.
    pub children: ListOf<Element>,
}

/// The element as it is when it ends.
pub fn row_of(alloc: Global, element: Open) -> Result<Row, NoMemory>
    ensures { IfOk result (λ row. row ≡ row_of element) }
{
    let Open {
        name,
        offset,
        attributes,
        text,
        children,
    } = element;
    Ok(Row {
        name: text_of(alloc, name.as_slice())?,
        offset,
        attributes: attributes.into_list(),
        text,
        children,
    })
}
