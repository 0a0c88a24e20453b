//! The reader: what it has read of a text.

ghost use Rattle.std.specs.Prelude.{◌≡◌, []};
ghost use Rattle.pj_markup.specs.Elements.{opened};
ghost use Rattle.pj_markup.specs.States.{Begin};
ghost use Rattle.pj_markup.specs.Seen.{state_of};

use crate::around::Around;
use crate::attributes::Attributes;
use crate::element::{Open, Row};
use crate::state::Mode;
use pj_base::{ListOf, Text};
use std::alloc::Global;

/// What was read of a text.
#[derive(Drop)]
pub struct Reader {
    pub alloc: Global,
    pub mode: Mode,
    /// The elements that have ended, in the order of their ends.
    pub rows: ListOf<Row>,
    /// The innermost element that is open; outside the root nothing of it counts.
    pub element: Open,
    /// The elements around it.
    pub outer: Around,
    /// The name of the attribute that is read.
    pub name: ListOf<char>,
    /// The quote around its value.
    pub quote: char,
    /// Its value so far.
    pub value: Text,
    /// The number so far of the reference that is read.
    pub number: u32,
    /// The offset of the last `<` that begins something.
    pub less: u32,
}

/// An element of which nothing is read.
pub fn nothing(alloc: Global, offset: u32) -> Open
    ensures { result ≡ opened offset [] }
{
    Open {
        name: ListOf::new(alloc),
        offset,
        attributes: Attributes::new(alloc),
        text: Text::new(alloc),
        children: ListOf::new(alloc),
    }
}

impl Reader {
    /// A reader that has read nothing.
    pub fn new(alloc: Global) -> Reader
        ensures { state_of result ≡ Begin }
    {
        Reader {
            alloc,
            mode: Mode::Begin,
            rows: ListOf::new(alloc),
            element: nothing(alloc, 0),
            outer: Around::new(alloc),
            name: ListOf::new(alloc),
            quote: '"',
            value: Text::new(alloc),
            number: 0,
            less: 0,
        }
    }
}
