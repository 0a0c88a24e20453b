//! What a part keeps, and what a seat knows. No value of `Asked`, `Line` or `View` is made: they stand in contracts alone.
use pj_names::{Answer, ClassName};
use pj_outside::Files;
use std::alloc::Global;
use std::collections::LinkedList;
use std::sync::Arc;

/// A name that was filled, with its answer.
#[derive(Drop)]
pub struct Entry {
    /// The name.
    pub name: ClassName,
    /// Its answer.
    pub answer: Arc<Answer, Global>,
}

/// One look of a seat: a hit of a filled place, or a fill of the next one.
#[derive(Clone, Copy)]
pub struct Look {
    /// The number of the seat.
    pub seat: u32,
    /// The place among the fills of the part.
    pub place: u64,
    /// Whether the look filled the place.
    pub fill: bool,
}

/// One look as its seat keeps it: the part, the look, and the name that was asked.
pub struct Asked {
    /// The part of the name.
    pub part: u64,
    /// The place among the fills of the part.
    pub place: u64,
    /// Whether the look filled the place.
    pub fill: bool,
    /// The name that was asked.
    pub name: ClassName,
}

/// What is kept under one seat number.
pub struct Line {
    /// The seat number.
    pub number: u32,
    /// Whether the seat drew a number past the files.
    pub past: bool,
    /// The files that the seat claimed, in its order.
    pub claims: LinkedList<u32>,
    /// What the seat asked, in its order.
    pub asked: LinkedList<Asked>,
}

/// What a seat knows.
pub struct View {
    /// Whether the seat was not joined into another.
    pub live: bool,
    /// The files of the folders of the table's doors, where these tell them.
    pub world: Option<LinkedList<Files>>,
    /// The number of files.
    pub files: u32,
    /// How many numbers were given. The opening seat alone keeps it.
    pub given: u32,
    /// Its own line.
    pub own: Line,
    /// The lines of the seats that were joined into it.
    pub joined: LinkedList<Line>,
    /// One more than the part on which it has a ticket, or 0. Without a ticket the fields below say nothing.
    pub at: u64,
    /// 1: it waits; 2: it is at its turn; 3: it has entered its look.
    pub phase: u8,
    /// The ticket.
    pub ticket: u64,
    /// The entries of the part, as found at its turn or with its look.
    pub entries: LinkedList<Entry>,
    /// The history of the part, as found at its turn or with its look.
    pub looks: LinkedList<Look>,
}
