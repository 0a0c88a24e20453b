//! What one rule comes to in a file, and what is said of a file beside its rules.

use crate::rows::Reason;
use pj_base::{Copied, ListOf, NoMemory, Text};
use pj_tree::Place;

/// A node that a rule denotes in a file.
#[derive(Clone, Copy, Debug, PartialEq, Eq)]
pub struct Spot {
    /// The node, by its number in the file's tree.
    pub node: u32,
    /// Where the node begins.
    pub begin: Place,
    /// The place of its last character: of a node without characters, where it begins.
    pub end: Place,
    /// Why it is not reported, or `None` where it is.
    pub reason: Option<Reason>,
}

/// The nodes that a rule denotes, in the order of their numbers.
pub type Spots = ListOf<Spot>;

/// What a rule comes to in a file.
#[derive(Debug, PartialEq, Eq, Drop)]
pub enum Ruled {
    /// It denotes these nodes.
    Spots(Spots),
    /// It could not be evaluated: the message says why.
    Message(Text),
}

/// What is said of a file beside its rules.
#[derive(Debug, PartialEq, Eq, Drop)]
pub enum Head {
    /// It has a tree, and is of the package of this name, which is empty where none is declared.
    Package(Text),
    /// It has no tree: the message says why.
    Message(Text),
}

impl Copied for Spot {
    fn copied(&self) -> Result<Spot, NoMemory> {
        Ok(*self)
    }
}
