//! The small values by which a text and its tree are spoken of.

/// A stretch of a text: the bytes from the offset `from`, counted from 0, up to but not including the offset `to`.
#[derive(Clone, Copy, Debug, PartialEq, Eq)]
pub struct Span {
    pub from: u32,
    pub to: u32,
}

/// A place in a text: a line, and a column in characters. Both count from 1, and a tab is one column.
#[derive(Clone, Copy, Debug, PartialEq, Eq, PartialOrd, Ord)]
pub struct Place {
    pub line: u32,
    pub column: u32,
}

/// A node of a tree, by its number in preorder, counted from 0: the root is 0, and a node comes before its descendants.
#[derive(Clone, Copy, Debug, PartialEq, Eq, PartialOrd, Ord, Hash)]
pub struct Node(pub u32);
