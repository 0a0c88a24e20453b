//! Why bytes are no Java file.

use pj_tree::Place;

/// Why bytes are no Java file. Of several reasons the first in this order counts.
#[derive(Clone, Copy, Debug, PartialEq, Eq)]
pub enum FileFault {
    /// The bytes are not UTF-8 from this one on, counted from 0.
    NotUtf8(u32),
    /// At this place of the file a Unicode escape ought to stand, and does not (JLS 3.3).
    Escape(Place),
    /// The first fault among the tokens: its kind, as of `LexFault`, and its place in the file (JLS 3).
    Lexical(u8, Place),
    /// The number of tokens without comments, which is more than 200,000.
    TooManyTokens(u32),
    /// The grammar does not derive the tokens.
    Syntax,
    /// The depth of the deepest node, which is more than 1,000. The root has depth 1.
    TooDeep(u32),
    /// The number of nodes, which is more than 2,000,000.
    TooManyNodes(u32),
}

/// Why a call gives nothing of the bytes of a file.
#[derive(Clone, Copy, Debug, PartialEq, Eq)]
pub enum FileRefused {
    /// The bytes are no Java file.
    Fault(FileFault),
    /// Want of memory.
    Memory,
}
