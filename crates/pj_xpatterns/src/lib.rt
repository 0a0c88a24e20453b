//! XPath: `matches`, `replace` and `tokenize`, and their patterns, each compiled once.
#![tactic(auto)]

mod compiled;
mod flags;
mod laws;
mod matching;
mod own;
mod patterns;
mod written;

pub use compiled::{CompiledPattern, PatternFault};
pub use flags::PatternFlags;
pub use laws::trees_tell_patterns;
pub use matching::{matches, replace, tokenize};
pub use patterns::Patterns;
