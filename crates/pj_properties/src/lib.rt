//! The properties of nodes: what a node of a parsed file tells of itself, as a text, a number or a truth value.
//!
//! Texts are borrowed from the source, the pool of the file or its declarations, and no call takes memory. Each takes a step
//! for each child, own token or character that it looks at, and those of a few nodes above and below.
#![tactic(auto)]

mod access;
mod flags;
mod literals;
mod names;
mod numbers;
mod operators;
mod parentheses;
mod property;
mod texts;
mod types;
mod visibility;

pub use flags::flag_value;
pub use numbers::number_value;
pub use property::{FlagProperty, NumberProperty, Property, TextProperty, Word};
pub use texts::text_value;
