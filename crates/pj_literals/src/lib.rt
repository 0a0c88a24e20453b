//! The values of Java's literals.
//!
//! `integer_value` is the number of an integer literal (JLS 3.10.1). `string_value` is the text of a character literal, a string literal or
//! a text block (JLS 3.10.4 to 3.10.7), its escapes interpreted and the incidental white space of a text block removed.
#![tactic(auto)]

mod block;
mod escape;
mod integer;
mod laws;
mod lines;
mod string;

pub use integer::{integer_value, value as value_of_any};
pub use laws::{
    escapes_by_case, integers_count_by_their_rules, stripping_is_done_once, tokens_are_spelled,
};
pub use string::string_value;
