//! PMD's functions in rules that ask for no class: of places, of the kinds of nodes, of modifiers and of the file; and what PMD's functions take of their arguments.
#![tactic(auto)]

mod arguments;
mod files;
mod kinds;
mod laws;
mod modifiers;
mod replies;

pub use arguments::text_argument;
pub use laws::{expressions_are_one_group, modifiers_are_in_order};
pub use modifiers::modifiers_at;
pub use replies::{end_column, end_line, file_reply, kind_reply, start_column, start_line};
