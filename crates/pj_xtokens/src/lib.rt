//! The tokens of an XPath expression.
//!
//! `tokens` gives them by the grammar of XPath 2.0, A.2, with the signs that XPath 3.1 adds, up to the end of the text or
//! up to the first place where no token begins. A keyword is a name here: where it stands tells it apart. `integer_value` and
//! `string_value` say what literals stand for.
#![tactic(auto)]

mod characters;
mod first;
mod gap;
mod laws;
mod literal;
mod scan;
mod state;
mod text;
mod token;
mod token_list;

pub use first::{begins_with_name, begins_with_parenthesis, behind_first, first_from, first_text};
pub use laws::{
    each_text_has_tokens, gaps_stand_in_front, scanner_follows_the_rules, tokens_are_not_empty,
    tokens_are_one,
};
pub use literal::{integer_value, string_value};
pub use token::{End, Sign, Token, TokenKind};
pub use token_list::{TokenList, tokens};
