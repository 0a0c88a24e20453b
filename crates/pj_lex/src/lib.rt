//! The tokens of a Java source file.
//!
//! `Lexer` gives the words, literals, signs and comments of a text by the lexical grammar of JLS 3, one after another, without memory.
#![tactic(auto)]

mod category;
mod char_literal;
mod characters;
mod comment;
mod float;
mod hex;
mod integer;
mod laws;
mod lexer;
mod reserved_words;
mod scan;
mod sign;
mod state;
mod string_literal;
mod text;
mod text_block;
mod token;

pub use laws::{all_texts_have_tokens, faults_take_nothing, tokens_are_one};
pub use lexer::Lexer;
pub use token::{LexFault, Token, TokenKind, Tokens};
