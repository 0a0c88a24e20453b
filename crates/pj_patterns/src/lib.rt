//! Regular patterns with their derivatives.
//!
//! Grammars of tokens are written in patterns over sets of characters that each grammar names itself. `specs/Pattern.antt` says which words a
//! pattern matches, `specs/Rules.antt` what the first rule of a list says that a word is, and `specs/Derivatives.antt` what is left of both behind
//! a character. The laws are what a scanner by states is proved with.
#![tactic(auto)]

mod laws;

pub use laws::{derivatives_are_exact, empty_word_is_told, first_rule_is_one};
