//! Laws of the syntax of XPath that no other crate stands on.
//!
//! Of texts: what is written as a list of words, with a space behind each, has just these tokens (`specs/Spaced.antt`). That a word
//! spells a token is said by `signs_and_literals_spell`, and of a word that is given, as a keyword, it is shown by computation
//! (`scanner_follows_the_rules` of `pj_xtokens`). Comments and white space between words change nothing (`specs/Gapped.antt`). Of faults: what
//! a text names ascends by its offsets and stands before the place where the tokens have their fault, so the first fault of what is named is
//! the first by offset (`specs/Order.antt`). Of expressions: how one is
//! printed, as words with no parentheses but those that the grammar asks for (`specs/Printed.antt`), with the laws that the text spells it,
//! and that this holds of every expression that any text spells; what abbreviations stand for (`specs/Abbreviations.antt`); and that each level of
//! operators reads in parentheses what any of them reads (`specs/Levels.antt`).
#![tactic(auto)]

mod laws;

pub use laws::{
    abbreviations_stand_for_longer_forms, comments_change_nothing, first_fault_is_first,
    mentions_ascend, names_come_first, parentheses_leave_no_trace, prefix_of_functions_is_optional,
    printed_expressions_are_read, signs_and_literals_spell, spaced_words_are_tokens,
    spelled_expressions_are_printed, steps_without_axis_are_children,
    strings_alone_have_white_space,
};
