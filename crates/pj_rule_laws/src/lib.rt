//! Laws of rulesets: what is read of them is short, and the rulesets that are named come to rules or have a first fault.
//!
//! They stand above the crates whose definitions they are of, so that these need not know how long an expression may be.
#![tactic(auto)]

mod laws;

pub use laws::{
    read_texts_are_short, rules_have_priorities, rules_or_first_fault, short_texts_are_sound_or_not,
};
