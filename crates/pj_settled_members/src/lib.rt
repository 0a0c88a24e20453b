//! Laws of members, of the choice of a method and of tests of types: in worlds that find finitely many classes they come to something.
#![tactic(auto)]

mod laws;

pub use laws::{choices_settle, members_of_receivers_settle, members_settle, type_tests_settle};
