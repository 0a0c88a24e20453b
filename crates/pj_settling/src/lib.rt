//! Laws of meanings that come to something: in worlds that find finitely many classes, searches along supertypes do.
#![tactic(auto)]

mod laws;

pub use laws::{
    expanded_meanings_settle, made_meanings_settle, searches_settle, subtyping_settles,
};
