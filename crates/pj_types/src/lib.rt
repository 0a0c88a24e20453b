//! Types of the Java language: substitution, erasure, supertypes and subtyping.
#![tactic(auto)]

mod conversions;
mod direct;
mod hierarchy;
mod laws;
mod listed;
mod members;
mod name_walk;
mod substitution;
mod subtyping;
mod walk;

pub use conversions::{
    are_numeric, as_primitive, boxed, boxed_name, boxed_type, numeric, promoted, promoted_both,
    unboxed,
};
pub use direct::direct_names;
pub use hierarchy::{supertype_list, supertypes};
pub use laws::{
    erasure_is_done_once, lists_are_the_recursion, sources_agree, special_types_are_apart,
    subtyping_is_by_the_list, walks_give_the_list,
};
pub use listed::paired;
pub use members::{Field, Method, Methods, copied_methods};
pub use name_walk::NameWalk;
pub use substitution::{erase, substitute};
pub use subtyping::{is_primitive_under, is_subtype};
pub use walk::Walk;
