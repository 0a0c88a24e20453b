//! The annotations of declarations (JLS 9.7) by the names of their classes, as a computation that asks an oracle for classes.
#![tactic(auto)]

mod annotations;

pub use annotations::has_annotation;
