//! Descriptors and signatures of class files, and the types that they spell.
#![tactic(auto)]

mod descriptors;
mod laws;
mod names;
mod parameters;
mod read;
mod scan;
mod signature;
mod types;

pub use laws::{readings_are_spelled, spelled_once};
pub use names::{class_of_internal, is_internal_name};
pub use signature::{
    ClassSig, MethodSig, class_signature, descriptor, field_signature, field_signature_in,
    method_descriptor, method_signature, method_signature_in,
};
