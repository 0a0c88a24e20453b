//! Signature patterns.

use pj_base::{ListOf, Text};

/// What a pattern asks of a type.
#[derive(Drop)]
pub enum TypePattern {
    /// `_`: any type, also one that is not known.
    Any,
    /// The type of a canonical or binary name, of a primitive type's word, or an array of these.
    Named(Text),
}

/// What a pattern asks of each parameter, in their order.
pub type TypePatterns = ListOf<TypePattern>;

/// What a pattern asks of a method's name.
#[derive(Drop)]
pub enum MethodPattern {
    /// `_`: any method or constructor.
    Any,
    /// `new`, or `<init>`: a constructor.
    Constructor,
    /// A method of this name.
    Named(Text),
}

/// What a pattern asks of the parameters.
#[derive(Drop)]
pub enum ParametersPattern {
    /// `_*`: any parameters.
    Any,
    /// As many parameters, each as the pattern at its place says.
    Listed(TypePatterns),
}

/// A signature pattern `T#m(P)`.
#[derive(Drop)]
pub struct SigPattern {
    /// `T`: the type on which the method is called.
    pub receiver: TypePattern,
    /// `m`: the method's name.
    pub method: MethodPattern,
    /// `P`: the types of the method's parameters.
    pub parameters: ParametersPattern,
}
