//! The phases of the choice among methods.

/// In which way an applicable method is looked for (JLS 15.12.2).
#[derive(Clone, Copy)]
pub enum Phase {
    /// By strict invocation, by subtyping alone (JLS 15.12.2.2).
    Strict,
    /// By loose invocation, also with boxing and unboxing (JLS 15.12.2.3).
    Loose,
    /// By variable arity invocation (JLS 15.12.2.4).
    VariableArity,
}
