//! What functions want of their arguments.

ghost use Rattle.std.specs.Prelude.{◌≡◌};
ghost use Rattle.pj_xreadings.specs.Mentions.{roles_of, roles_named};

use pj_xexpressions::{Callee, Function, function_named};

/// What an argument of a function has to be (XQuery 1.0 and XPath 2.0 Functions and Operators, 7.6).
#[derive(Clone, Copy, Debug, PartialEq, Eq)]
pub enum Role {
    /// Any expression.
    Any,
    /// A pattern: a literal, or a variable of the rule set.
    Pattern,
    /// A replacement: a string literal without `$` and `\`.
    Replacement,
    /// Flags: a string literal of the letters i, m and s.
    Flags,
}

/// The roles of the function's arguments, as far as they are not any expression.
fn roles_of(function: Function) -> &'static [Role]
    ensures { result.now ≡ roles_of function }
{
    match function {
        Function::Matches | Function::Tokenize => &[Role::Any, Role::Pattern, Role::Flags],
        Function::Replace => &[Role::Any, Role::Pattern, Role::Replacement, Role::Flags],
        _ => &[],
    }
}

/// The roles of the arguments of the function that the name calls, as far as they are not any expression.
pub fn roles_named(name: &str) -> &'static [Role]
    ensures { result.now ≡ roles_named name.now }
{
    match function_named(name) {
        Some(Callee::XPath(function)) => roles_of(function),
        Some(Callee::Pmd(_)) => &[],
        None => &[],
    }
}
