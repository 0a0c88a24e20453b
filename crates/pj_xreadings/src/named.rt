//! What the tokens of a text name.

use crate::role::Role;

/// An argument as it is written, where that decides.
#[derive(Clone, Copy)]
pub enum Spelling<'t> {
    /// A string literal, which is this token.
    Literal(&'t str),
    /// An integer literal.
    Number,
    /// A variable of this name.
    Name(&'t str),
    /// Anything else.
    Other,
}

/// A function or a variable that is named, with its place, or where a variable is bound. Offsets are bytes of the text, from 0.
#[derive(Clone, Copy)]
pub enum Named<'t> {
    /// A variable, and the offset of its `$`.
    Variable(&'t str, u32),
    /// A call of a function of the name with so many arguments, and the offset of the name.
    Call(&'t str, usize, u32),
    /// An argument of this role, as it is written, and the offset of its first token.
    Argument(Role, Spelling<'t>, u32),
    /// A variable is bound from here on.
    Binds(&'t str),
    /// The scope of so many variables, those that were bound last, ends here.
    Ends(usize),
}
