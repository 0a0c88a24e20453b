//! The values of attributes.

/// The value of an attribute.
#[derive(Clone, Copy, Debug, PartialEq, Eq)]
pub enum Value<'t> {
    /// A string.
    Str(&'t str),
    /// An integer of 64 bits.
    Int(i64),
    /// A boolean.
    Bool(bool),
}
