//! What the functions know of a file besides its classes.

use pj_base::Text;
use std::alloc::Global;

/// The facts of a file, and its path.
#[derive(Drop)]
pub struct Setting<'s, A> {
    /// What replies are made with.
    pub alloc: Global,
    /// The attributes, modifiers and places of its nodes.
    pub facts: &'s A,
    /// Its path.
    pub path: &'s Text,
}
