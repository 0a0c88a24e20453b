//! What is known of an expression by its type: the field or member class of a name behind it, the element of an array, what an enhanced `for` goes through (JLS 6.5.2,
//! 10.4, 10.7, 14.14.2, 15.11.1). Computations that ask an oracle for classes, which answers those of the file too.
#![tactic(auto)]

mod elements;
mod fields;
mod laws;
mod receivers;

pub use elements::{element_of, iterated};
pub use fields::{field_of, member_class};
pub use laws::{sources_agree, unknown_receivers};
pub use receivers::as_receiver;
