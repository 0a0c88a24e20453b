//! Members of classes: fields and methods of a name, with those that are inherited, and as a receiver has them.
#![tactic(auto)]

mod bounds;
mod fields;
mod keys;
mod laws;
mod methods;
mod receiver_methods;
mod receivers;
mod supertype_walk;
mod supertypes;

pub use fields::find_field;
pub use laws::sources_agree;
pub use methods::methods_named;
pub use receiver_methods::methods_of_receiver;
pub use receivers::{field_of_receiver, supertype_of_receiver};
