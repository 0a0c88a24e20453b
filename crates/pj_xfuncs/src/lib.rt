//! XPath: the functions that need neither the tree nor the focus.
#![tactic(auto)]

mod cases;
mod characters;
mod general;
mod library;
mod numbers;
mod places;
mod seen;
mod sequences;
mod spaces;
mod strings;
mod translate;

pub use library::call;
pub use pj_xpatterns::{PatternFault, Patterns};
