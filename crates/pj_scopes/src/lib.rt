//! What a simple name means at a place of a Java file, over the oracle of the file: types (JLS 6.5.5), and variables (JLS 6.3, 6.4.1,
//! 6.5.6.1): one that the file declares, a field that a class around the place inherits, or one that a static import gives.
//!
//! The oracle answers the classes of the file too, each by its declaration.
#![tactic(auto)]

mod fields;
mod imports;
mod laws;
mod names;
mod variable;
mod variable_laws;

pub use imports::{imported_class, static_imports};
pub use laws::sources_agree;
pub use names::resolve_name;
pub use pj_file_oracle::{FileOracle, resolve_type};
pub use variable::{Variable, variable_name};
pub use variable_laws::variables_agree;
