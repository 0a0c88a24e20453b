//! Laws of names of types and of the classes of a file: in worlds that find finitely many classes they come to something.
#![tactic(auto)]

mod laws;

pub use laws::{file_answers_settle, names_of_types_settle, types_in_files_settle};
