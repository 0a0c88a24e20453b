//! Where a run finds its cache and leaves the next one: under a name of a keeper.
#![tactic(auto)]

mod laws;
mod leaving;
mod loading;

pub use laws::{class_folders_answer_by_name, left_texts_fit, what_is_loaded_is_found};
pub use leaving::text_to_leave;
pub use loading::{Loaded, Unused, load_cache};
