//! The sources of a run: which files its folders list, and what is read of them within the limits.
#![tactic(auto)]

mod laws;
mod limits;
mod listing;
mod paths;
mod reading;
mod refused;

pub use laws::{one_listing, one_reading};
pub use limits::{SourceLimit, test_files};
pub use listing::{Listing, list_sources};
pub use reading::read_sources;
pub use refused::{ListRefused, ReadRefused};
