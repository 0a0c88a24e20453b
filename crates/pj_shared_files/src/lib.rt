//! Files over the cache that a run found, by several workers: what each makes of a file follows from the file, the world and the cache,
//! so that what is left is what one worker would leave.
#![tactic(auto)]

mod by_threads;
mod closed_oracle;
mod files_work;
mod gathering;
mod rows;
mod together;

pub use by_threads::files_by_threads;
pub use files_work::FilesWork;
pub use together::files_together;
