//! Events of a run, and what they do.
use pj_names::{Answer, ClassName};
use std::sync::Arc;

/// One atomic step of a run.
#[derive(Drop)]
pub enum Event<R> {
    /// The worker claims the next file.
    Claim {
        /// The worker's number.
        worker: u32,
    },
    /// The worker looks a class up, which has this answer.
    Look {
        /// The worker's number.
        worker: u32,
        /// The class.
        name: ClassName,
        /// The answer that a source of answers gave.
        answer: Arc<Answer>,
    },
    /// The worker hands over what its file came to.
    Finish {
        /// The worker's number.
        worker: u32,
        /// What the file came to.
        rows: R,
    },
}

/// What an event did.
#[derive(Clone, Copy, Debug, PartialEq, Eq)]
pub enum Did {
    /// The worker holds the file of this number.
    Claimed(u32),
    /// All files are claimed.
    NoFile,
    /// The name was filled with the answer.
    Filled,
    /// The name was filled before.
    Hit,
    /// The rows are kept under the worker's file, which the worker holds no more.
    Finished,
}
