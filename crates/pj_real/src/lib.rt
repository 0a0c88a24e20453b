//! The real system as the objects that a run is given: a tree of files, a class path over folders, a keeper of caches, and sinks over streams.
//!
//! Each counts its faults, and tells nothing of what the system holds.
#![tactic(auto)]

mod class_path;
mod file;
mod keeper;
mod sink;
mod tree;

pub use class_path::{RealClassPath, RealDoor};
pub use keeper::RealKeeper;
pub use sink::RealSink;
pub use tree::RealTree;
