//! The outside of the analyser: traits of what it reads and writes, and objects in memory that meet them.
#![tactic(auto)]

mod class_path;
mod fault_plan;
mod files;
mod keeper;
mod laws;
mod mem_class_path;
mod mem_door;
mod mem_keeper;
mod mem_sink;
mod mem_tree;
mod refused;
mod sink;
mod tree;

pub use class_path::{ClassDoor, ClassPath};
pub use files::Files;
pub use keeper::Keeper;
pub use laws::one_name_is_replaced;
pub use mem_class_path::{Folders, MemClassPath, Pairs};
pub use mem_door::MemDoor;
pub use mem_keeper::MemKeeper;
pub use mem_sink::MemSink;
pub use mem_tree::MemTree;
pub use refused::{Failed, Reading, Refused};
pub use sink::Sink;
pub use tree::Tree;
