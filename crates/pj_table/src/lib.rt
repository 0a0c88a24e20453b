//! The table of class answers that the workers of a run share, with 64 parts, and the files that they claim from it. Its
//! rule holds between any two steps of any threads.
#![tactic(auto)]

mod class_finder;
mod door_oracle;
mod law;
mod name_part;
mod part;
mod reading;
mod seat;
mod steps;
mod type_table;
mod view;

pub use class_finder::ClassFinder;
pub use door_oracle::DoorOracle;
pub use part::Part;
pub use seat::{TableSeat, TypeTable};
pub use type_table::Closed;
pub use view::{Asked, Entry, Line, Look, View};
