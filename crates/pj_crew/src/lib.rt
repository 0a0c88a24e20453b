//! Workers that share a table: each claims files until none is left, in a thread of its own where one can be made. What comes of the
//! files is put together in the order of their numbers, whoever worked at them.
#![tactic(auto)]

mod hiring;
mod opening;
mod placing;
mod releasing;
mod shares;
mod together;
mod worker;

pub use opening::{open_doors, shut_doors};
pub use together::{CrewResult, work_together};
