//! Binary formats as data, with what bytes spell by a format and which of their faults is the first.
#![tactic(auto)]

mod fault;
mod field;

pub use fault::{Fault, Refused};
pub use field::{refused, run_of, sized_of, u8_of, u16_of, u32_of};
