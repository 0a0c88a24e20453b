//! PMD's functions in rules over a Java file: places, kinds, modifiers, types and annotations of nodes, what they call, and the name of the file.
#![tactic(auto)]

mod called;
mod calls;
mod laws;
mod node_tests;
mod replies;
mod setting;

pub use calls::JavaCalls;
pub use laws::sources_agree;
