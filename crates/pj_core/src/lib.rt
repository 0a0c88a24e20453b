//! A run as events: which worker claims which file, which class is looked up with which answer, which file is finished.
//! Whatever the order of lawful events, each file comes to what it means in the world.
#![tactic(auto)]

mod event;
mod laws;
mod state;

pub use event::{Did, Event};
pub use laws::any_order;
pub use state::Core;
