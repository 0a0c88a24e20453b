//! What one worker does: an oracle through its seat of the shared table, for one file; the loop in which it claims files; and the
//! gate that it passes with each.
#![tactic(auto)]

mod gate;
mod laws;
mod seat_oracle;
mod station;
mod worker;

pub use gate::{Gate, OpenGate};
pub use laws::looks_add_up;
pub use seat_oracle::SeatOracle;
pub use station::Station;
pub use worker::{FileWork, Share, claim_loop};
