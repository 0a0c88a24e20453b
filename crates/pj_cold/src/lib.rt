//! The cold report: what the rules of a set come to in sources, over the class folders of a door. It knows no cache and no words.
#![tactic(auto)]

mod cold;
mod laws;
mod steady_door;

pub use cold::{cold_report, door_of, report_of};
pub use laws::{rules_have_reports, what_sets_mean_settles};
pub use steady_door::{Knowing, SteadyDoor};
