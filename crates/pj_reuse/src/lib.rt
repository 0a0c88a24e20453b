//! What of a cache can be used again: the results of rules whose classes have the same answers now.
#![tactic(auto)]

mod current;
mod keeping;
mod laws;
mod serving;

pub use keeping::kept;
pub use laws::{kept_is, same_is_equal, served_is};
pub use serving::served;
