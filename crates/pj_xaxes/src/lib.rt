//! The axes of nodes, and document order.
#![tactic(auto)]

mod laws;
mod nodes;
mod order;
mod search;

pub use laws::ordered_is_a_filter;
pub use nodes::{AxisNodes, axis};
pub use order::{in_order, is_among};
