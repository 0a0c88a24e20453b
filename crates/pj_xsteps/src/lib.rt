//! XPath: what expressions denote, and the parts of evaluation that do not go down the expression.
//!
//! Operands and arithmetic, sets of nodes, axis and attribute steps, what a predicate keeps and what a path's steps give, and
//! calls of functions. The definitions of what an expression denotes are in `specs/`. Nothing here asks for a class.
#![tactic(auto)]

mod arithmetic;
mod at;
mod axis_step;
mod calling;
mod nodes;
mod operands;
mod sequences;
mod setting;
mod turns;

pub use arithmetic::{literal, number_items, product, range, signed, sum};
pub use at::At;
pub use axis_step::{attributes, is_backwards, stepped};
pub use calling::{call, node_in};
pub use nodes::NodeItems;
pub use operands::{compared, operand, text_operand};
pub use sequences::{copied_items, one, turned_back};
pub use setting::Setting;
pub use turns::{keeps_at, united};
