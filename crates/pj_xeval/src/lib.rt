//! XPath: the evaluation of expressions.
//!
//! Nothing recurses: what waits for a value is a frame of a stack on the heap, so neither the nesting of an expression nor the
//! number of its variables needs a stack of its depth. Here is how a construct begins, how it binds variables and turns over
//! items, and the loop; the frames are those of `pj_xframes`.
#![tactic(auto)]

mod begin;
mod bindings;
mod evaluator;
mod machine;
mod over;
mod react;
mod turns;

pub use evaluator::{Focus, evaluate};
