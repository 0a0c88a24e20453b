//! What the parts of an expression say, the code that makes it of what smaller parts say, and what the trees of expressions look like.
//!
//! `specs/Operands.antt` has what an expression says: its tree, and the functions and variables that it names (`specs/Mentions.antt`); and what
//! operators, variables, paths and calls make of expressions. A `Reading` is an expression as the code reads it, and `specs/Seen.antt` tells
//! what it says. The laws of trees (level, nesting, where they may stand) are the contracts of calls that do nothing.
#![tactic(auto)]

mod call;
mod clause;
mod front;
mod laws;
mod named;
mod operand;
mod operation;
mod primary;
mod role;
mod row;
mod step;

pub use call::function_call;
pub use clause::{Binder, bound, choice};
pub use front::Front;
pub use laws::{expressions_have_shapes, nesting_is_least, slashes_before_words_nest};
pub use named::{Named, Spelling};
pub use operand::{Bound, Given, Reading};
pub use operation::{Chain, chain_of, comparison, product, range, sets, signed, sum};
pub use primary::{context_item, cut_variable, integer, parenthesized, string, variable};
pub use role::Role;
pub use step::{
    Kind, along, attribute_step, axis_step, child_step, descendants, filtered, kind_test,
    name_test, path, root, rooted,
};
