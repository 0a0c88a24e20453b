//! XPath: what waits for a value in an evaluation, and what it makes of that value.
//!
//! An evaluation does not recurse: of a construct whose operand is evaluated stands a frame, with what there is already and what
//! is left of it. Here are the frames, the variables, and what each construct that binds no variable and turns over no items
//! goes on with once the value is there.
#![tactic(auto)]

mod frame;
mod lists;
mod logic;
mod numbers;
mod scope;

pub use frame::{Binder, Binding, ForTurns, Frame, Next, QuantifiedTurns, Task, Turn, Turns};
pub use lists::{
    arguments, arguments_after, items, items_after, nodes, nodes_after, pmd_arguments,
    pmd_arguments_after, sets_after, sets_from, texts, texts_after,
};
pub use logic::{boolean, chosen, comparison, decides, tested, truths, truths_after};
pub use numbers::{
    factors_after, factors_from, range_from, range_to, signed_value, terms_after, terms_from,
};
pub use scope::Scope;
