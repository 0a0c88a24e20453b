//! XPath: expressions.
//!
//! Operators, axes, functions with their names, node tests, and the expressions that the parser makes of them and the evaluator reads.
//! `specs/Trees.antt` sees an expression as a tree of constructs, and `specs/Expressions.antt` says which values are expressions.
#![tactic(auto)]

mod axis;
mod expr;
mod function;
mod name;
mod operator;
mod pmd_function;

pub use axis::Axis;
pub use expr::{Expr, NodeTest};
pub use function::Function;
pub use name::{Callee, axis_named, function_named};
pub use operator::{Additive, Compare, Multiplicative, Quantifier, SetOperator, Sign};
pub use pmd_function::PmdFunction;
