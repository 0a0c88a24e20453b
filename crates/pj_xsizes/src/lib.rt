//! XPath: the sizes of expressions.
//!
//! A value of the type `Expr` keeps its parts in vectors, which have room for so many members only. These are the laws that say of which texts
//! the expressions fit.
#![tactic(auto)]

mod laws;

pub use laws::some_expression;
