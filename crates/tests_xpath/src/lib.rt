//! Tests of XPath that no row of a file says: expressions that are made by hand.
#![tactic(auto)]

#[cfg(test)]
mod expressions;
