//! Tests of the crates of Java text, of what rows of text cannot say: limits, long texts, and trees that are built by hand.
#![tactic(auto)]

#[cfg(test)]
mod fixtures;
#[cfg(test)]
mod grammar;
#[cfg(test)]
mod parse;
#[cfg(test)]
mod pieces;
#[cfg(test)]
mod shapes;
#[cfg(test)]
mod tree;
