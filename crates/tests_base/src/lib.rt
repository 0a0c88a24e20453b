//! Tests of the lowest crates, through what they show: worked rows in tables, each with one loop.
#![tactic(auto)]

#[cfg(test)]
mod base;
#[cfg(test)]
mod fixtures;
#[cfg(test)]
mod names;
#[cfg(test)]
mod types;
