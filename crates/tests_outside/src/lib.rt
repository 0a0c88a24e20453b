//! Tests of what is outside, in memory: trees, class paths, sinks and keepers, in tables, each with one loop.
#![tactic(auto)]

#[cfg(test)]
mod fixtures;
#[cfg(test)]
mod keepers;
#[cfg(test)]
mod outside;
