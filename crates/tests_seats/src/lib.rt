//! Tests of workers over a class path in memory: what they make of files, and how often their doors find.
#![tactic(auto)]

#[cfg(test)]
mod classes;
#[cfg(test)]
mod crews;
#[cfg(test)]
mod workers;
