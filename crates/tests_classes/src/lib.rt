//! Tests of signatures and supertypes that no row says: copies, a long chain of classes, and hierarchies and signatures that were
//! made to do harm.
#![tactic(auto)]

#[cfg(test)]
mod chain;
#[cfg(test)]
mod copies;
#[cfg(test)]
mod deep;
#[cfg(test)]
mod fixtures;
