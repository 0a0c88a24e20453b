//! Tests of files of rows: how they are read, what is told of a row that does not hold, and of each kind of file that is none.
#![tactic(auto)]

#[cfg(test)]
mod reports;
