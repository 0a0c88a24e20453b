//! The values of literals. Given is how a literal is spelled.
use pj_base::NoMemory;
use pj_literals::{string_value, value_of_any};
use pj_rows::{Row, Section, Table};
use std::alloc::Global;

/// The rows of integer literals.
pub struct Integers;

impl Table for Integers {
    fn answer(&self, alloc: Global, _section: &Section, row: &Row) -> Result<String, NoMemory> {
        let found = match value_of_any(row.given.as_str()) {
            Some(value) => value.to_string(alloc)?,
            None => String::from_str(alloc, "! no value")?,
        };
        Ok(found)
    }
}

/// The rows of character and string literals and text blocks.
pub struct Strings;

impl Table for Strings {
    fn answer(&self, alloc: Global, _section: &Section, row: &Row) -> Result<String, NoMemory> {
        let value = string_value(alloc, row.given.as_str())?;
        Ok(value.into_string())
    }
}
