//! Tables, which answer the rows of a file.
use crate::file::{Row, Section};
use pj_base::NoMemory;
use std::alloc::Global;

/// What answers the rows of a file.
pub trait Table {
    /// Whether the sections of its files may have a setting of this name. None may where this is not written.
    fn has_setting(&self, _name: &str) -> bool {
        false
    }

    /// What is found for what a row gives, as it is to be compared with what the row wants. A refusal begins with `! `, and
    /// so does the answer for what is given in no form that the table reads. Where there is no memory for an answer, the row
    /// does not hold.
    fn answer(&self, alloc: Global, section: &Section, row: &Row) -> Result<String, NoMemory>;
}
