//! What is told of a file of rows.
use crate::escapes::escape;
use crate::fault::{LineFault, RowsFault};
use crate::file::{Row, Section};
use crate::reader::read_rows;
use crate::table::Table;
use pj_base::NoMemory;
use std::alloc::Global;
use std::fmt::Write;

/// What is told of a file of rows.
#[derive(Debug, Drop)]
pub struct Report {
    /// A line for each row that does not hold, and the number of rows; or the line that is wrong.
    pub text: String,
    /// Whether the file is one of rows, and each of them holds.
    pub holds: bool,
}

impl Report {
    /// Puts a line that tells what does not hold.
    fn refuse(&mut self, line: &str) -> Result<(), NoMemory> {
        self.holds = false;
        self.text.push_str(line)?;
        self.text.push('\n')?;
        Ok(())
    }

    /// Puts a row that does not hold, with what was found for it.
    fn put_row(
        &mut self,
        alloc: Global,
        file: &str,
        row: &Row,
        found: &str,
    ) -> Result<(), NoMemory> {
        let number = row.line;
        let wanted = escape(alloc, row.wanted.as_str())?;
        let found = escape(alloc, found)?;
        let line = format!(in alloc; "{file}:{number}: wanted {wanted}, got {found}")?;
        self.refuse(line.as_str())
    }

    /// Puts a row where what was found for it is not what it wants.
    fn put_found(
        &mut self,
        alloc: Global,
        file: &str,
        row: &Row,
        found: &str,
    ) -> Result<(), NoMemory> {
        if found != row.wanted.as_str() {
            self.put_row(alloc, file, row, found)?;
        }
        Ok(())
    }

    /// Puts what is found of the rows of a section.
    fn put_section<T: Table>(
        &mut self,
        alloc: Global,
        file: &str,
        section: &Section,
        table: &T,
    ) -> Result<(), NoMemory> {
        for row in &section.rows {
            match table.answer(alloc, section, row) {
                Ok(found) => self.put_found(alloc, file, row, found.as_str())?,
                Err(NoMemory) => self.put_row(alloc, file, row, "! out of memory")?,
            }
        }
        Ok(())
    }

    /// Puts why a file is none of rows.
    fn put_fault(&mut self, alloc: Global, file: &str, fault: RowsFault) -> Result<(), NoMemory> {
        let line = format!(in alloc; "{file}:{fault}")?;
        self.refuse(line.as_str())
    }
}

/// The first setting of a section that the table does not have.
fn unknown_setting<T: Table>(section: &Section, table: &T) -> Option<RowsFault> {
    for setting in &section.settings {
        if !table.has_setting(setting.name.as_str()) {
            return Some(RowsFault::Line(setting.line, LineFault::UnknownSetting));
        }
    }
    None
}

/// The sections of a file for this table.
fn read_for<T: Table>(alloc: Global, text: &str, table: &T) -> Result<Vec<Section>, RowsFault> {
    let sections = read_rows(alloc, text)?;
    for section in &sections {
        if let Some(fault) = unknown_setting(section, table) {
            return Err(fault);
        }
    }
    Ok(sections)
}

/// How many rows the sections have.
fn row_count(sections: &[Section]) -> usize {
    let mut count = 0usize;
    for section in sections {
        count = count.saturating_add(section.rows.len());
    }
    count
}

/// What is told of the file of this name and text, of which the table answers the rows.
pub fn report_on<T: Table>(
    alloc: Global,
    file: &str,
    text: &str,
    table: &T,
) -> Result<Report, NoMemory> {
    let mut report = Report {
        text: String::new(alloc),
        holds: true,
    };
    match read_for(alloc, text, table) {
        Err(fault) => report.put_fault(alloc, file, fault)?,
        Ok(sections) => {
            for section in &sections {
                report.put_section(alloc, file, section, table)?;
            }
            let count = row_count(sections.as_slice());
            writeln!(report.text, "{file}: {count} rows")?;
        }
    }
    Ok(report)
}
