//! The reading of a file of rows.
use crate::escapes::unescape;
use crate::fault::{LineFault, RowsFault};
use crate::file::{Row, Section, Setting};
use std::alloc::Global;

/// A row of several lines that is not at its end yet, as it is written.
#[derive(Drop)]
struct Begun {
    line: u32,
    given: String,
    wanted: Option<String>,
}

impl Begun {
    /// Goes on with a line. The first that begins with `=>` parts what is given from what is wanted.
    fn put_line(&mut self, line: &str) -> Result<(), RowsFault> {
        let alloc = *self.given.allocator();
        match &mut self.wanted {
            Some(wanted) => put_line(wanted, line),
            None => match line.trim_start_matches(' ').strip_prefix("=>") {
                Some(wanted) => {
                    let wanted = wanted.trim_start_matches(' ');
                    self.wanted = Some(String::from_str(alloc, wanted)?);
                    Ok(())
                }
                None => put_line(&mut self.given, line),
            },
        }
    }
}

/// Puts a line below the text, or as its first line where it is empty.
fn put_line(text: &mut String, line: &str) -> Result<(), RowsFault> {
    if !text.is_empty() {
        text.push('\n')?;
    }
    text.push_str(line)?;
    Ok(())
}

/// The text that is written on a line with escapes.
fn read_text(alloc: Global, line: u32, written: &str) -> Result<String, RowsFault> {
    match unescape(alloc, written)? {
        Some(text) => Ok(text),
        None => Err(RowsFault::Line(line, LineFault::BadEscape)),
    }
}

/// The row that is written so.
fn read_row(alloc: Global, line: u32, given: &str, wanted: &str) -> Result<Row, RowsFault> {
    if given.is_empty() {
        return Err(RowsFault::Line(line, LineFault::NothingGiven));
    }
    let given = read_text(alloc, line, given)?;
    let wanted = read_text(alloc, line, wanted)?;
    Ok(Row {
        line,
        given,
        wanted,
    })
}

/// The setting that stands behind its `@`.
fn read_setting(alloc: Global, line: u32, written: &str) -> Result<Setting, RowsFault> {
    let (name, value) = written.split_once(' ').unwrap_or((written, ""));
    let value = read_text(alloc, line, value.trim_start_matches(' '))?;
    let name = String::from_str(alloc, name)?;
    Ok(Setting { line, name, value })
}

/// What is given and what is wanted by a row of one line, if the line is one.
fn split_row(line: &str) -> Option<(&str, &str)> {
    match line.strip_suffix(" =>") {
        Some(given) => Some((given, "")),
        None => line.rsplit_once(" => "),
    }
}

/// What was read of a file so far.
#[derive(Drop)]
struct Reader {
    alloc: Global,
    sections: Vec<Section>,
    begun: Option<Begun>,
}

impl Reader {
    /// Begins a section with this heading.
    fn begin_section(&mut self, line: u32, heading: &str) -> Result<(), RowsFault> {
        let alloc = self.alloc;
        let heading = String::from_str(alloc, heading)?;
        let section = Section {
            line,
            heading,
            settings: Vec::new(alloc),
            rows: Vec::new(alloc),
        };
        match self.sections.push(section) {
            Ok(()) => Ok(()),
            Err(_) => Err(RowsFault::Memory),
        }
    }

    /// Puts a row to the section.
    fn put_row(&mut self, line: u32, given: &str, wanted: &str) -> Result<(), RowsFault> {
        let row = read_row(self.alloc, line, given, wanted)?;
        match self.sections.last_mut() {
            None => Err(RowsFault::Line(line, LineFault::NoSection)),
            Some(section) => match section.rows.push(row) {
                Ok(()) => Ok(()),
                Err(_) => Err(RowsFault::Memory),
            },
        }
    }

    /// Puts a setting to the section, which has no row yet.
    fn put_setting(&mut self, line: u32, written: &str) -> Result<(), RowsFault> {
        let setting = read_setting(self.alloc, line, written)?;
        match self.sections.last_mut() {
            None => Err(RowsFault::Line(line, LineFault::NoSection)),
            Some(section) if !section.rows.is_empty() => {
                Err(RowsFault::Line(line, LineFault::LateSetting))
            }
            Some(section) => match section.settings.push(setting) {
                Ok(()) => Ok(()),
                Err(_) => Err(RowsFault::Memory),
            },
        }
    }

    /// Begins a row of several lines.
    fn begin_row(&mut self, line: u32, first: &str) -> Result<(), RowsFault> {
        let alloc = self.alloc;
        let mut begun = Begun {
            line,
            given: String::new(alloc),
            wanted: None,
        };
        begun.put_line(first)?;
        self.begun = Some(begun);
        Ok(())
    }

    /// Ends the row of several lines, if there is one.
    fn end_row(&mut self) -> Result<(), RowsFault> {
        let Some(
            Begun {
                line,
                given,
                wanted,
            },
        ) = self.begun.take()
        else {
            return Ok(());
        };
        match wanted {
            Some(wanted) => self.put_row(line, given.as_str(), wanted.as_str()),
            None => Err(RowsFault::Line(line, LineFault::NothingWanted)),
        }
    }

    /// Reads a line that stands in no row.
    fn read_first_line(&mut self, number: u32, line: &str) -> Result<(), RowsFault> {
        if let Some(setting) = line.strip_prefix("@") {
            return self.put_setting(number, setting);
        }
        match split_row(line) {
            Some((given, wanted)) => {
                let wanted = wanted.trim_start_matches(' ');
                let given = given.trim_start_matches(' ').trim_end_matches(' ');
                self.put_row(number, given, wanted)
            }
            None => self.begin_row(number, line),
        }
    }

    /// Reads a line.
    fn read_line(&mut self, number: u32, line: &str) -> Result<(), RowsFault> {
        let line = line.trim_end_matches(' ');
        if line == "#" || line.starts_with("# ") {
            return Ok(());
        }
        if line.is_empty() {
            return self.end_row();
        }
        if let Some(heading) = line.strip_prefix("## ") {
            self.end_row()?;
            return self.begin_section(number, heading);
        }
        match &mut self.begun {
            Some(begun) => begun.put_line(line),
            None => self.read_first_line(number, line),
        }
    }
}

/// The sections of a file, in their order, or what is wrong with its first line that is wrong.
pub fn read_rows(alloc: Global, text: &str) -> Result<Vec<Section>, RowsFault> {
    let mut reader = Reader {
        alloc,
        sections: Vec::new(alloc),
        begun: None,
    };
    let mut number = 0u32;
    for line in text.lines() {
        number = number.saturating_add(1);
        reader.read_line(number, line)?;
    }
    reader.end_row()?;
    let Reader { sections, .. } = reader;
    Ok(sections)
}
