//! What a file of rows holds.
use pj_base::NoMemory;
use std::alloc::Global;

/// A setting of a section, as `@name value`.
#[derive(Debug, Drop)]
pub struct Setting {
    /// Its line in the file, from 1.
    pub line: u32,
    /// Its name.
    pub name: String,
    /// What stands behind the name, with its escapes read.
    pub value: String,
}

/// A row: what is given, and what is wanted of it. Escapes are read.
#[derive(Debug, Drop)]
pub struct Row {
    /// The number of its first line in the file, from 1.
    pub line: u32,
    /// What is given.
    pub given: String,
    /// What is wanted. That of a refusal begins with `! `.
    pub wanted: String,
}

/// A section: its heading, its settings and its rows, in their order.
#[derive(Debug, Drop)]
pub struct Section {
    /// The line of its heading in the file, from 1.
    pub line: u32,
    /// The heading, without its `## `.
    pub heading: String,
    /// Its settings.
    pub settings: Vec<Setting>,
    /// Its rows.
    pub rows: Vec<Row>,
}

impl Section {
    /// The value of the first setting of this name, or `None` where none has it.
    pub fn setting(&self, name: &str) -> Option<&str> {
        for setting in &self.settings {
            if setting.name.as_str() == name {
                return Some(setting.value.as_str());
            }
        }
        None
    }

    /// Whether some setting has this name.
    pub fn has(&self, name: &str) -> bool {
        self.setting(name).is_some()
    }

    /// The text in the place of the dots of the setting `frame`, as `class A { .. }`; the text alone where there is no frame.
    pub fn framed(&self, alloc: Global, text: &str) -> Result<String, NoMemory> {
        let frame = self.setting("frame").unwrap_or("..");
        let (before, behind) = frame.split_once("..").unwrap_or((frame, ""));
        let mut framed = String::from_str(alloc, before)?;
        framed.push_str(text)?;
        framed.push_str(behind)?;
        Ok(framed)
    }
}
