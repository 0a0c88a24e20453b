//! Folders of files.
use crate::files::put_file;
use pj_base::NoMemory;
use pj_outside::Files;
use pj_rows::Section;
use std::alloc::Global;

/// A sign in the texts of rulesets, which are the files `.xml`, and what it stands for.
pub type Short = (&'static str, &'static str);

/// The path and the text of a file that is written so: the path ends at the first blank or at the end of its line.
fn file_of(written: &str) -> (&str, &str) {
    let (line, below) = written.split_once('\n').unwrap_or((written, ""));
    match written.split_once(' ') {
        Some((path, text)) if path.len() < line.len() => (path, text),
        _ => (line, below),
    }
}

/// A text with what the signs in it stand for.
fn spelled_out(alloc: Global, shorts: &[Short], text: &str) -> Result<String, NoMemory> {
    let mut spelled = String::from_str(alloc, text)?;
    for (sign, meaning) in shorts {
        spelled = spelled.replace(alloc, *sign, meaning)?;
    }
    Ok(spelled)
}

/// Puts the file that is written so.
fn put_written(
    alloc: Global,
    files: &mut Files,
    shorts: &[Short],
    written: &str,
) -> Result<(), NoMemory> {
    let (path, text) = file_of(written);
    if path.ends_with(".xml") {
        let text = spelled_out(alloc, shorts, text)?;
        return put_file(alloc, files, path, text.as_str());
    }
    put_file(alloc, files, path, text)
}

/// Puts the files of a section.
fn put_of_section(
    alloc: Global,
    files: &mut Files,
    shorts: &[Short],
    section: &Section,
) -> Result<(), NoMemory> {
    for setting in &section.settings {
        if setting.name.as_str() == "file" {
            put_written(alloc, files, shorts, setting.value.as_str())?;
        }
    }
    Ok(())
}

/// Puts the files of a row.
fn put_of_row(
    alloc: Global,
    files: &mut Files,
    shorts: &[Short],
    given: &str,
) -> Result<(), NoMemory> {
    if let Some(written) = given.strip_prefix("//- ") {
        for file in written.split("\n//- ") {
            put_written(alloc, files, shorts, file)?;
        }
    }
    Ok(())
}

/// The files of a row, which gives this.
pub fn files_of(alloc: Global, shorts: &[Short], given: &str) -> Result<Files, NoMemory> {
    let mut files = Files::new(alloc);
    put_of_row(alloc, &mut files, shorts, given)?;
    Ok(files)
}

/// The files of a section, and behind them those of a row, which gives this.
pub fn folder_of(
    alloc: Global,
    shorts: &[Short],
    section: &Section,
    given: &str,
) -> Result<Files, NoMemory> {
    let mut files = Files::new(alloc);
    put_of_section(alloc, &mut files, shorts, section)?;
    put_of_row(alloc, &mut files, shorts, given)?;
    Ok(files)
}

/// The files and the command of a row: its last line behind `$ `, or that of the setting `run` of its section.
pub fn split_command<'r>(section: &'r Section, given: &'r str) -> (&'r str, &'r str) {
    if let Some(command) = given.strip_prefix("$ ") {
        return ("", command);
    }
    match given.rsplit_once("\n$ ") {
        Some(parts) => parts,
        None => (given, section.setting("run").unwrap_or("")),
    }
}
