//! The words of a check with the settings that they ask for, or with what is wrong with them.
use crate::outcome::put_usage;
use pj_base::{Names, NoMemory, Text};
use pj_row_folders::words_of;
use pj_rows::{Row, Section, Table, put};
use pj_settings::{Format, Settings, UsageRefused, read};
use std::alloc::Global;
use std::fmt::Write;

/// The table of settings.
pub struct SettingsTable;

/// Puts each item in brackets, and a blank.
fn put_items(out: &mut String, items: &Names) -> Result<(), NoMemory> {
    for item in items.as_slice() {
        put(out, &["[", item.as_str(), "]"])?;
    }
    put(out, &[" "])
}

/// The word of a format.
fn format_word(format: Format) -> &'static str {
    match format {
        Format::Text => "text",
        Format::Csv => "csv",
        Format::Json => "json",
    }
}

/// Puts each class folder behind a blank.
fn put_classes(out: &mut String, classes: &Names) -> Result<(), NoMemory> {
    for folder in classes.as_slice() {
        put(out, &[" [", folder.as_str(), "]"])?;
    }
    Ok(())
}

/// Puts the name of the cache, if there is one.
fn put_cache(out: &mut String, cache: Option<&Text>) -> Result<(), NoMemory> {
    match cache {
        None => Ok(()),
        Some(name) => put(out, &[" cache [", name.as_str(), "]"]),
    }
}

/// Puts the sources, the rulesets, the format, the number of workers, the least priority, the marker, the class folders and the cache.
fn put_settings(out: &mut String, settings: &Settings) -> Result<(), NoMemory> {
    put_items(out, &settings.dirs)?;
    put_items(out, &settings.rulesets)?;
    let (threads, minimum) = (settings.threads, settings.minimum);
    put(out, &[format_word(settings.format)])?;
    write!(out, " {threads} {minimum} ")?;
    put(out, &["[", settings.marker.as_str(), "]"])?;
    put_classes(out, &settings.classes)?;
    put_cache(out, settings.cache.as_ref())
}

/// Puts what words ask for, or what is wrong with them.
fn put_read(out: &mut String, answer: &Result<Settings, UsageRefused>) -> Result<(), NoMemory> {
    match answer {
        Ok(settings) => put_settings(out, settings),
        Err(UsageRefused::Fault(fault)) => {
            put(out, &["! "])?;
            put_usage(out, fault)
        }
        Err(UsageRefused::Memory) => put(out, &["! memory"]),
    }
}

impl Table for SettingsTable {
    fn answer(&self, alloc: Global, _section: &Section, row: &Row) -> Result<String, NoMemory> {
        let mut out = String::new(alloc);
        match row.given.as_str().strip_prefix("pmd") {
            None => put(&mut out, &["! the line has no `pmd` at its front"])?,
            Some(line) => {
                let words = words_of(alloc, line)?;
                put_read(&mut out, &read(alloc, &words))?;
            }
        }
        Ok(out)
    }
}
