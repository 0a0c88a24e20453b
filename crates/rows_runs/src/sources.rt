//! What items list, and what is read of that.
use crate::put::put_names;
use pj_base::{Names, NoMemory, Text};
use pj_outside::{Files, MemTree};
use pj_row_folders::{failing_call, put_file, tree_of, words_of};
use pj_rows::{Row, Section, Table, put};
use pj_sources::{
    ListRefused, Listing, ReadRefused, SourceLimit, list_sources, read_sources, test_files,
};
use std::alloc::Global;
use std::fmt::Write;

/// The table of sources.
pub struct Sources;

/// Puts a file whose text is its path, or what stands behind a `=`.
fn put_source(alloc: Global, files: &mut Files, written: &str) -> Result<(), NoMemory> {
    let (path, text) = written.split_once('=').unwrap_or((written, written));
    put_file(alloc, files, path, text)
}

/// Files that stand between blanks.
fn files_of(alloc: Global, written: &str) -> Result<Files, NoMemory> {
    let mut files = Files::new(alloc);
    for file in words_of(alloc, written)?.as_slice() {
        put_source(alloc, &mut files, file.as_str())?;
    }
    Ok(files)
}

/// A tree of files, of which the call of a number fails.
fn tree(alloc: Global, written: &str, call: Option<u32>) -> Result<MemTree, NoMemory> {
    let files = files_of(alloc, written)?;
    tree_of(alloc, files, call)
}

/// Puts the sources that were listed, and how many were skipped.
fn put_listing(out: &mut String, listing: &Listing) -> Result<(), NoMemory> {
    put(out, &["lists"])?;
    put_names(out, &listing.paths)?;
    let skipped = listing.skipped;
    write!(out, ", skips {skipped}")?;
    Ok(())
}

/// Puts what items list.
fn put_listed(
    out: &mut String,
    alloc: Global,
    tree: &mut MemTree,
    items: &Names,
) -> Result<(), NoMemory> {
    match list_sources(alloc, tree, items) {
        Ok(listing) => put_listing(out, &listing),
        Err(ListRefused::Failed) => put(out, &["! failed"]),
        Err(ListRefused::Missing(item)) => put(out, &["! missing ", item.as_str()]),
        Err(ListRefused::Memory) => put(out, &["! memory"]),
    }
}

/// Puts each path with the number of its bytes.
fn put_sizes(out: &mut String, files: &Files) -> Result<(), NoMemory> {
    put(out, &["reads"])?;
    for (path, bytes) in files.as_slice() {
        let size = bytes.len();
        write!(out, " {path} {size}")?;
    }
    Ok(())
}

/// Puts of what there is too much.
fn put_limit(out: &mut String, kind: &SourceLimit) -> Result<(), NoMemory> {
    match kind {
        SourceLimit::FileBytes(path) => put(out, &["! bytes of ", path.as_str()]),
        SourceLimit::Files => put(out, &["! files"]),
        _ => put(out, &["! another limit"]),
    }
}

/// Puts what is read of these paths.
fn put_read(
    out: &mut String,
    alloc: Global,
    tree: &mut MemTree,
    paths: &Names,
) -> Result<(), NoMemory> {
    match read_sources(alloc, tree, paths) {
        Ok(files) => put_sizes(out, &files),
        Err(ReadRefused::Failed) => put(out, &["! failed"]),
        Err(ReadRefused::Missing(path)) => put(out, &["! missing ", path.as_str()]),
        Err(ReadRefused::Limit(kind)) => put_limit(out, &kind),
        Err(ReadRefused::Memory) => put(out, &["! memory"]),
    }
}

/// Puts whether there may be so many files.
fn put_tested(out: &mut String, alloc: Global, count: u32) -> Result<(), NoMemory> {
    let mut paths = Names::new(alloc);
    for _path in 0..count {
        paths.push(Text::new(alloc))?;
    }
    match test_files(&paths) {
        Ok(()) => put(out, &["passes"]),
        Err(kind) => put_limit(out, &kind),
    }
}

/// Puts what is listed by items and then read of paths, where the call of a number fails.
fn put_both(
    out: &mut String,
    alloc: Global,
    section: &Section,
    call: Option<u32>,
) -> Result<(), NoMemory> {
    let written = section.setting("files").unwrap_or("");
    let items = words_of(alloc, section.setting("items").unwrap_or(""))?;
    let paths = words_of(alloc, written)?;
    let mut tree = tree(alloc, written, call)?;
    put_listed(out, alloc, &mut tree, &items)?;
    put(out, &["; "])?;
    put_read(out, alloc, &mut tree, &paths)
}

/// Puts what a section asks of a row.
fn put_asked(
    out: &mut String,
    alloc: Global,
    section: &Section,
    given: &str,
) -> Result<(), NoMemory> {
    let (written, words) = given.split_once(" in ").unwrap_or(("", given));
    match section.setting("asks") {
        Some("count") => put_tested(out, alloc, given.parse::<u32>().unwrap_or(0)),
        Some("calls") => put_both(out, alloc, section, failing_call(given)),
        Some("reading") => {
            let paths = words_of(alloc, written)?;
            put_read(out, alloc, &mut tree(alloc, words, None)?, &paths)
        }
        _ => {
            let items = words_of(alloc, written)?;
            put_listed(out, alloc, &mut tree(alloc, words, None)?, &items)
        }
    }
}

impl Table for Sources {
    fn has_setting(&self, name: &str) -> bool {
        matches!(name, "asks" | "files" | "items")
    }

    fn answer(&self, alloc: Global, section: &Section, row: &Row) -> Result<String, NoMemory> {
        let mut out = String::new(alloc);
        put_asked(&mut out, alloc, section, row.given.as_str())?;
        Ok(out)
    }
}
