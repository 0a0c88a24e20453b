//! Loads of the folders of rows.
use crate::active::{active_shown, covers_shown};
use crate::kept::kept_shown;
use crate::loaded::loaded;
use crate::refusal::refusal;
use crate::shown::set_shown;
use pj_base::NoMemory;
use pj_outside::{Files, MemTree};
use pj_row_folders::{Short, failing_call, folder_of, split_command, tree_of};
use pj_rows::{Row, Section, Table};
use pj_rule_sets::RuleSet;
use std::alloc::Global;

/// The tables of loads.
pub struct Loading;

/// What signs in the texts of rulesets stand for: the class of XPath rules, and properties with a query.
pub static SHORTS: [Short; 2] = [
    (
        "~",
        " class=\"net.sourceforge.pmd.lang.rule.xpath.XPathRule\"",
    ),
    (
        "#",
        "<properties><property name=\"xpath\" value=\"//A\"/></properties>",
    ),
];

/// What a section asks of a set, and of a path.
fn of_set(alloc: Global, asks: &str, set: &RuleSet, path: &str) -> Result<String, NoMemory> {
    match asks {
        "active" => active_shown(alloc, set, path),
        "covers" => covers_shown(alloc, set),
        "kept" => kept_shown(alloc, set),
        _ => set_shown(alloc, set),
    }
}

/// What a section asks of a load over a tree.
fn of_tree(
    alloc: Global,
    asks: &str,
    tree: &mut MemTree,
    paths: &str,
    path: &str,
) -> Result<String, NoMemory> {
    match loaded(alloc, tree, paths) {
        Ok(set) => of_set(alloc, asks, &set, path),
        Err(refused) => refusal(alloc, &refused),
    }
}

/// The files of a row: those of its section and its own; where the section has a frame, a file `r.xml` of what is given, in that.
fn files_of(alloc: Global, section: &Section, given: &str) -> Result<Files, NoMemory> {
    if !section.has("frame") {
        return folder_of(alloc, &SHORTS, section, given);
    }
    let mut written = String::from_str(alloc, "//- r.xml ")?;
    written.push_str(section.framed(alloc, given)?.as_str())?;
    folder_of(alloc, &SHORTS, section, written.as_str())
}

/// What is given of the files, and the path for which a rule may be active.
fn split_path<'r>(asks: &str, given: &'r str) -> (&'r str, &'r str) {
    if asks == "active" {
        given.rsplit_once(" at ").unwrap_or((given, ""))
    } else {
        (given, "")
    }
}

impl Table for Loading {
    fn has_setting(&self, name: &str) -> bool {
        matches!(name, "asks" | "file" | "frame" | "run")
    }

    fn answer(&self, alloc: Global, section: &Section, row: &Row) -> Result<String, NoMemory> {
        let asks = section.setting("asks").unwrap_or("");
        let (given, command) = split_command(section, row.given.as_str());
        let (given, path) = split_path(asks, given);
        let Some(paths) = command.strip_prefix("load ") else {
            return Ok(String::from_str(alloc, "! the command is no load")?);
        };
        let files = files_of(alloc, section, given)?;
        let mut tree = tree_of(alloc, files, failing_call(given))?;
        of_tree(alloc, asks, &mut tree, paths, path)
    }
}
