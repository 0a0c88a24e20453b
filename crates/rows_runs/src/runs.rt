//! Whole runs.
use crate::calls::Failing;
use crate::outcome::put_outcome;
use crate::put::{put_lines, put_names, text_in};
use crate::ran::{Ran, run};
use pj_base::NoMemory;
use pj_outside::MemSink;
use pj_row_folders::{Short, folder_of, split_command, words_of};
use pj_rows::{Row, Section, Table, put};
use pj_workers::Work;
use std::alloc::Global;
use std::fmt::Write;

/// The tables of whole runs.
pub struct Runs;

/// What signs in the texts of rulesets stand for: what stands around the query of a ruleset of one rule `N`, what makes a rule one in
/// XPath over Java, and properties with a query.
pub static SHORTS: [Short; 4] = [
    (
        "{",
        "<?xml version=\"1.0\"?><ruleset name=\"own\"><rule name=\"N\" language=\"java\" message=\"m\" class=\"net.sourceforge.pmd.lang.rule.xpath.XPathRule\"><priority>3</priority><properties><property name=\"xpath\"><value><![CDATA[",
    ),
    ("}", "]]></value></property></properties></rule></ruleset>"),
    (
        "~",
        " language=\"java\" class=\"net.sourceforge.pmd.lang.rule.xpath.XPathRule\"",
    ),
    (
        "#",
        "<properties><property name=\"xpath\" value=\"//ClassDeclaration\"/></properties>",
    ),
];

/// Puts what a sink got below what there is, with a word before it; nothing where it got nothing.
fn put_sink(out: &mut String, word: &str, sink: &MemSink) -> Result<(), NoMemory> {
    let text = text_in(sink);
    if text.is_empty() {
        return Ok(());
    }
    put(out, &["\n", word])?;
    put_lines(out, text)
}

/// Puts which files were analysed, of which the result was used again, and how many were skipped.
fn put_work(out: &mut String, work: &Work) -> Result<(), NoMemory> {
    put(out, &["analysed"])?;
    put_names(out, &work.analysed)?;
    put(out, &["; reused"])?;
    put_names(out, &work.reused)?;
    let skipped = work.skipped;
    write!(out, "; skipped {skipped}")?;
    Ok(())
}

/// Puts the outcome with the exit status, and how many doors to the class folders were given and taken back, with their finds.
fn put_doors(out: &mut String, ran: &Ran) -> Result<(), NoMemory> {
    put_outcome(out, &ran.outcome)?;
    let (given, taken, finds) = (
        ran.classes.given(),
        ran.classes.taken(),
        ran.classes.finds(),
    );
    write!(out, "; doors given {given}, taken {taken}, finds {finds}")?;
    Ok(())
}

/// Puts the outcome with the exit status, below it the notes, and below these the report.
pub fn put_ran(out: &mut String, ran: &Ran) -> Result<(), NoMemory> {
    put_outcome(out, &ran.outcome)?;
    put_sink(out, "note: ", &ran.notes)?;
    put_sink(out, "", &ran.report)
}

/// What a section asks of a run, and below it that the keeper has not what it had, where that is so.
fn told(alloc: Global, section: &Section, ran: &Ran, is_kept: bool) -> Result<String, NoMemory> {
    let mut out = String::new(alloc);
    match section.setting("asks") {
        Some("work") => put_work(&mut out, &ran.work)?,
        Some("doors") => put_doors(&mut out, ran)?,
        _ => put_ran(&mut out, ran)?,
    }
    if !is_kept {
        put(&mut out, &["\nkeeper changed"])?;
    }
    Ok(out)
}

/// Which calls fail in a row: those that it gives, or those of its section.
fn failing_of(section: &Section, given: &str) -> Failing {
    match section.setting("asks") {
        Some("calls") => Failing::of(given),
        _ => Failing::of(section.setting("fails").unwrap_or("")),
    }
}

/// What a section asks of the run of a command, behind `pmd`.
fn answer_command(
    alloc: Global,
    section: &Section,
    given: &str,
    command: &str,
) -> Result<String, NoMemory> {
    let files = folder_of(alloc, &SHORTS, section, given)?;
    let words = words_of(alloc, command)?;
    let (ran, is_kept) = run(alloc, files, &words, failing_of(section, given))?;
    told(alloc, section, &ran, is_kept)
}

impl Table for Runs {
    fn has_setting(&self, name: &str) -> bool {
        matches!(name, "file" | "run" | "asks" | "fails")
    }

    fn answer(&self, alloc: Global, section: &Section, row: &Row) -> Result<String, NoMemory> {
        let (given, command) = split_command(section, row.given.as_str());
        match command.strip_prefix("pmd") {
            Some(words) => answer_command(alloc, section, given, words),
            None => Ok(String::from_str(alloc, "! the command has no `pmd` at its front")?),
        }
    }
}
