//! The program `pmd_show`: what an author of rules looks at, the syntax tree of a Java file and the rules of rulesets.
//!
//! It ends with 0 where it has shown all, with 2 where its words are invalid, and else with 1 and a line on standard error that says why.
#![tactic(auto)]

mod command;
mod expression;
mod fault;
mod line;
mod refusal;
mod rules;
#[cfg(test)]
mod tests;
mod tree;

use command::{Command, command_of};
use fault::Fault;
use pj_real::RealTree;
use std::env::Env;
use std::io::{BufWriter, Write};
use std::process::ExitCode;
use std::rt::Files;
use std::{env, io};

/// The words behind the program's name.
fn read_words(rt: &(impl Env + AllocGlobal)) -> Result<Vec<String>, Fault> {
    let mut words = Vec::new(rt.alloc());
    for word in env::args(rt)?.skip(1) {
        words.push(word)?;
    }
    Ok(words)
}

/// Shows what the command asks for.
fn show<R: Files + AllocGlobal + Clone + Drop, W: Write>(
    rt: R,
    out: &mut W,
    command: &Command<'_>,
) -> Result<(), Fault> {
    let alloc = rt.alloc();
    let mut files = RealTree::new(rt);
    match command {
        Command::Tree {
            path,
            with_attributes,
        } => tree::show_file(alloc, &mut files, out, path, *with_attributes),
        Command::Rules(paths) => rules::show_rules(alloc, &mut files, out, paths),
    }
}

/// Does what the words ask for.
fn run<R: Files + Env + AllocGlobal + Clone + Drop, W: Write + Drop>(
    rt: R,
    out: W,
) -> Result<(), Fault> {
    let words = read_words(&rt)?;
    let command = match command_of(rt.alloc(), words.as_slice())? {
        Some(command) => command,
        None => return Err(Fault::Usage),
    };
    let mut out = BufWriter::new(rt.alloc(), out)?;
    show(rt, &mut out, &command)?;
    out.flush()?;
    Ok(())
}

/// Says why not all was shown, and gives the status that the program ends with.
fn end<E: Write>(notes: &mut E, fault: &Fault) -> u8 {
    match fault {
        Fault::Usage => {
            let _ = write!(notes, "{fault}\n");
            2
        }
        fault => {
            let _ = write!(notes, "pmd: {fault}\n");
            1
        }
    }
}

fn main(rt: HostRuntime) -> ExitCode {
    let mut notes = rt.stderr();
    match run(rt, io::writer(&rt)) {
        Ok(()) => ExitCode::from(0),
        Err(fault) => ExitCode::from(end(&mut notes, &fault)),
    }
}
