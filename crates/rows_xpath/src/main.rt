//! The rows of the syntax of XPath: tokens, runs of the parser, what derivations say, expressions with their first faults, and messages.
#![tactic(auto)]

mod given;
mod meanings;
mod messages;
mod parser;
mod printed;
mod syntax;
mod tokens;

use meanings::Meanings;
use messages::Messages;
use parser::Runs;
use pj_base::NoMemory;
use pj_rows::Run;
use std::process::ExitCode;
use std::rt::Files;
use syntax::Syntax;
use tokens::TokenLists;

/// Runs the tables over their files.
fn run_all<R: Files + Print + AllocGlobal + Clone + Drop>(
    run: &mut Run<R>,
    meanings: &Meanings,
    syntax: &Syntax,
) {
    run.table("tokens.rows", &TokenLists);
    run.table("parser.rows", &Runs);
    run.table("meanings.rows", meanings);
    run.table("syntax.rows", syntax);
    run.table("messages.rows", &Messages);
}

fn main(rt: HostRuntime) -> ExitCode {
    let alloc = rt.alloc();
    let mut run = Run::new(rt);
    if let (Ok(meanings), Ok(syntax)) = (Meanings::new(alloc), Syntax::new(alloc)) {
        run_all(&mut run, &meanings, &syntax);
    }
    run.end()
}
