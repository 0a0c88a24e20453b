//! The rows of Java text: tokens, literals, texts of files, grammars and trees.
#![tactic(auto)]

mod grammars;
mod literals;
mod nested;
mod pieces;
mod source;
mod terminals;
mod texts;
mod tokens;
mod trees;

use grammars::Grammars;
use literals::{Integers, Strings};
use pj_rows::Run;
use std::process::ExitCode;
use terminals::Terminals;
use texts::Texts;
use tokens::Tokens;
use trees::Trees;

fn main(rt: HostRuntime) -> ExitCode {
    let mut run = Run::new(rt);
    run.table("tokens.rows", &Tokens);
    run.table("terminals.rows", &Terminals);
    run.table("integers.rows", &Integers);
    run.table("strings.rows", &Strings);
    run.table("texts.rows", &Texts);
    run.table("grammars.rows", &Grammars);
    run.table("trees.rows", &Trees);
    run.end()
}
