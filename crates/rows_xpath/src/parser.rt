//! The table of runs of the parser with a small grammar.

ghost use Rattle.std.specs.Prelude.{◌^◌, ◌<◌, length};

use pj_base::NoMemory;
use pj_ll::Piece::{AtEnd, Close, LeftOut, On, Production, Rule, Terminal};
use pj_ll::{End, Piece, Run, Step, Table as Grammar, parse, tested_tables_are_predictive};
use pj_rows::{Row, Section, Table};
use std::alloc::{AllocError, Global};
use std::fmt::Write;

/// n
const N: u16 = 0;

const PLUS: u16 = 1;

const OPENS: u16 = 2;

const SHUTS: u16 = 3;
/// an operator that is left out
const IS: u16 = 4;
/// an operand that is left out
const BRACKET: u16 = 5;
/// what is no terminal of the grammar
const OTHER: u16 = 9;

/// Sums of n and of sums in parentheses. Rule 0 is a sum, rule 1 what follows its first operand, rule 2 an operand.
#[rattlefmt::skip]
static SUMS: [Piece; 29] = [
    Production(0), Rule(2), Rule(1), On(N), On(OPENS), On(BRACKET),
    Production(1), Terminal(PLUS), Rule(2), Rule(1), On(PLUS),
    Production(1), LeftOut(IS), On(IS),
    Production(1), On(SHUTS), AtEnd,
    Production(2), Terminal(N), On(N),
    Production(2), Terminal(OPENS), Rule(0), Close, Terminal(SHUTS), On(OPENS),
    Production(2), LeftOut(BRACKET), On(BRACKET),
];

/// Answers terminals with how their run ends, and its productions. As many parentheses may be open as the setting `deepest` says.
pub struct Runs;

/// The terminal of a word.
fn terminal(word: &str) -> u16 {
    match word {
        "n" => N,
        "+" => PLUS,
        "(" => OPENS,
        ")" => SHUTS,
        "is" => IS,
        "[" => BRACKET,
        _ => OTHER,
    }
}

/// The terminals of words with spaces between them.
fn terminals_of(alloc: Global, given: &str) -> Result<Vec<u16>, NoMemory> {
    let mut terminals = Vec::new(alloc);
    for word in given.split(' ') {
        if !word.is_empty() {
            terminals.push(terminal(word))?;
        }
    }
    Ok(terminals)
}

/// Puts how a run ends.
fn put_end(out: &mut String, end: End) -> Result<(), AllocError> {
    match end {
        End::Whole => out.push_str("whole"),
        End::Stops(place) => write!(out, "! Stops {place}"),
        End::LeftOut(place) => write!(out, "! LeftOut {place}"),
        End::TooDeep(place) => write!(out, "! TooDeep {place}"),
    }
}

/// Puts productions, each with the place at which it begins.
fn put_steps(out: &mut String, steps: &[Step]) -> Result<(), AllocError> {
    let mut between = ", ";
    for step in steps {
        write!(out, "{between}{}@{}", step.production, step.place)?;
        between = " ";
    }
    Ok(())
}

/// The run over the terminals.
fn run(alloc: Global, terminals: &[u16], deepest: u32) -> Result<Run, NoMemory>
    requires { length terminals.now < 2 ^ 32 }
{
    tested_tables_are_predictive();
    let grammar = Grammar::new(alloc, &SUMS)?;
    parse(alloc, &grammar, terminals, deepest)
}

/// Puts the run over the terminals.
fn put_run(
    out: &mut String,
    alloc: Global,
    terminals: &[u16],
    deepest: u32,
) -> Result<(), NoMemory> {
    if terminals.len() > 1000 {
        return Ok(out.push_str("! too long")?);
    }
    let run = run(alloc, terminals, deepest)?;
    put_end(out, run.end)?;
    put_steps(out, run.steps.as_slice())?;
    Ok(())
}

impl Table for Runs {
    fn has_setting(&self, name: &str) -> bool {
        name == "deepest"
    }

    fn answer(&self, alloc: Global, section: &Section, row: &Row) -> Result<String, NoMemory> {
        let deepest = section.setting("deepest").unwrap_or("0");
        let deepest = deepest.parse().unwrap_or(0);
        let terminals = terminals_of(alloc, row.given.as_str())?;
        let mut out = String::new(alloc);
        put_run(&mut out, alloc, terminals.as_slice(), deepest)?;
        Ok(out)
    }
}
