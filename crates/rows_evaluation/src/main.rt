//! The rows of the evaluation of XPath: values, axes, calls of functions, and expressions over a small tree.
#![tactic(auto)]

mod arguments;
mod axes;
mod evaluation;
mod facts;
mod functions;
mod given;
mod items;
mod replies;
mod tree;
mod values;

use axes::Axes;
use evaluation::Evaluation;
use functions::Functions;
use pj_rows::Run;
use std::process::ExitCode;
use std::rt::Files;
use values::Values;

/// The files of expressions over the tree.
const EXPRESSIONS: [&str; 7] = [
    "expressions.rows",
    "operators.rows",
    "paths.rows",
    "positions.rows",
    "calls.rows",
    "errors.rows",
    "lengths.rows",
];

/// Runs a table over the files of expressions.
fn run_expressions<R: Files + Print + AllocGlobal + Clone + Drop>(
    run: &mut Run<R>,
    evaluation: &Evaluation,
) {
    for file in &EXPRESSIONS {
        run.table(file, evaluation);
    }
}

fn main(rt: HostRuntime) -> ExitCode {
    let alloc = rt.alloc();
    let mut run = Run::new(rt);
    run.table("values.rows", &Values);
    if let Ok(axes) = Axes::new(alloc) {
        run.table("axes.rows", &axes);
    }
    if let Ok(functions) = Functions::new(alloc) {
        run.table("functions.rows", &functions);
    }
    if let Ok(evaluation) = Evaluation::new(alloc) {
        run_expressions(&mut run, &evaluation);
    }
    run.end()
}
