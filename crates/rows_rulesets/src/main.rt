//! The rows of rulesets: what is given in the files of `data/`, each with what is wanted of it.
#![tactic(auto)]

mod brackets;
mod elements;
mod expressions;
mod lists;
mod markup;
mod pieces;
mod rule_files;
mod rule_texts;
mod takings;

use expressions::RuleExpressionsTable;
use lists::RuleListsTable;
use markup::MarkupTable;
use pj_rows::Run;
use rule_files::RuleFilesTable;
use rule_texts::RuleTextsTable;
use std::process::ExitCode;

fn main(rt: HostRuntime) -> ExitCode {
    let mut run = Run::new(rt);
    run.table("markup.rows", &MarkupTable);
    run.table("rule_expressions.rows", &RuleExpressionsTable);
    run.table("rule_files.rows", &RuleFilesTable);
    run.table("rule_lists.rows", &RuleListsTable);
    run.table("rule_texts.rows", &RuleTextsTable);
    run.end()
}
