//! The rows of what is known of the nodes of Java texts: their attributes, modifiers and declarations, and what suppresses
//! findings.
#![tactic(auto)]

mod attributes;
mod comments;
mod declarations;
mod files;
mod modifiers;
mod nodes;
mod put;
mod suppression;

use attributes::AttributesOfNodes;
use comments::Comments;
use declarations::Declarations;
use modifiers::ModifiersOfNodes;
use pj_rows::Run;
use std::process::ExitCode;
use suppression::Suppression;

fn main(rt: HostRuntime) -> ExitCode {
    let mut run = Run::new(rt);
    run.table("classes.rows", &AttributesOfNodes);
    run.table("members.rows", &AttributesOfNodes);
    run.table("variables.rows", &AttributesOfNodes);
    run.table("types.rows", &AttributesOfNodes);
    run.table("statements.rows", &AttributesOfNodes);
    run.table("expressions.rows", &AttributesOfNodes);
    run.table("parentheses.rows", &AttributesOfNodes);
    run.table("literals.rows", &AttributesOfNodes);
    run.table("modifiers.rows", &ModifiersOfNodes);
    run.table("declarations.rows", &Declarations);
    run.table("annotations.rows", &Suppression);
    run.table("positions.rows", &Suppression);
    run.table("comments.rows", &Comments);
    run.end()
}
