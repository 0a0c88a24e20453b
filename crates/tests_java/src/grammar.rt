//! The grammar of Java 17.

use pj_grammar::{java_17, shapes};
use std::test::Fail;

/// The grammar is made, with 179 rules and a shape for each.
#[test]
fn is_made(rt: HostRuntime) -> Result<(), Fail> {
    let grammar = java_17(rt.alloc())?;
    assert!(rt; grammar.rule_count() == 179);
    assert!(rt; shapes().len() == 179);
    Ok(())
}
