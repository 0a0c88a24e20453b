//! Loads of folders.
use pj_base::Text;
use pj_outside::MemTree;
use pj_row_folders::words_of;
use pj_rule_sets::RuleSet;
use pj_rules::{RuleRefused, load};
use std::alloc::Global;

/// The paths of a load, and the priority down to which rules are kept, which is 5 where it is left out: `r.xml s.xml at 4`.
fn paths_and_minimum(given: &str) -> (&str, u8) {
    match given.rsplit_once(" at ") {
        Some((paths, minimum)) => (paths, minimum.parse::<u8>().unwrap_or(0)),
        None => (given, 5),
    }
}

/// What a load of paths answers.
pub fn loaded(alloc: Global, tree: &mut MemTree, given: &str) -> Result<RuleSet, RuleRefused> {
    let (paths, minimum) = paths_and_minimum(given);
    let names = words_of(alloc, paths)?;
    let marker = Text::from_str(alloc, "NOPMD")?;
    load(alloc, tree, &names, minimum, &marker)
}
