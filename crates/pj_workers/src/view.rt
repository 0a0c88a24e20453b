//! What the analysis of a file has at hand.

use pj_attrs::Facts;
use pj_base::Text;
use pj_rule_sets::{Rule, RuleExpressions};
use pj_suppress::Lines;
use pj_tree::SyntaxTree;
use std::alloc::Global;

/// A file that has a tree, as rules see it.
#[derive(Drop)]
pub struct FileView<'t> {
    /// Where findings are put.
    pub alloc: Global,
    /// Its path.
    pub path: &'t Text,
    /// Its syntax tree.
    pub tree: &'t SyntaxTree<'t>,
    /// The attributes of its nodes, and the places of its text.
    pub facts: &'t Facts<'t>,
    /// What a comment contains that suppresses findings.
    pub marker: &'t Text,
    /// The lines that such comments mark.
    pub marked: &'t Lines,
}

/// A rule in a file that has a tree.
#[derive(Drop)]
pub struct RuleView<'t> {
    /// The file.
    pub file: &'t FileView<'t>,
    /// The rule.
    pub rule: &'t Rule,
    /// The expressions of the rule, with their patterns.
    pub kept: &'t RuleExpressions,
}
