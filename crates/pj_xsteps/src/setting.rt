//! What is around all expressions of an evaluation.
ghost use Rattle.std.specs.Prelude.{◌≡◌, length};

use pj_tree::SyntaxTree;
use pj_xfuncs::Patterns;
use pj_xvalue::Attributes;
use std::alloc::Global;

/// The tree, the attributes of its nodes and the patterns that the functions know, which no evaluation changes.
#[derive(Drop)]
pub struct Setting<'t, A: Attributes> {
    pub alloc: Global,
    pub tree: &'t SyntaxTree<'t>,
    pub facts: &'t A,
    pub patterns: &'t Patterns,
    ghost of_tree: { A.nodes facts.now ≡ length tree.now.nodes },
}
