//! The variables that are declared in a file.

ghost use Rattle.std.specs.Prelude.{◌≡◌, ◌||◌, ◌∷◌, [], List, ℕ, IfOk, OnOk};
ghost use Rattle.pj_shape.specs.NameLists.{has_word, has_place};
ghost use Rattle.pj_shape.specs.Marks.{variables_in};
ghost use Rattle.pj_shape.specs.Words.{AreTokens};

use crate::kinds::is_variable;
use crate::made::{Made, node_at};
use crate::words::word;
use pj_base::NoMemory;
use pj_tree::Span;
use std::alloc::Global;
use std::collections::BTreeSet;

/// The names of variables.
pub type Variables<'s> = BTreeSet<&'s str>;

/// Adds the name of a node, if it is one of a variable that is declared.
fn add_variable<'s>(
    names: &mut Variables<'s>,
    text: &'s str,
    tokens: &[Span],
    node: Made,
) -> Result<(), NoMemory>
    requires tokens { AreTokens text.now tokens.now }
    ensures value { OnOk result ((name : List ℕ) → has_word name names.new.keys ≡ (has_place text.now tokens.now name (variables_in (node ∷ [])) || has_word name names.old.keys)) }
{
    if !is_variable(node.kind) {
        return Ok(());
    }
    names.insert(word(text, tokens, node.from))?;
    Ok(())
}

/// The names of the variables that are declared among nodes.
pub fn declared_variables<'s>(
    alloc: Global,
    text: &'s str,
    tokens: &[Span],
    nodes: &[Made],
) -> Result<Variables<'s>, NoMemory>
    requires tokens { AreTokens text.now tokens.now }
    ensures value { IfOk result (λ names. (name : List ℕ) → has_word name names.keys ≡ has_place text.now tokens.now name (variables_in nodes.now)) }
{
    let mut names = BTreeSet::new(alloc);
    let mut number = 0;
    while number < nodes.len() {
        add_variable(&mut names, text, tokens, node_at(nodes, number))?;
        number += 1;
    }
    Ok(names)
}

/// Whether a name is among those of the variables.
pub fn is_declared_name<'s>(names: &Variables<'s>, name: &'s str) -> bool
    ensures value { result ≡ has_word name.now names.now.keys }
{
    names.contains(&name)
}
