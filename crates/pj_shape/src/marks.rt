//! Names of classes among nodes.

ghost use Rattle.std.specs.Prelude.{◌≡◌, ◌-◌, ◌==◌, ◌&&◌, IfOk, nat_lt, not, if◌then◌else◌};
ghost use Rattle.pj_shape.specs.Flat.{flat};
ghost use Rattle.pj_shape.specs.Marks.{is_class_of, marks, name_after, name_by};
ghost use Rattle.pj_shape.specs.Shaped.{Nodes};
ghost use Rattle.pj_shape.specs.Typed.{words_of};
ghost use Rattle.pj_shape.specs.Words.{AreTokens, is_capital};
ghost use Rattle.pj_shape.specs.declared.marks.Name.TheVariants.{Other};

use crate::declared::{declared_variables, is_declared_name};
use crate::kinds::{is_field, is_name};
use crate::made::{Made, node_at};
use crate::words::{is_capital_word, word};
use pj_base::NoMemory;
use pj_tree::{Kind, Span};
use std::alloc::Global;

/// What a node is among names.
#[derive(Clone, Copy, Debug, PartialEq, Eq)]
pub enum Name {
    /// It is not made of names, or a name before the last one begins with a capital letter.
    Other,
    /// It is made of names none of which begins with a capital letter.
    Plain,
    /// It is made of names of which the last one alone begins with a capital letter.
    Class,
}

/// What one more name makes of the names before it.
fn one_more(capital: bool, before: Name) -> Name
    ensures { result ≡ name_after capital before }
{
    match before {
        Name::Plain if capital => Name::Class,
        Name::Plain => Name::Plain,
        Name::Other | Name::Class => Name::Other,
    }
}

/// What a node of the kind is, by what its first child is.
fn name_of(kind: Kind, capital: bool, below: Name) -> Name
    ensures { result ≡ name_by kind capital below }
{
    if is_name(kind) {
        one_more(capital, Name::Plain)
    } else if is_field(kind) {
        one_more(capital, below)
    } else {
        Name::Other
    }
}

/// Whether a node is the name of a class, by whether a variable has its first name.
fn is_class(name: Name, declared: bool) -> bool
    ensures { result ≡ (is_class_of name && not declared) }
{
    name == Name::Class && !declared
}

/// What a node's first child is, by what the node behind it is, and where that begins.
fn name_below(node: Made, behind: Name, from: u32) -> Name
    ensures { result ≡ (if nat_lt 1 node.size && from == node.from then behind else Other) }
{
    if node.size > 1 && from == node.from {
        behind
    } else {
        Name::Other
    }
}

/// What a node is, by what its first child is.
fn name_at(text: &str, tokens: &[Span], node: Made, below: Name) -> Name
    requires tokens { AreTokens text.now tokens.now }
    ensures { result ≡ name_by node.kind (is_capital text.now tokens.now (node.to - 1)) below }
{
    let last = node.to.saturating_sub(1);
    name_of(node.kind, is_capital_word(text, tokens, last), below)
}

/// For each node whether it is made of names of which the last is the first one to begin with a capital letter, and no
/// variable that is declared among the nodes has the name of the first. They are found from the last node to the first.
pub fn class_marks(
    alloc: Global,
    text: &str,
    tokens: &[Span],
    nodes: &[Made],
) -> Result<Vec<bool>, NoMemory>
    requires tokens { AreTokens text.now tokens.now }
    ensures value { IfOk result (λ found. (ns : Nodes) → nodes.now ≡ flat ns → found.items ≡ marks (words_of text.now tokens.now ns) ns) }
{
    let variables = declared_variables(alloc, text, tokens, nodes)?;
    let mut found = Vec::new(alloc);
    let mut left = nodes.len();
    let mut name = Name::Other;
    let mut from = 0;
    while left > 0 {
        left -= 1;
        let node = node_at(nodes, left);
        name = name_at(text, tokens, node, name_below(node, name, from));
        from = node.from;
        let declared = is_declared_name(&variables, word(text, tokens, from));
        found.push(is_class(name, declared))?;
    }
    found.reverse();
    Ok(found)
}
