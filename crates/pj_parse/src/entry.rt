//! What is kept of one node.

ghost use Rattle.std.specs.Prelude.{◌≡◌, ◌<◌, length, IfOk};
ghost use Rattle.pj_parse.specs.Names.{first_value, dotted_qualifier, texts_of};
ghost use Rattle.pj_parse.specs.PoolText.{pool_text};

use crate::content::{Content, content_of};
use crate::names::{dotted, identifiers};
use pj_base::{NoMemory, Text};
use pj_literals::string_value;
use pj_tree::{Node, OwnTokens, SyntaxTree};
use std::alloc::Global;

/// A node, and the text that is kept of it.
#[derive(Debug, Drop)]
pub struct Entry {
    pub node: Node,
    pub text: Text,
}

/// The value of the literal that the first of the words is.
fn first_value(alloc: Global, words: OwnTokens<'_>) -> Result<Option<Text>, NoMemory>
    ensures { IfOk result (λ found. found ≡ first_value words.entry) }
{
    let mut words = words;
    match words.next() {
        Some(literal) => Ok(Some(string_value(alloc, literal)?)),
        None => Ok(None),
    }
}

/// What stands before the last of the names, with dots between, if anything does.
fn dotted_qualifier(alloc: Global, names: &[&str]) -> Result<Option<Text>, NoMemory>
    ensures { IfOk result (λ found. found ≡ dotted_qualifier (texts_of names.now)) }
{
    let front = &names[..names.len().saturating_sub(1)];
    if front.is_empty() {
        return Ok(None);
    }
    Ok(Some(dotted(alloc, front)?))
}

/// The text that is kept of the node, if one is.
pub fn kept_text(alloc: Global, tree: &SyntaxTree<'_>, n: Node) -> Result<Option<Text>, NoMemory>
    requires inside { n.0 < length tree.now.nodes }
    ensures { IfOk result (λ found. found ≡ pool_text tree.now n) }
{
    match content_of(tree.kind(n)) {
        Content::Value => first_value(alloc, tree.own(n)),
        Content::Name => {
            let names = identifiers(alloc, tree.own(n))?;
            Ok(Some(dotted(alloc, names.as_slice())?))
        }
        Content::Qualifier => {
            let names = identifiers(alloc, tree.own(n))?;
            dotted_qualifier(alloc, names.as_slice())
        }
        Content::Nothing => Ok(None),
    }
}
