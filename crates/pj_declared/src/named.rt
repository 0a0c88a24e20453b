//! Names with their scopes.

ghost use Rattle.std.specs.Prelude.{◌≡◌, ◌<◌, length};
ghost use Rattle.std.specs.Option.{option_copied};
ghost use Rattle.pj_declared.specs.Rows.{name_first, name_last};

use crate::scope::Scope;
use pj_base::Text;
use pj_tree::{Node, SyntaxTree};

/// A name with a scope in which it has a meaning. They are in the order of the names, and those of a name in that of the scopes.
#[derive(Debug, PartialEq, Eq, PartialOrd, Ord, Drop)]
pub struct Named {
    pub name: Text,
    pub scope: Scope,
}

/// The name of a variable or of a type parameter: the first word of the node.
pub fn name_first<'t>(tree: &'t SyntaxTree<'_>, n: Node) -> Option<&'t str>
    requires inside { n.0 < length tree.now.nodes }
    ensures { option_copied result ≡ name_first tree.now n }
{
    let mut words = tree.own(n);
    words.next()
}

/// The name of a class: the last word of its declaration, of which that of an anonymous class has none.
pub fn name_last<'t>(tree: &'t SyntaxTree<'_>, n: Node) -> Option<&'t str>
    requires inside { n.0 < length tree.now.nodes }
    ensures { option_copied result ≡ name_last tree.now n }
{
    let mut last = None;
    for word in tree.own(n) {
        last = Some(word);
    }
    last
}
