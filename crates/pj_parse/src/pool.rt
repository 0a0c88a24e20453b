//! The pool of a tree.

ghost use Rattle.std.specs.Prelude.{◌≡◌, ◌++◌, IfOk, OnOk};
ghost use Rattle.std.specs.Option.{option_copied};
ghost use Rattle.pj_parse.specs.PoolText.{entry_of, text_in, pool_of, IsPoolOf};

use crate::entry::{Entry, kept_text};
use pj_base::{NoMemory, Text};
use pj_tree::{Node, SyntaxTree};
use std::alloc::Global;
use std::marker::Model;

/// The texts of the nodes of a tree that are no stretches of its text, which contracts see as the list of its
/// entries. Its memory is in proportion to the texts that it keeps.
#[derive(Debug, Drop)]
pub struct Pool {
    /// In the order of their nodes, each node once.
    entries: Vec<Entry>,
}

impl Model for Pool {
    ghost use Rattle.std.specs.Prelude.{List};
    ghost use Rattle.pj_parse.specs.declared.entry.Entry.{Entry};
    ghost use Rattle.pj_parse.specs.Entries.{IsRisingFrom};

    ghost Value = { List Entry };

    ghost view = { λ pool. pool.entries.items };

    ghost invariant = { λ pool. IsRisingFrom 0 pool.entries.items };
}

/// Puts the text of a node at the end, if it has one.
fn put_text(entries: &mut Vec<Entry>, node: Node, text: Option<Text>) -> Result<(), NoMemory>
    ensures { OnOk result (entries.new.items ≡ entries.old.items ++ entry_of node.0 text) }
{
    if let Some(text) = text {
        entries.push(Entry { node, text })?;
    }
    Ok(())
}

impl Pool {
    /// The pool of a tree. It takes the tokens of each node once.
    pub fn of(alloc: Global, tree: &SyntaxTree<'_>) -> Result<Pool, NoMemory>
        ensures value { IfOk result (λ pool. pool ≡ pool_of tree.now) }
        ensures texts { IfOk result (IsPoolOf tree.now) }
    {
        let mut entries = Vec::new(alloc);
        for n in 0..tree.len() {
            let text = kept_text(alloc, tree, Node(n))?;
            put_text(&mut entries, Node(n), text)?;
        }
        Ok(Pool { entries })
    }

    /// The text that is kept of a node, and `None` where none is: by a bisection over the nodes that have one. It takes
    /// no memory.
    pub fn text(&self, n: Node) -> Option<&str>
        ensures { option_copied result ≡ text_in self.now n }
    {
        let entries = self.entries.as_slice();
        let place = entries.partition_point(|entry| entry.node.0 < n.0);
        let entry = entries.get(place)?;
        if entry.node.0 == n.0 {
            Some(entry.text.as_str())
        } else {
            None
        }
    }
}
