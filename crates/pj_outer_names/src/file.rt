//! A file with its tables.

ghost use Rattle.std.specs.Prelude.{◌≡◌, ◌<◌, length, IfOk, IfSome};
ghost use Rattle.std.specs.List.{All};
ghost use Rattle.std.specs.Option.{option_copied};
ghost use Rattle.pj_symbols.specs.Symbols.{FindsClasses, symbols_of};
ghost use Rattle.pj_written.specs.Headers.{class_text};
ghost use Rattle.pj_outer_names.specs.Candidates.{class_named, file_classes, node_named};
ghost use Rattle.pj_outer_names.specs.ByName.{FindsNames};
ghost use Rattle.pj_outer_names.specs.Imports.{imports_on_demand};

use crate::on_demand::listed_on_demand;
use pj_base::NoMemory;
use pj_declared::Declarations;
use pj_symbols::{Class, Classes, Symbols};
use pj_tree::{Node, SyntaxTree};
use pj_written::{Nodes, class_text};
use std::alloc::Global;
use std::collections::BTreeMap;
use std::marker::Model;

/// Classes by their binary names, each with the first class of the text that has it.
type ByName<'a> = BTreeMap<&'a str, &'a Class>;

/// A file: its tree, its classes and variables, and the scopes of its names. Contracts see it as the tree.
///
/// A class is found by its name in a time that grows with the logarithm of their number, and the imports on demand are looked for once.
#[derive(Drop)]
pub struct File<'a> {
    tree: &'a SyntaxTree<'a>,
    symbols: &'a Symbols,
    declarations: &'a Declarations<'a>,
    by_name: ByName<'a>,
    on_demand: Nodes,
}

impl<'a> Model for File<'a> {
    ghost use Rattle.std.specs.Prelude.{◌≡◌};
    ghost use Rattle.pj_tree.specs.Tree.{Tree};
    ghost use Rattle.pj_symbols.specs.Symbols.{FindsClasses, symbols_of};
    ghost use Rattle.pj_outer_names.specs.ByName.{FindsNames};
    ghost use Rattle.pj_outer_names.specs.Imports.{imports_on_demand};

    ghost Value = { Tree };

    ghost view = { λ f. f.tree.now };

    ghost invariant = { λ f. (f.symbols.now ≡ symbols_of f.tree.now) × (FindsClasses f.tree.now f.symbols.now.classes × (f.declarations.now ≡ f.tree.now) × FindsNames f.by_name f.symbols.now.classes × (f.on_demand ≡ imports_on_demand f.tree.now)) };
}

impl<'a> File<'a> {
    /// The file of a tree, with the symbols and the declarations of that tree.
    pub fn new(
        alloc: Global,
        tree: &'a SyntaxTree<'a>,
        symbols: &'a Symbols,
        declarations: &'a Declarations<'a>,
    ) -> Result<File<'a>, NoMemory>
        requires symbols { symbols.now ≡ symbols_of tree.now }
        requires declarations { declarations.now ≡ tree.now }
        ensures { IfOk result (λ file. file ≡ tree.now) }
    {
        File::with_tables(alloc, tree, symbols, declarations)
    }

    /// The same, where each class is known to be found among the symbols.
    fn with_tables(
        alloc: Global,
        tree: &'a SyntaxTree<'a>,
        symbols: &'a Symbols,
        declarations: &'a Declarations<'a>,
    ) -> Result<File<'a>, NoMemory>
        requires symbols { symbols.now ≡ symbols_of tree.now }
        requires finds { FindsClasses tree.now symbols.now.classes }
        requires declarations { declarations.now ≡ tree.now }
        ensures { IfOk result (λ file. file ≡ tree.now) }
    {
        let by_name = by_name(alloc, symbols.classes())?;
        let on_demand = listed_on_demand(alloc, tree)?;
        Ok(File {
            tree,
            symbols,
            declarations,
            by_name,
            on_demand,
        })
    }

    /// The tree.
    pub fn tree(&self) -> &'a SyntaxTree<'a>
        ensures { result.now ≡ self.now }
    {
        self.tree
    }

    /// Its classes and variables.
    pub fn symbols(&self) -> &'a Symbols
        ensures { result.now ≡ symbols_of self.now }
    {
        self.symbols
    }

    /// The classes that it declares, in the order of their nodes.
    pub fn classes(&self) -> &'a Classes
        ensures { result.now ≡ file_classes self.now }
    {
        self.symbols.classes()
    }

    /// The class of the binary name: the first of the text that has it.
    pub fn class_named(&self, name: &str) -> Option<&'a Class>
        ensures { option_copied result ≡ class_named (file_classes self.now) name.now }
    {
        self.by_name.get(name).copied()
    }

    /// The node of that class.
    pub fn node_named(&self, name: &str) -> Option<Node>
        ensures value { result ≡ node_named (file_classes self.now) name.now }
        ensures inside { IfSome result (λ n. n.0 < length self.now.nodes) }
    {
        match self.class_named(name) {
            Some(class) => Some(class.node),
            None => None,
        }
    }

    /// The binary name of the class that a node declares, and the empty text of a node that declares none.
    pub fn class_text(&self, n: Node) -> &'a str
        ensures { result.now ≡ class_text self.now n }
    {
        class_text(self.tree, self.symbols, n)
    }

    /// The imports on demand of both sorts, in the order of the text.
    fn on_demand(&self) -> &[Node]
        ensures { result.now ≡ imports_on_demand self.now }
    {
        self.on_demand.as_slice()
    }

    /// The same, with that each is a node of the tree (JLS 7.5.2, 7.5.4).
    pub fn imports_on_demand(&self) -> &[Node]
        ensures value { result.now ≡ imports_on_demand self.now }
        ensures inside { All (λ (m : Node). m.0 < length self.now.nodes) result.now }
    {
        self.on_demand()
    }

    /// The scopes of its names.
    pub fn declarations(&self) -> &'a Declarations<'a>
        ensures { result.now ≡ self.now }
    {
        self.declarations
    }
}

/// The classes by their names. They are put from the last to the first, so that of those with one name the first stays.
fn by_name<'c>(alloc: Global, classes: &'c Classes) -> Result<ByName<'c>, NoMemory>
    ensures { IfOk result (λ by_name. FindsNames by_name classes.now) }
{
    let classes = classes.as_slice();
    let mut by_name = BTreeMap::new(alloc);
    for i in (0..classes.len()).rev() {
        let class = &classes[i];
        by_name.insert(class.name.as_str(), class)?;
    }
    Ok(by_name)
}
