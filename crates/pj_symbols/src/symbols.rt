//! The declarations of a file.

ghost use Rattle.std.specs.Prelude.{◌≡◌, ◌++◌, ◌<◌, ℕ, length, true, IfOk, OnOk, OnErr};
ghost use Rattle.std.specs.Option.{option_copied};
ghost use Rattle.pj_symbols.specs.Classes.{around_name, named_in, class_around};
ghost use Rattle.pj_symbols.specs.Names.{package_name, package_prefix};
ghost use Rattle.pj_symbols.specs.Order.{IsRisingFrom};
ghost use Rattle.pj_symbols.specs.Symbols.{class_at, class_in, one_class, one_variable, variable_at, classes_below, symbols_of, FindsClasses};

use crate::class::{Class, class_around, name_within};
use crate::kinds::is_class;
use crate::name::{package_name, package_prefix};
use crate::search::find_class;
use crate::variable::{Variable, variable_at};
use pj_base::{ListOf, NoMemory, Text};
use pj_tree::{Node, SyntaxTree};
use std::alloc::Global;
use std::marker::Model;

/// Classes, in the order of their nodes.
pub type Classes = ListOf<Class>;

/// Variables, in the order of their nodes.
pub type Variables = ListOf<Variable>;

/// What a file declares. Its memory is in proportion to the names.
#[derive(Debug, Drop)]
pub struct Symbols {
    /// The name of the package.
    of_package: Text,
    classes: Classes,
    variables: Variables,
}

impl Model for Symbols {
    ghost use Rattle.pj_symbols.specs.Symbols.{FileSymbols};
    ghost use Rattle.pj_symbols.specs.Order.{IsRisingFrom};

    ghost Value = { FileSymbols };

    ghost view = { λ s. record { package_text = s.of_package; classes = s.classes; variables = s.variables } };

    ghost invariant = { λ s. IsRisingFrom 0 s.classes };
}

/// The binary name of the class directly around the node, among the classes of the nodes before it; where there is none,
/// what stands before the names of top level classes.
fn name_around<'c>(tree: &SyntaxTree<'_>, known: &'c [Class], prefix: &'c str, n: Node) -> &'c str
    requires inside { n.0 < length tree.now.nodes }
    requires known { known.now ≡ classes_below tree.now n.0 }
    requires prefix { prefix.now ≡ package_prefix (package_name tree.now) }
    ensures { result.now ≡ around_name tree.now n }
{
    match class_around(tree, n) {
        Some(owner) => match find_class(known, owner) {
            Some(class) => class.name.as_str(),
            None => "",
        },
        None => prefix,
    }
}

/// The class that the node declares, if it declares one, where the classes of the nodes before it are known.
fn class_at(
    alloc: Global,
    tree: &SyntaxTree<'_>,
    known: &[Class],
    prefix: &str,
    n: Node,
) -> Result<Option<Class>, NoMemory>
    requires inside { n.0 < length tree.now.nodes }
    requires known { known.now ≡ classes_below tree.now n.0 }
    requires prefix { prefix.now ≡ package_prefix (package_name tree.now) }
    ensures { IfOk result (λ class. class ≡ class_at tree.now n) }
{
    if !is_class(tree.kind(n)) {
        return Ok(None);
    }
    let name = name_within(alloc, tree, n, name_around(tree, known, prefix, n))?;
    Ok(Some(Class {
        node: n,
        name,
        owner: class_around(tree, n),
    }))
}

/// Puts the class at the end, if there is one.
fn put_class(classes: &mut Vec<Class>, class: Option<Class>) -> Result<(), NoMemory>
    ensures { OnOk result (classes.new.items ≡ classes.old.items ++ one_class class) }
{
    if let Some(class) = class {
        classes.push(class)?;
    }
    Ok(())
}

/// Puts the variable at the end, if there is one.
fn put_variable(variables: &mut Vec<Variable>, variable: Option<Variable>) -> Result<(), NoMemory>
    ensures { OnOk result (variables.new.items ≡ variables.old.items ++ one_variable variable) }
{
    if let Some(variable) = variable {
        variables.push(variable)?;
    }
    Ok(())
}

impl Symbols {
    /// The declarations of a file. Each class takes a step for each node between it and the class around it, of which
    /// there are fewer than a tree is deep, and a bisection; each variable a few reads.
    pub fn of(alloc: Global, tree: &SyntaxTree<'_>) -> Result<Symbols, NoMemory>
        ensures value { IfOk result (λ s. s ≡ symbols_of tree.now) }
        ensures finds { IfOk result (λ s. FindsClasses tree.now s.classes) }
    {
        let of_package = package_name(alloc, tree)?;
        let prefix = package_prefix(alloc, of_package.as_str())?;
        let mut classes = Vec::new(alloc);
        let mut variables = Vec::new(alloc);
        for n in 0..tree.len() {
            let class = class_at(alloc, tree, classes.as_slice(), prefix.as_str(), Node(n))?;
            put_class(&mut classes, class)?;
            let variable = variable_at(alloc, tree, Node(n))?;
            put_variable(&mut variables, variable)?;
        }
        Ok(Symbols {
            of_package,
            classes: ListOf::from_vec(classes),
            variables: ListOf::from_vec(variables),
        })
    }

    /// The name of the package of the file (JLS 7.4), and the empty text for the unnamed one.
    pub fn package_name(&self) -> &str
        ensures { result.now ≡ self.now.package_text }
    {
        self.of_package.as_str()
    }

    /// Each class that is declared, in the order of the nodes.
    pub fn classes(&self) -> &Classes
        ensures { result.now ≡ self.now.classes }
    {
        &self.classes
    }

    /// Each variable that is declared, in the order of the nodes.
    pub fn variables(&self) -> &Variables
        ensures { result.now ≡ self.now.variables }
    {
        &self.variables
    }

    /// The class that the node declares, if it declares one: by a bisection over the classes. It takes no memory.
    pub fn class(&self, n: Node) -> Option<&Class>
        ensures { option_copied result ≡ class_in self.now.classes n }
    {
        find_class(self.classes.as_slice(), n)
    }
}
