//! The declarations of a file.

ghost use Rattle.std.specs.Prelude.{◌≡◌, ◌<◌, length, IfOk};
ghost use Rattle.pj_declared.specs.Nearest.{variable_meant, type_meant, single_import};
ghost use Rattle.pj_declared.specs.Table.{IsTableOf};
ghost use Rattle.pj_declared.specs.Rows.{variables_of, types_of};
ghost use Rattle.pj_declared.specs.Imports.{imports_of};

use crate::gather::{types_of, variables_of};
use crate::imports::{ImportSort, imports_of};
use crate::named::Named;
use crate::nearest::Declared;
use crate::search::meant_among;
use pj_base::NoMemory;
use pj_tree::{Node, SyntaxTree};
use std::alloc::Global;
use std::marker::Model;

/// What a file declares, with the scopes of all its names. Contracts see it as the syntax tree of the file.
#[derive(Drop)]
pub struct Declarations<'t> {
    tree: &'t SyntaxTree<'t>,
    variables: Vec<Named>,
    types: Vec<Named>,
    type_imports: Vec<Named>,
    static_imports: Vec<Named>,
}

impl<'t> Model for Declarations<'t> {
    ghost use Rattle.pj_tree.specs.Tree.{Tree};
    ghost use Rattle.pj_declared.specs.Rows.{variables_of, types_of};
    ghost use Rattle.pj_declared.specs.Imports.{imports_of};
    ghost use Rattle.pj_declared.specs.declared.imports.ImportSort.TheVariants.{OfType, Static};
    ghost use Rattle.pj_declared.specs.Table.{IsTableOf};

    ghost Value = { Tree };

    ghost view = { λ d. d.tree.now };

    ghost invariant = { λ d. IsTableOf (variables_of d.tree.now) d.variables.items × IsTableOf (types_of d.tree.now) d.types.items × IsTableOf (imports_of d.tree.now OfType) d.type_imports.items × IsTableOf (imports_of d.tree.now Static) d.static_imports.items };
}

/// The rows in the order of their names and scopes. It takes no memory.
fn in_order(rows: Vec<Named>) -> Vec<Named>
    ensures { IsTableOf rows.items result.items }
{
    let mut rows = rows;
    rows.sort_unstable();
    rows
}

impl<'t> Declarations<'t> {
    /// The declarations of the file. Its memory is in proportion to the names that are declared.
    pub fn of(alloc: Global, tree: &'t SyntaxTree<'t>) -> Result<Declarations<'t>, NoMemory>
        ensures { IfOk result (λ d. d ≡ tree.now) }
    {
        let variables = variables_of(alloc, tree)?;
        let types = types_of(alloc, tree)?;
        let type_imports = imports_of(alloc, tree, ImportSort::OfType)?;
        let static_imports = imports_of(alloc, tree, ImportSort::Static)?;
        Ok(Declarations {
            tree,
            variables: in_order(variables),
            types: in_order(types),
            type_imports: in_order(type_imports),
            static_imports: in_order(static_imports),
        })
    }

    /// The variable that the simple name means at the place (JLS 6.3, 6.4.1), and `None` where no variable of the file of
    /// this name is in scope there. Inherited fields and imports are not looked at. It takes no memory.
    pub fn variable(&self, name: &str, place: Node) -> Option<Declared>
        requires inside { place.0 < length self.now.nodes }
        ensures { result ≡ variable_meant self.now name.now place }
    {
        meant_among(self.tree, self.variables.as_slice(), name, place)
    }

    /// The class or type parameter that the simple name means at the place (JLS 6.3, 6.4.1), and `None` where none of the
    /// file of this name is in scope there. Inherited member classes, imports and other files are not looked at. It takes
    /// no memory.
    pub fn class_or_type_parameter(&self, name: &str, place: Node) -> Option<Declared>
        requires inside { place.0 < length self.now.nodes }
        ensures { result ≡ type_meant self.now name.now place }
    {
        meant_among(self.tree, self.types.as_slice(), name, place)
    }

    /// The first import of one name, of the sort, that imports the simple name (JLS 7.5.1, 7.5.3), and `None` where none of the
    /// file does. It takes no memory.
    pub fn single_import(&self, sort: ImportSort, name: &str) -> Option<Node>
        ensures { result ≡ single_import self.now sort name.now }
    {
        let _nodes = self.tree.len();
        match meant_among(self.tree, self.imports(sort), name, Node(0)) {
            Some(import) => Some(import.node),
            None => None,
        }
    }

    /// The names that imports of the sort import.
    fn imports(&self, sort: ImportSort) -> &[Named]
        ensures { IsTableOf (imports_of self.now sort) result.now }
    {
        match sort {
            ImportSort::OfType => self.type_imports.as_slice(),
            ImportSort::Static => self.static_imports.as_slice(),
        }
    }
}
