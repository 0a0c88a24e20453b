//! What a file tells of its names without asking for any class.

ghost use Rattle.std.specs.Prelude.{◌≡◌, ◌<◌, ◌≤◌, ◌+◌, ◌++◌, None, length, IfOk, IfSome};
ghost use Rattle.pj_names.specs.JavaType.{Variable, java_type, type_list};
ghost use Rattle.pj_declared.specs.Nearest.{type_meant};
ghost use Rattle.pj_declared.specs.Rows.{is_type_parameter, names_type_parameter};
ghost use Rattle.pj_outer_names.specs.Inherited.{class_names};
ghost use Rattle.pj_written.specs.Fits.{fits};
ghost use Rattle.pj_written.specs.Headers.{implied_supertypes};
ghost use Rattle.pj_written.specs.Written.{written_name};
ghost use Rattle.pj_type_names.specs.TypeName.{enough, member_found};

use pj_base::{NoMemory, Text};
use pj_declared::Declared;
use pj_names::{ClassName, ClassNames, Ty, TyList};
use pj_outer_names::{File, with_classes};
use pj_tree::{Kind, Node, SyntaxTree};
use pj_written::{
    MOST_SIGNS, Written, class_of_text, fits, implied_supertypes, member_name, written_name,
};
use std::alloc::Global;

/// One more than the file has classes: no more headers are entered within one another.
pub fn enough(file: &File<'_>) -> usize
    ensures { result ≡ enough file.now }
{
    let _nodes = file.tree().len();
    file.classes().len() + 1
}

/// The class or type parameter of the file that a simple name means at a place.
pub fn type_meant(file: &File<'_>, simple: &str, place: Node) -> Option<Declared>
    requires inside { place.0 < length file.now.nodes }
    ensures value { result ≡ type_meant file.now simple.now place }
    ensures inside { IfSome result (λ found. found.node.0 < length file.now.nodes) }
{
    file.declarations().class_or_type_parameter(simple, place)
}

/// Whether nodes of a kind declare type parameters.
fn is_type_parameter(kind: Kind) -> bool
    ensures { result ≡ is_type_parameter kind }
{
    match kind {
        Kind::TypeParameter => true,
        _ => false,
    }
}

/// Whether a node declares a type parameter.
pub fn names_type_parameter(tree: &SyntaxTree<'_>, n: Node) -> bool
    requires inside { n.0 < length tree.now.nodes }
    ensures { result ≡ names_type_parameter tree.now n }
{
    is_type_parameter(tree.kind(n))
}

/// The name that a class type writes, which is looked up at a node of the tree.
pub fn name_written(alloc: Global, tree: &SyntaxTree<'_>, n: Node) -> Result<Written, NoMemory>
    requires inside { n.0 < length tree.now.nodes }
    ensures value { IfOk result (λ name. name ≡ written_name tree.now n) }
    ensures inside { IfOk result (λ name. name.at.0 < length tree.now.nodes) }
{
    let name = written_name(alloc, tree, n)?;
    Ok(name)
}

/// Whether a type fits where so many signs are open around it, and so many pairs of brackets stand behind.
pub fn fits_behind(tree: &SyntaxTree<'_>, around: u32, behind: u32, n: Node) -> bool
    requires inside { n.0 < length tree.now.nodes }
    requires around { around ≤ 1 }
    ensures { result ≡ fits tree.now (around + behind) n }
{
    if behind > MOST_SIGNS {
        return false;
    }
    fits(tree, around + behind, n)
}

/// The supertypes that a class of the file has without writing them.
fn implied(alloc: Global, file: &File<'_>, class: Node) -> Result<ClassNames, NoMemory>
    requires inside { class.0 < length file.now.nodes }
    ensures { IfOk result (λ names. names ≡ implied_supertypes file.now class) }
{
    implied_supertypes(alloc, file.tree(), file.symbols(), class)
}

/// The same, and behind them the classes among some types.
pub fn with_implied(
    alloc: Global,
    file: &File<'_>,
    class: Node,
    types: TyList,
) -> Result<ClassNames, NoMemory>
    requires inside { class.0 < length file.now.nodes }
    ensures { IfOk result (λ names. names ≡ implied_supertypes file.now class ++ class_names (type_list types)) }
{
    let names = implied(alloc, file, class)?;
    with_classes(names, types)
}

/// A type variable with its bound.
pub fn made_variable(alloc: Global, simple: &str, bound: Ty) -> Result<Ty, NoMemory>
    ensures { IfOk result (λ ty. java_type ty ≡ Variable simple.now (java_type bound)) }
{
    let name = Text::from_str(alloc, simple)?;
    let bound = Box::new(alloc, bound)?;
    Ok(Ty::Var(name, bound))
}

/// The member class that a class has by its name alone: `C$S`.
pub fn absent_member(alloc: Global, class: &ClassName, simple: &str) -> Result<Ty, NoMemory>
    ensures { IfOk result (λ ty. java_type ty ≡ member_found class.now simple.now None) }
{
    let text = member_name(alloc, class.as_str(), simple)?;
    class_of_text(alloc, text.as_str())
}
