//! The fields of a class of the file (JVMS 4.5).

ghost use Rattle.std.specs.Prelude.{◌≡◌, ◌<◌, length, IfOk};
ghost use Rattle.std.specs.List.{All};
ghost use Rattle.pj_names.specs.Asking.{each};
ghost use Rattle.pj_names.specs.JavaType.{java_type};
ghost use Rattle.pj_names.specs.Told.{Asks};
ghost use Rattle.pj_tree.specs.declared.node.Node.{Node};
ghost use Rattle.pj_file_oracle.specs.Members.{constant_of, field_of, field_with, fields_of};

use crate::nodes::{children_of_kind, variable_brackets, variable_text};
use crate::types::declared_type;
use pj_base::{NoMemory, Text};
use pj_names::{AskFault, Member, Members, Oracle, Ty};
use pj_outer_names::File;
use pj_tree::{Kind, Node, SyntaxTree};
use pj_written::{CONSTANT_FLAGS, class_of_text, field_flags, type_signature};
use std::alloc::Global;

/// A field with these flags, of a type.
fn field_with(
    alloc: Global,
    tree: &SyntaxTree<'_>,
    flags: u16,
    n: Node,
    ty: Ty,
) -> Result<Member, NoMemory>
    requires inside { n.0 < length tree.now.nodes }
    ensures { IfOk result (λ field. field ≡ field_with tree.now flags n (java_type ty)) }
{
    let name = Text::from_str(alloc, variable_text(tree, n))?;
    let signature = type_signature(alloc, &ty)?;
    Ok(Member {
        flags,
        name,
        signature,
    })
}

/// The field of a declarator.
#[tactic(auto, using(pj_names::proofs::AskingLaws::asking_steps))]
fn field_of<O: Oracle>(
    alloc: Global,
    file: &File<'_>,
    oracle: &mut O,
    declaration: Node,
    declarator: Node,
) -> Result<Member, AskFault>
    requires declaration { declaration.0 < length file.now.nodes }
    requires declarator { declarator.0 < length file.now.nodes }
    ensures { Asks (field_of file.now declaration declarator) (O.tells oracle.old) (O.tells oracle.new) result }
{
    let tree = file.tree();
    let behind = variable_brackets(tree, declarator);
    let ty = declared_type(alloc, file, oracle, behind, declaration)?;
    let field = field_with(alloc, tree, field_flags(tree, declaration), declarator, ty)?;
    Ok(field)
}

/// Fields of a declaration, one after the other.
#[tactic(auto, using(pj_names::proofs::AskingLaws::asking_loops))]
fn listed_fields<O: Oracle>(
    alloc: Global,
    file: &File<'_>,
    oracle: &mut O,
    declaration: Node,
    declarators: &[Node],
) -> Result<Members, AskFault>
    requires declaration { declaration.0 < length file.now.nodes }
    requires inside { All (λ (n : Node). n.0 < length file.now.nodes) declarators.now }
    ensures { Asks (each (field_of file.now declaration) declarators.now) (O.tells oracle.old) (O.tells oracle.new) result }
{
    let mut fields = Members::new(alloc);
    for declarator in declarators {
        let field = field_of(alloc, file, oracle, declaration, *declarator)?;
        fields.push(field)?;
    }
    Ok(fields)
}

/// The fields of a declaration: one for each declarator.
#[tactic(auto, using(pj_names::proofs::AskingLaws::asking_steps))]
pub fn fields_of<O: Oracle>(
    alloc: Global,
    file: &File<'_>,
    oracle: &mut O,
    declaration: Node,
) -> Result<Members, AskFault>
    requires inside { declaration.0 < length file.now.nodes }
    ensures { Asks (fields_of file.now declaration) (O.tells oracle.old) (O.tells oracle.new) result }
{
    let nodes = children_of_kind(alloc, file.tree(), declaration, Kind::VariableDeclarator)?;
    listed_fields(alloc, file, oracle, declaration, nodes.as_slice())
}

/// An enum constant as a field.
pub fn constant_of(alloc: Global, file: &File<'_>, class: Node, n: Node) -> Result<Member, NoMemory>
    requires inside { n.0 < length file.now.nodes }
    ensures { IfOk result (λ field. field ≡ constant_of file.now class n) }
{
    let ty = class_of_text(alloc, file.class_text(class))?;
    field_with(alloc, file.tree(), CONSTANT_FLAGS, n, ty)
}
