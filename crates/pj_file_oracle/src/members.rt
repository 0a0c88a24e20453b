//! The members of a class of the file, in the order of the text.

ghost use Rattle.std.specs.Prelude.{◌≡◌, ◌<◌, ◌∷◌, [], length, IfOk, OnOk};
ghost use Rattle.std.specs.List.{All};
ghost use Rattle.pj_names.specs.Told.{Asks};
ghost use Rattle.pj_tree.specs.declared.node.Node.{Node};
ghost use Rattle.pj_file_oracle.specs.Members.{both_lists, constant_of, fields_alone, member_lists, members_among, members_of, method_alone, no_members, one_method, only_fields};

use crate::fields::{constant_of, fields_of};
use crate::methods::method_of;
use crate::nodes::body_nodes;
use pj_base::NoMemory;
use pj_names::{AskFault, Member, Members, Oracle};
use pj_outer_names::File;
use pj_tree::{Kind, Node};
use std::alloc::Global;

/// Fields and methods.
#[derive(Drop)]
pub struct MemberLists {
    pub fields: Members,
    pub methods: Members,
}

/// None of both.
fn no_members(alloc: Global) -> MemberLists
    ensures { result ≡ no_members }
{
    MemberLists {
        fields: Members::new(alloc),
        methods: Members::new(alloc),
    }
}

/// Fields alone.
fn only_fields(alloc: Global, fields: Members) -> MemberLists
    ensures { result ≡ only_fields fields }
{
    MemberLists {
        fields,
        methods: Members::new(alloc),
    }
}

/// One method.
fn one_method(alloc: Global, method: Member) -> Result<MemberLists, NoMemory>
    ensures { IfOk result (λ members. members ≡ one_method method) }
{
    let mut methods = Members::new(alloc);
    methods.push(method)?;
    Ok(MemberLists {
        fields: Members::new(alloc),
        methods,
    })
}

/// The fields of a declaration.
#[tactic(auto, using(pj_names::proofs::AskingLaws::asking_steps))]
fn fields_alone<O: Oracle>(
    alloc: Global,
    file: &File<'_>,
    oracle: &mut O,
    n: Node,
) -> Result<MemberLists, AskFault>
    requires inside { n.0 < length file.now.nodes }
    ensures { Asks (fields_alone file.now n) (O.tells oracle.old) (O.tells oracle.new) result }
{
    let fields = fields_of(alloc, file, oracle, n)?;
    let members = only_fields(alloc, fields);
    Ok(members)
}

/// The field of an enum constant.
fn constant_alone(
    alloc: Global,
    file: &File<'_>,
    class: Node,
    n: Node,
) -> Result<MemberLists, NoMemory>
    requires inside { n.0 < length file.now.nodes }
    ensures { IfOk result (λ members. members ≡ only_fields (constant_of file.now class n ∷ [])) }
{
    let constant = constant_of(alloc, file, class, n)?;
    let mut fields = Members::new(alloc);
    fields.push(constant)?;
    Ok(only_fields(alloc, fields))
}

/// A method or a constructor.
#[tactic(auto, using(pj_names::proofs::AskingLaws::asking_steps))]
fn method_alone<O: Oracle>(
    alloc: Global,
    file: &File<'_>,
    oracle: &mut O,
    n: Node,
) -> Result<MemberLists, AskFault>
    requires inside { n.0 < length file.now.nodes }
    ensures { Asks (method_alone file.now n) (O.tells oracle.old) (O.tells oracle.new) result }
{
    let method = method_of(alloc, file, oracle, n)?;
    let members = one_method(alloc, method)?;
    Ok(members)
}

/// What one child of the body of a class declares.
#[tactic(auto, using(pj_names::proofs::AskingLaws::asking_steps))]
fn member_lists<O: Oracle>(
    alloc: Global,
    file: &File<'_>,
    oracle: &mut O,
    class: Node,
    n: Node,
) -> Result<MemberLists, AskFault>
    requires inside { n.0 < length file.now.nodes }
    ensures { Asks (member_lists file.now class n) (O.tells oracle.old) (O.tells oracle.new) result }
{
    match file.tree().kind(n) {
        Kind::FieldDeclaration => fields_alone(alloc, file, oracle, n),
        Kind::EnumConstant => {
            let members = constant_alone(alloc, file, class, n)?;
            Ok(members)
        }
        Kind::MethodDeclaration | Kind::ConstructorDeclaration => {
            method_alone(alloc, file, oracle, n)
        }
        _ => Ok(no_members(alloc)),
    }
}

/// Puts fields and methods behind others.
fn put_members(members: &mut MemberLists, more: MemberLists) -> Result<(), NoMemory>
    ensures { OnOk result (members.new ≡ both_lists members.old more) }
{
    let MemberLists { fields, methods } = more;
    members.fields.append(fields)?;
    members.methods.append(methods)?;
    Ok(())
}

/// What some children of the body of a class declare.
#[tactic(auto, using(pj_names::proofs::AskingLaws::asking_loops))]
fn members_among<O: Oracle>(
    alloc: Global,
    file: &File<'_>,
    oracle: &mut O,
    class: Node,
    nodes: &[Node],
) -> Result<MemberLists, AskFault>
    requires inside { All (λ (n : Node). n.0 < length file.now.nodes) nodes.now }
    ensures { Asks (members_among file.now class nodes.now) (O.tells oracle.old) (O.tells oracle.new) result }
{
    let mut members = no_members(alloc);
    for n in nodes {
        let more = member_lists(alloc, file, oracle, class, *n)?;
        put_members(&mut members, more)?;
    }
    Ok(members)
}

/// The fields and methods of a class.
#[tactic(auto, using(pj_names::proofs::AskingLaws::asking_steps))]
pub fn members_of<O: Oracle>(
    alloc: Global,
    file: &File<'_>,
    oracle: &mut O,
    class: Node,
) -> Result<MemberLists, AskFault>
    requires inside { class.0 < length file.now.nodes }
    ensures { Asks (members_of file.now class) (O.tells oracle.old) (O.tells oracle.new) result }
{
    let nodes = body_nodes(alloc, file.tree(), class)?;
    members_among(alloc, file, oracle, class, nodes.as_slice())
}
