//! Methods of a receiver: a class with type arguments (JLS 4.5.2, 4.8, 15.12.2.1).

ghost use Rattle.std.specs.Prelude.{◌≡◌, ◌++◌, ◌∷◌, [], IfOk, List, OnOk};
ghost use Rattle.std.specs.FinSet as set;
ghost use Rattle.pj_names.specs.JavaType.{java_types};
ghost use Rattle.pj_names.specs.Told.{Asks, seen};
ghost use Rattle.pj_types.specs.Members.{FoundMethod, all_methods, method_view};
ghost use Rattle.pj_members.specs.Methods.{key_of};
ghost use Rattle.pj_members.specs.Receivers.{classes_for, declared_methods, given_in, given_methods, given_of_receiver, list_from, methods_of_receiver, methods_on_list, unhidden_as};
ghost use Rattle.pj_members.specs.SupertypeWalks.{all_supertypes, supertype_view};

use crate::keys::Keys;
use crate::methods::{found_in, key_of, methods_of_known, searched};
use crate::receivers::head_of;
use crate::supertype_walk::SupertypeWalk;
use crate::supertypes::{Supertype, Supertypes, direct_supertypes};
use pj_base::NoMemory;
use pj_names::{AskFault, ClassName, Oracle, Types, look_up};
use pj_types::{Method, Methods};
use std::alloc::Global;

/// The most classes that a walk is followed: a list has no more members.
const MOST_CLASSES: u64 = 4294967294;

/// The whole list of supertypes of a class with type arguments.
#[tactic(auto, using(pj_types::proofs::AlongTurns::along_loops))]
fn list_from<O: Oracle>(
    alloc: Global,
    oracle: &mut O,
    head: Supertype,
) -> Result<Supertypes, AskFault>
    ensures { Asks (list_from (supertype_view head)) (O.tells oracle.old) (O.tells oracle.new) (seen all_supertypes result) }
{
    let mut walk = SupertypeWalk::of(alloc, head)?;
    let mut list = Supertypes::new(alloc);
    for _class in 0..MOST_CLASSES {
        let Some(next) = walk.next_class()? else {
            return Ok(list);
        };
        let more = direct_supertypes(alloc, oracle, &next)?;
        list.push(next)?;
        walk.put(more)?;
    }
    Err(AskFault::Memory)
}

/// The list of one class.
fn one_class(alloc: Global, head: Supertype) -> Result<Supertypes, NoMemory>
    ensures { IfOk result (λ classes. all_supertypes classes ≡ supertype_view head ∷ []) }
{
    let mut classes = Supertypes::new(alloc);
    classes.push(head)?;
    Ok(classes)
}

/// The classes that methods of a name are looked for in.
#[tactic(auto, using(pj_names::proofs::AskingLaws::asking_steps))]
fn classes_for<O: Oracle>(
    alloc: Global,
    oracle: &mut O,
    name: &str,
    head: Supertype,
) -> Result<Supertypes, AskFault>
    ensures { Asks (classes_for name.now (supertype_view head)) (O.tells oracle.old) (O.tells oracle.new) (seen all_supertypes result) }
{
    if name == "<init>" {
        let classes = one_class(alloc, head)?;
        return Ok(classes);
    }
    list_from(alloc, oracle, head)
}

/// The methods of a class that stands with type arguments: it is asked, unless it is `java.lang.Object`.
#[tactic(auto, using(pj_names::proofs::AskingLaws::asking_steps), unfolding(crate::specs::Receivers::methods_on_list))]
fn methods_on_list<O: Oracle>(
    alloc: Global,
    oracle: &mut O,
    name: &str,
    class: &Supertype,
) -> Result<Methods, AskFault>
    ensures { Asks (methods_on_list name.now (supertype_view class.now)) (O.tells oracle.old) (O.tells oracle.new) (seen all_methods result) }
{
    let known = look_up(oracle, &class.name)?;
    let found = methods_of_known(alloc, &class.name, false, &class.arguments, name, &known)?;
    Ok(found)
}

/// The methods of some classes, one after the other.
#[tactic(auto, using(pj_names::proofs::AskingLaws::asking_loops))]
fn given_in<O: Oracle>(
    alloc: Global,
    oracle: &mut O,
    name: &str,
    classes: &Supertypes,
) -> Result<Methods, AskFault>
    ensures { Asks (given_in name.now [] (all_supertypes classes.now)) (O.tells oracle.old) (O.tells oracle.new) (seen all_methods result) }
{
    let mut found = Methods::new(alloc);
    for class in classes.as_slice() {
        let more = methods_on_list(alloc, oracle, name, class)?;
        found.append(more)?;
    }
    Ok(found)
}

/// The methods of a name along a list of supertypes, those that are hidden too.
#[tactic(auto, using(pj_names::proofs::AskingLaws::asking_steps))]
fn given_methods<O: Oracle>(
    alloc: Global,
    oracle: &mut O,
    name: &str,
    head: Supertype,
) -> Result<Methods, AskFault>
    ensures { Asks (given_methods name.now (supertype_view head)) (O.tells oracle.old) (O.tells oracle.new) (seen all_methods result) }
{
    let classes = classes_for(alloc, oracle, name, head)?;
    given_in(alloc, oracle, name, &classes)
}

/// The methods of a name of a receiver, those that are hidden too.
#[tactic(auto, using(pj_names::proofs::AskingLaws::asking_steps))]
fn given_of_receiver<O: Oracle>(
    alloc: Global,
    oracle: &mut O,
    class: &ClassName,
    arguments: &Types,
    name: &str,
) -> Result<Methods, AskFault>
    ensures { Asks (given_of_receiver class.now (java_types arguments.now) name.now) (O.tells oracle.old) (O.tells oracle.new) (seen all_methods result) }
{
    let known = look_up(oracle, class)?;
    let head = head_of(alloc, class, arguments, &known)?;
    given_methods(alloc, oracle, name, head)
}

/// The methods of a name as the classes declare them, those that are hidden too.
#[tactic(auto, using(pj_names::proofs::AskingLaws::asking_steps))]
fn declared_methods<O: Oracle>(
    alloc: Global,
    oracle: &mut O,
    class: &ClassName,
    name: &str,
) -> Result<Methods, AskFault>
    ensures { Asks (declared_methods class.now name.now) (O.tells oracle.old) (O.tells oracle.new) (seen all_methods result) }
{
    let types = searched(alloc, oracle, class, name)?;
    found_in(alloc, oracle, class, name, &types)
}

/// Puts a method at the end, unless one whose declaration has erased parameters among the keys hides it.
#[tactic(auto, using(crate::proofs::Turns::receiver_turns))]
fn put_unhidden_as(
    alloc: Global,
    keys: &mut Keys,
    left: &mut Methods,
    declared: &Method,
    method: Method,
) -> Result<(), NoMemory>
    ensures { OnOk result ((others rest : List FoundMethod) → all_methods left.new ++ unhidden_as keys.new others rest ≡ all_methods left.old ++ unhidden_as keys.old (method_view declared.now ∷ others) (method_view method ∷ rest)) }
{
    let key = key_of(alloc, declared)?;
    if keys.insert(key)? {
        left.push(method)?;
    }
    Ok(())
}

/// Methods as a receiver has them, without those that are hidden by what the classes declare.
fn unhidden_as(alloc: Global, declared: Methods, given: Methods) -> Result<Methods, NoMemory>
    ensures { IfOk result (λ left. all_methods left ≡ unhidden_as set.empty (all_methods declared) (all_methods given)) }
{
    let mut keys = Keys::new(alloc);
    let mut left = Methods::new(alloc);
    let mut others = declared.into_vec();
    others.reverse();
    let mut rest = given.into_vec();
    rest.reverse();
    while let Some(other) = others.pop() {
        let Some(method) = rest.pop() else {
            return Ok(left);
        };
        put_unhidden_as(alloc, &mut keys, &mut left, &other, method)?;
    }
    Ok(left)
}

/// The methods of a name of a receiver of a class with type arguments (JLS 15.12.2.1), in the order of the list of supertypes, the class itself first. All classes
/// of the list are asked, but `java.lang.Object`, of which nothing is looked for; constructors, `<init>`, are looked for in the class alone. A method is left out
/// where an earlier one hides it: which ones do is told by what the classes declare (`methods_named`), whatever the receiver's type arguments are.
///
/// The receiver's type arguments stand in the place of the type parameters of its class (JLS 4.5.2); where they are not as many, the receiver is raw, and each
/// parameter is its erased bound (JLS 4.8). Each further class stands with its own type arguments (JLS 4.10.2). A method's own type parameters stay (JLS 8.4.4), and
/// so does a type variable of a class around the owner.
#[tactic(auto, using(pj_names::proofs::AskingLaws::asking_steps))]
pub fn methods_of_receiver<O: Oracle>(
    alloc: Global,
    oracle: &mut O,
    class: &ClassName,
    arguments: &Types,
    name: &str,
) -> Result<Methods, AskFault>
    ensures { Asks (methods_of_receiver class.now (java_types arguments.now) name.now) (O.tells oracle.old) (O.tells oracle.new) (seen all_methods result) }
{
    let declared = declared_methods(alloc, oracle, class, name)?;
    let given = given_of_receiver(alloc, oracle, class, arguments, name)?;
    let left = unhidden_as(alloc, declared, given)?;
    Ok(left)
}
