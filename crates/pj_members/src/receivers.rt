//! Members of a receiver: a class with type arguments (JLS 4.5.2, 4.8, 4.10.2).

ghost use Rattle.std.specs.Prelude.{◌≡◌, [], IfOk, Some, map};
ghost use Rattle.std.specs.Option.{option_map_or};
ghost use Rattle.pj_names.specs.JavaType.{arguments_of, bound_types, java_types, type_list};
ghost use Rattle.pj_names.specs.Told.{Asks, known_answer, seen};
ghost use Rattle.pj_signatures.specs.Reading.{class_signature_of};
ghost use Rattle.pj_members.specs.InClass.{Bound, field_of_known};
ghost use Rattle.pj_members.specs.Receivers.{arguments_if_named, field_of_receiver, field_on_list, first_from, given_to, head_of, parameters_of, supertype_of_receiver, supertype_test};
ghost use Rattle.pj_members.specs.Seen.{seen_field};
ghost use Rattle.pj_members.specs.SupertypeWalks.{seen_types, supertype_view};

use crate::bounds::in_place;
use crate::fields::field_of_known;
use crate::supertype_walk::SupertypeWalk;
use crate::supertypes::{Supertype, direct_supertypes};
use pj_base::{Copied, NoMemory};
use pj_names::{Answer, AskFault, Bindings, ClassName, Oracle, TyList, Types, look_up};
use pj_signatures::class_signature;
use pj_types::Field;
use std::alloc::Global;
use std::sync::Arc;

/// The most classes that a walk is followed: a list has no more members.
const MOST_CLASSES: u64 = 4294967294;

/// The type parameters of a class that was found. One whose signature is none has none.
fn parameters_in(alloc: Global, signature: &str) -> Result<Bindings, NoMemory>
    ensures { IfOk result (λ parameters. bound_types parameters ≡ option_map_or (λ types. types.params) (class_signature_of signature.now) []) }
{
    match class_signature(alloc, signature)? {
        Some(types) => Ok(types.params),
        None => Ok(Bindings::new(alloc)),
    }
}

/// The type parameters of a class, from what is known of it: of `java.lang.Object`, and of a class that is absent or broken, there are none.
fn parameters_of(alloc: Global, known: &Option<Arc<Answer>>) -> Result<Bindings, NoMemory>
    ensures { IfOk result (λ parameters. bound_types parameters ≡ parameters_of (known_answer known.now)) }
{
    let Some(answer) = known else {
        return Ok(Bindings::new(alloc));
    };
    match &**answer {
        Answer::Found(class) => parameters_in(alloc, class.signature.as_str()),
        Answer::Absent | Answer::Broken(_) => Ok(Bindings::new(alloc)),
    }
}

/// What stands in the place of the type parameters of a receiver's class, from what is known of the class.
fn given_to(
    alloc: Global,
    arguments: &Types,
    known: &Option<Arc<Answer>>,
) -> Result<Bindings, NoMemory>
    ensures { IfOk result (λ bound. bound_types bound ≡ given_to (java_types arguments.now) (known_answer known.now)) }
{
    let parameters = parameters_of(alloc, known)?;
    in_place(alloc, &parameters, false, arguments)
}

/// The types that variables are bound by, in their order.
fn bound_to(alloc: Global, bound: &Bindings) -> Result<TyList, NoMemory>
    ensures { IfOk result (λ types. type_list types ≡ map (λ pair. pair.1) (bound_types bound.now)) }
{
    let mut types = TyList::new(alloc);
    for pair in bound.as_slice() {
        types.push(pair.1.copied()?)?;
    }
    Ok(types)
}

/// The receiver's class at the head of its list of supertypes.
pub fn head_of(
    alloc: Global,
    class: &ClassName,
    arguments: &Types,
    known: &Option<Arc<Answer>>,
) -> Result<Supertype, NoMemory>
    ensures { IfOk result (λ head. supertype_view head ≡ head_of class.now (java_types arguments.now) (known_answer known.now)) }
{
    let bound = given_to(alloc, arguments, known)?;
    let types = bound_to(alloc, &bound)?;
    let name = class.copied()?;
    let arguments = Types::of(alloc, types)?;
    Ok(Supertype { name, arguments })
}

/// The field of a class that stands with type arguments: it is asked, unless it is `java.lang.Object`.
#[tactic(auto, using(pj_names::proofs::AskingLaws::asking_steps), unfolding(crate::specs::Receivers::field_on_list))]
fn field_on_list<O: Oracle>(
    alloc: Global,
    oracle: &mut O,
    name: &str,
    class: &Supertype,
) -> Result<Option<Field>, AskFault>
    ensures { Asks (field_on_list name.now (supertype_view class.now)) (O.tells oracle.old) (O.tells oracle.new) (seen seen_field result) }
{
    let known = look_up(oracle, &class.name)?;
    let found = field_of_known(alloc, &class.name, false, &class.arguments, name, &known)?;
    Ok(found)
}

/// The first field of a name along a list of supertypes.
#[tactic(auto, using(pj_types::proofs::AlongTurns::along_loops))]
fn first_field_from<O: Oracle>(
    alloc: Global,
    oracle: &mut O,
    head: Supertype,
    name: &str,
) -> Result<Option<Field>, AskFault>
    ensures { Asks (first_from (field_on_list name.now) (supertype_view head)) (O.tells oracle.old) (O.tells oracle.new) (seen seen_field result) }
{
    let mut walk = SupertypeWalk::of(alloc, head)?;
    for _class in 0..MOST_CLASSES {
        let Some(next) = walk.next_class()? else {
            return Ok(None);
        };
        let hit = field_on_list(alloc, oracle, name, &next)?;
        if let Some(field) = hit {
            return Ok(Some(field));
        }
        let more = direct_supertypes(alloc, oracle, &next)?;
        walk.put(more)?;
    }
    Err(AskFault::Memory)
}

/// A field of a receiver of a class with type arguments (JLS 15.11.1): the first of its name along the list of supertypes, the class itself first. The class is
/// asked first, and each class before the next one is given, but `java.lang.Object`, of which nothing is looked for.
///
/// The receiver's type arguments stand in the place of the type parameters of its class (JLS 4.5.2); where they are not as many, the receiver is raw, and each
/// parameter is its erased bound (JLS 4.8). Each further class stands with its own type arguments (JLS 4.10.2). A type variable of a class around the owner stays.
#[tactic(auto, using(pj_names::proofs::AskingLaws::asking_steps))]
pub fn field_of_receiver<O: Oracle>(
    alloc: Global,
    oracle: &mut O,
    class: &ClassName,
    arguments: &Types,
    name: &str,
) -> Result<Option<Field>, AskFault>
    ensures { Asks (field_of_receiver class.now (java_types arguments.now) name.now) (O.tells oracle.old) (O.tells oracle.new) (seen seen_field result) }
{
    let known = look_up(oracle, class)?;
    let head = head_of(alloc, class, arguments, &known)?;
    first_field_from(alloc, oracle, head, name)
}

/// The type arguments of a class on a list, where it is the one that is wanted.
fn arguments_if_named(wanted: &str, class: &Supertype) -> Result<Option<Types>, NoMemory>
    ensures { IfOk result (λ found. seen_types found ≡ arguments_if_named wanted.now (supertype_view class.now)) }
{
    if class.name.as_str() == wanted {
        Ok(Some(class.arguments.copied()?))
    } else {
        Ok(None)
    }
}

/// The same, as a test of the classes on a list. It asks nothing.
#[tactic(auto, using(pj_names::proofs::AskingLaws::asking_steps), unfolding(crate::specs::Receivers::supertype_test))]
fn supertype_test<O: Oracle>(
    oracle: &mut O,
    wanted: &str,
    class: &Supertype,
) -> Result<Option<Types>, AskFault>
    ensures { Asks (supertype_test wanted.now (supertype_view class.now)) (O.tells oracle.old) (O.tells oracle.new) (seen seen_types result) }
{
    let _ = oracle;
    let found = arguments_if_named(wanted, class)?;
    Ok(found)
}

/// The type arguments of the class that is wanted along a list of supertypes.
#[tactic(auto, using(pj_types::proofs::AlongTurns::along_loops))]
fn first_supertype_from<O: Oracle>(
    alloc: Global,
    oracle: &mut O,
    head: Supertype,
    wanted: &str,
) -> Result<Option<Types>, AskFault>
    ensures { Asks (first_from (supertype_test wanted.now) (supertype_view head)) (O.tells oracle.old) (O.tells oracle.new) (seen seen_types result) }
{
    let mut walk = SupertypeWalk::of(alloc, head)?;
    for _class in 0..MOST_CLASSES {
        let Some(next) = walk.next_class()? else {
            return Ok(None);
        };
        let hit = supertype_test(oracle, wanted, &next)?;
        if let Some(arguments) = hit {
            return Ok(Some(arguments));
        }
        let more = direct_supertypes(alloc, oracle, &next)?;
        walk.put(more)?;
    }
    Err(AskFault::Memory)
}

/// The type arguments with which a class of this name stands among the supertypes of a receiver (JLS 4.10.2), itself among them, and `None` where it is none of
/// them. The receiver's class is asked first, and each further class on the list before the next one is given, up to the one that is wanted.
#[tactic(auto, using(pj_names::proofs::AskingLaws::asking_steps))]
pub fn supertype_of_receiver<O: Oracle>(
    alloc: Global,
    oracle: &mut O,
    class: &ClassName,
    arguments: &Types,
    wanted: &str,
) -> Result<Option<Types>, AskFault>
    ensures { Asks (supertype_of_receiver class.now (java_types arguments.now) wanted.now) (O.tells oracle.old) (O.tells oracle.new) (seen seen_types result) }
{
    let known = look_up(oracle, class)?;
    let head = head_of(alloc, class, arguments, &known)?;
    first_supertype_from(alloc, oracle, head, wanted)
}
