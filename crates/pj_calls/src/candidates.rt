//! The candidates of a call: methods of a receiver, and of a class.

ghost use Rattle.std.specs.Prelude.{◌≡◌};
ghost use Rattle.pj_names.specs.JavaType.{java_type};
ghost use Rattle.pj_names.specs.Told.{Asks, seen};
ghost use Rattle.pj_types.specs.Members.{all_methods};
ghost use Rattle.pj_calls.specs.Candidates.{if_any, methods_of, of_class, of_receiver};
ghost use Rattle.pj_calls.specs.Seen.{seen_candidates};

use pj_members::{methods_named, methods_of_receiver};
use pj_names::{AskFault, ClassName, Oracle, Ty, Types};
use pj_receivers::as_receiver;
use pj_types::Methods;
use std::alloc::Global;

/// The methods among which that of a call is chosen.
#[derive(Drop)]
pub struct Candidates {
    /// The type that they are looked for in: that of the receiver, and else the class that has them, without type arguments.
    pub receiver: Ty,
    /// The methods, of which there are some.
    pub methods: Methods,
}

/// Methods as candidates, where there are some.
#[tactic(auto, using(crate::proofs::Turns::if_any_cases))]
fn if_any(receiver: Ty, methods: Methods) -> Option<Candidates>
    ensures { seen_candidates result ≡ if_any (java_type receiver) (all_methods methods) }
{
    if methods.is_empty() {
        return None;
    }
    Some(Candidates { receiver, methods })
}

/// The methods of a name of a receiver that is no type variable. Only a class has some.
#[tactic(auto, using(pj_names::proofs::AskingLaws::asking_steps))]
fn methods_of<O: Oracle>(
    alloc: Global,
    oracle: &mut O,
    name: &str,
    receiver: &Ty,
) -> Result<Methods, AskFault>
    ensures { Asks (methods_of name.now (java_type receiver.now)) (O.tells oracle.old) (O.tells oracle.new) (seen all_methods result) }
{
    match receiver {
        Ty::Class(class, arguments) => methods_of_receiver(alloc, oracle, class, arguments, name),
        _ => Ok(Methods::new(alloc)),
    }
}

/// The candidates of a name of a receiver (JLS 15.12.2.1).
#[tactic(auto, using(pj_names::proofs::AskingLaws::asking_steps))]
pub fn of_receiver<O: Oracle>(
    alloc: Global,
    oracle: &mut O,
    name: &str,
    receiver: Ty,
) -> Result<Option<Candidates>, AskFault>
    ensures { Asks (of_receiver name.now (java_type receiver)) (O.tells oracle.old) (O.tells oracle.new) (seen seen_candidates result) }
{
    let methods = methods_of(alloc, oracle, name, as_receiver(&receiver))?;
    let found = if_any(receiver, methods);
    Ok(found)
}

/// The candidates of a name of a class, with its type parameters as they are.
#[tactic(auto, using(pj_names::proofs::AskingLaws::asking_steps))]
pub fn of_class<O: Oracle>(
    alloc: Global,
    oracle: &mut O,
    name: &str,
    class: ClassName,
) -> Result<Option<Candidates>, AskFault>
    ensures { Asks (of_class name.now class) (O.tells oracle.old) (O.tells oracle.new) (seen seen_candidates result) }
{
    let methods = methods_named(alloc, oracle, &class, name)?;
    let found = if_any(Ty::Class(class, Types::End), methods);
    Ok(found)
}
