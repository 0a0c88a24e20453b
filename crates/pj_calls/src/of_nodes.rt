//! The candidates of a node.

ghost use Rattle.std.specs.Prelude.{◌<◌, length};
ghost use Rattle.pj_names.specs.Told.{Asks, seen};
ghost use Rattle.pj_signatures.specs.Seen.{seen_option};
ghost use Rattle.pj_calls.specs.Candidates.{candidates_of, method_candidates};
ghost use Rattle.pj_calls.specs.Seen.{seen_candidates};

use crate::candidates::{Candidates, of_receiver};
use crate::constructors::{created_constructors, invoked_constructors};
use crate::unqualified::unqualified;
use pj_names::{AskFault, Oracle, Ty};
use pj_outer_names::File;
use pj_tree::{Kind, Node, last_word};
use std::alloc::Global;

/// The candidates of a method call, by the type of its receiver, where it has one.
#[tactic(auto, using(pj_names::proofs::AskingLaws::asking_steps))]
fn method_candidates<O: Oracle>(
    alloc: Global,
    file: &File<'_>,
    oracle: &mut O,
    n: Node,
    receiver: Option<Ty>,
) -> Result<Option<Candidates>, AskFault>
    requires inside { n.0 < length file.now.nodes }
    ensures { Asks (method_candidates file.now n (seen_option receiver)) (O.tells oracle.old) (O.tells oracle.new) (seen seen_candidates result) }
{
    match receiver {
        None => unqualified(alloc, file, oracle, last_word(file.tree(), n), n),
        Some(receiver) => of_receiver(alloc, oracle, last_word(file.tree(), n), receiver),
    }
}

/// The methods or constructors among which that of a call is chosen, and `None` where there are none, or the node is no call.
///
/// Of a method call with a receiver they are those of its type (JLS 15.12.2.1), which is given. Without a receiver they are those of the first class that has a method of the name: of the classes
/// around, from the innermost one outwards, each with what it inherits, and then of those that static imports name (JLS 15.12.1, 7.5.3, 7.5.4). Of `new` they are the constructors of the class that is
/// written (JLS 15.9.3), and of `this(..)` or `super(..)` those of the class around or of its superclass (JLS 8.8.7.1).
#[tactic(auto, using(pj_names::proofs::AskingLaws::asking_steps))]
pub fn candidates_of<O: Oracle>(
    alloc: Global,
    file: &File<'_>,
    oracle: &mut O,
    n: Node,
    receiver: Option<Ty>,
) -> Result<Option<Candidates>, AskFault>
    requires inside { n.0 < length file.now.nodes }
    ensures { Asks (candidates_of file.now n (seen_option receiver)) (O.tells oracle.old) (O.tells oracle.new) (seen seen_candidates result) }
{
    match file.tree().kind(n) {
        Kind::MethodCall => method_candidates(alloc, file, oracle, n, receiver),
        Kind::ConstructorCall => created_constructors(alloc, file, oracle, n),
        Kind::ExplicitConstructorInvocation => invoked_constructors(alloc, file, oracle, n),
        _ => Ok(None),
    }
}
