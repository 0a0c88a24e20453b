//! Whether the context node calls what a signature pattern says.
ghost use Rattle.std.specs.Prelude.{◌≡◌, ◌<◌, length};
ghost use Rattle.std.specs.Option.{ForSome};
ghost use Rattle.pj_names.specs.Told.{Asks, seen};
ghost use Rattle.pj_tree.specs.Tree.{kind_of};
ghost use Rattle.pj_exprtypes.specs.Chosen.{chosen_pair, seen_pair};
ghost use Rattle.pj_exprtypes.specs.Table.{KeepsOver};
ghost use Rattle.pj_javafuncs.specs.Called.{call_is, call_test, calls_named, chosen_is};

use pj_exprtypes::{Typed, chosen};
use pj_file_oracle::FileOracle;
use pj_names::{AskFault, Oracle, Ty};
use pj_signature_patterns::{MethodPattern, SigPattern};
use pj_tree::{Kind, Node, SyntaxTree, last_word};
use pj_type_tests::{is_called_on, is_method_named};
use pj_types::Method;
use std::alloc::Global;

/// Whether a node calls a method or constructor of the name of a pattern. That of a constructor is `<init>` (JVMS 2.9.1).
fn calls_named(tree: &SyntaxTree<'_>, n: Node, pattern: &MethodPattern) -> bool
    requires inside { n.0 < length tree.now.nodes }
    ensures { result ≡ calls_named pattern.now tree.now n (kind_of tree.now n) }
{
    match tree.kind(n) {
        Kind::MethodCall => is_method_named(pattern, last_word(tree, n)),
        Kind::ConstructorCall | Kind::ExplicitConstructorInvocation => {
            is_method_named(pattern, "<init>")
        }
        _ => false,
    }
}

/// What is chosen for a call, over the oracle of the file.
fn chosen_at<'a, 'f, O: Oracle>(
    oracle: &mut FileOracle<'a, 'f, O>,
    types: &mut Typed,
    n: Node,
) -> Result<Option<(Ty, Method)>, AskFault>
    requires inside { n.0 < length oracle.old.file.now.nodes }
    requires keeps { KeepsOver oracle.old.file.now (O.tells oracle.old.inner.now) types.old.entries }
    ensures asks { Asks (chosen_pair oracle.old.file.now n) (⟦<FileOracle<'a, 'f, O> as Oracle>⟧.tells oracle.old) (⟦<FileOracle<'a, 'f, O> as Oracle>⟧.tells oracle.new) (seen seen_pair result) }
    ensures keeps { KeepsOver oracle.old.file.now (O.tells oracle.new.inner.now) types.new.entries }
{
    chosen(oracle, types, n)
}

/// Whether what is chosen is as a pattern says but for its name.
#[tactic(auto, using(pj_names::proofs::AskingLaws::asking_steps))]
fn chosen_is<O: Oracle>(
    alloc: Global,
    oracle: &mut O,
    pattern: &SigPattern,
    found: &Option<(Ty, Method)>,
) -> Result<bool, AskFault>
    ensures { Asks (chosen_is pattern.now (seen_pair found.now)) (O.tells oracle.old) (O.tells oracle.new) result }
{
    match found {
        Some((receiver, method)) => is_called_on(
            alloc,
            oracle,
            pattern,
            receiver,
            &method.signature.arguments,
        ),
        None => Ok(false),
    }
}

/// Whether a node calls what a pattern says: first the name is looked at, which asks nothing, and then what is chosen.
#[tactic(auto, using(pj_names::proofs::AskingLaws::asking_steps))]
fn call_is<'a, 'f, O: Oracle>(
    alloc: Global,
    oracle: &mut FileOracle<'a, 'f, O>,
    types: &mut Typed,
    n: Node,
    pattern: &SigPattern,
) -> Result<bool, AskFault>
    requires inside { n.0 < length oracle.old.file.now.nodes }
    requires keeps { KeepsOver oracle.old.file.now (O.tells oracle.old.inner.now) types.old.entries }
    ensures asks { Asks (call_is oracle.old.file.now n pattern.now) (⟦<FileOracle<'a, 'f, O> as Oracle>⟧.tells oracle.old) (⟦<FileOracle<'a, 'f, O> as Oracle>⟧.tells oracle.new) result }
    ensures keeps { KeepsOver oracle.old.file.now (O.tells oracle.new.inner.now) types.new.entries }
{
    let file = oracle.file;
    if !calls_named(file.tree(), n, &pattern.method) {
        return Ok(false);
    }
    let found = chosen_at(oracle, types, n)?;
    chosen_is(alloc, oracle, pattern, &found)
}

/// Whether the context node calls what a pattern says. Without a node nothing is called.
#[tactic(auto, using(pj_names::proofs::AskingLaws::asking_steps))]
pub fn call_test<'a, 'f, O: Oracle>(
    alloc: Global,
    oracle: &mut FileOracle<'a, 'f, O>,
    types: &mut Typed,
    at: Option<Node>,
    pattern: &SigPattern,
) -> Result<bool, AskFault>
    requires inside { ForSome at (λ n. n.0 < length oracle.old.file.now.nodes) }
    requires keeps { KeepsOver oracle.old.file.now (O.tells oracle.old.inner.now) types.old.entries }
    ensures asks { Asks (call_test oracle.old.file.now at pattern.now) (⟦<FileOracle<'a, 'f, O> as Oracle>⟧.tells oracle.old) (⟦<FileOracle<'a, 'f, O> as Oracle>⟧.tells oracle.new) result }
    ensures keeps { KeepsOver oracle.old.file.now (O.tells oracle.new.inner.now) types.new.entries }
{
    match at {
        Some(n) => call_is(alloc, oracle, types, n, pattern),
        None => Ok(false),
    }
}
