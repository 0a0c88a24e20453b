//! Tests of the context node that ask for classes.
ghost use Rattle.std.specs.Prelude.{◌<◌, length};
ghost use Rattle.std.specs.Option.{ForSome};
ghost use Rattle.pj_names.specs.JavaType.{java_type};
ghost use Rattle.pj_names.specs.Told.{Asks, seen};
ghost use Rattle.pj_exprtypes.specs.Table.{KeepsOver};
ghost use Rattle.pj_javafuncs.specs.Parts.{test_by};
ghost use Rattle.pj_javafuncs.specs.Replies.{annotation_test, exact_test, type_at, type_test};

use pj_annotation_tests::has_annotation;
use pj_exprtypes::{Typed, type_of};
use pj_file_oracle::FileOracle;
use pj_names::{AskFault, Oracle, Ty};
use pj_tree::Node;
use pj_type_tests::{has_name, type_is};
use std::alloc::Global;

/// A test of the context node by a name.
#[derive(Clone, Copy)]
pub enum Test {
    /// Its type has the name, or is under a class that has it.
    TypeIs,
    /// Its type has the name.
    TypeIsExactly,
    /// It has an annotation of the class of the name.
    HasAnnotation,
}

/// The type of the context node; without one it is not known.
#[tactic(auto, using(pj_names::proofs::AskingLaws::asking_steps))]
fn type_at<'a, 'f, O: Oracle>(
    oracle: &mut FileOracle<'a, 'f, O>,
    types: &mut Typed,
    at: Option<Node>,
) -> Result<Ty, AskFault>
    requires inside { ForSome at (λ n. n.0 < length oracle.old.file.now.nodes) }
    requires keeps { KeepsOver oracle.old.file.now (O.tells oracle.old.inner.now) types.old.entries }
    ensures asks { Asks (type_at oracle.old.file.now at) (⟦<FileOracle<'a, 'f, O> as Oracle>⟧.tells oracle.old) (⟦<FileOracle<'a, 'f, O> as Oracle>⟧.tells oracle.new) (seen java_type result) }
    ensures keeps { KeepsOver oracle.old.file.now (O.tells oracle.new.inner.now) types.new.entries }
{
    match at {
        Some(n) => type_of(oracle, types, n),
        None => Ok(Ty::Unknown),
    }
}

/// Whether the context node's type has a name, or is under a class that has it.
#[tactic(auto, using(pj_names::proofs::AskingLaws::asking_steps))]
fn type_test<'a, 'f, O: Oracle>(
    alloc: Global,
    oracle: &mut FileOracle<'a, 'f, O>,
    types: &mut Typed,
    at: Option<Node>,
    text: &str,
) -> Result<bool, AskFault>
    requires inside { ForSome at (λ n. n.0 < length oracle.old.file.now.nodes) }
    requires keeps { KeepsOver oracle.old.file.now (O.tells oracle.old.inner.now) types.old.entries }
    ensures asks { Asks (type_test oracle.old.file.now at text.now) (⟦<FileOracle<'a, 'f, O> as Oracle>⟧.tells oracle.old) (⟦<FileOracle<'a, 'f, O> as Oracle>⟧.tells oracle.new) result }
    ensures keeps { KeepsOver oracle.old.file.now (O.tells oracle.new.inner.now) types.new.entries }
{
    let ty = type_at(oracle, types, at)?;
    type_is(alloc, oracle, &ty, text)
}

/// Whether the context node's type has a name.
#[tactic(auto, using(pj_names::proofs::AskingLaws::asking_steps))]
fn exact_test<'a, 'f, O: Oracle>(
    oracle: &mut FileOracle<'a, 'f, O>,
    types: &mut Typed,
    at: Option<Node>,
    text: &str,
) -> Result<bool, AskFault>
    requires inside { ForSome at (λ n. n.0 < length oracle.old.file.now.nodes) }
    requires keeps { KeepsOver oracle.old.file.now (O.tells oracle.old.inner.now) types.old.entries }
    ensures asks { Asks (exact_test oracle.old.file.now at text.now) (⟦<FileOracle<'a, 'f, O> as Oracle>⟧.tells oracle.old) (⟦<FileOracle<'a, 'f, O> as Oracle>⟧.tells oracle.new) result }
    ensures keeps { KeepsOver oracle.old.file.now (O.tells oracle.new.inner.now) types.new.entries }
{
    let ty = type_at(oracle, types, at)?;
    Ok(has_name(&ty, text))
}

/// Whether the context node has an annotation of the class of a name.
#[tactic(auto, using(pj_names::proofs::AskingLaws::asking_steps))]
fn annotation_test<'a, 'f, O: Oracle>(
    alloc: Global,
    oracle: &mut FileOracle<'a, 'f, O>,
    at: Option<Node>,
    text: &str,
) -> Result<bool, AskFault>
    requires inside { ForSome at (λ n. n.0 < length oracle.old.file.now.nodes) }
    ensures { Asks (annotation_test oracle.old.file.now at text.now) (⟦<FileOracle<'a, 'f, O> as Oracle>⟧.tells oracle.old) (⟦<FileOracle<'a, 'f, O> as Oracle>⟧.tells oracle.new) result }
{
    let file = oracle.file;
    match at {
        Some(n) => has_annotation(alloc, file, oracle, n, text),
        None => Ok(false),
    }
}

/// Whether a test holds of the context node, with a name.
#[tactic(auto, using(pj_names::proofs::AskingLaws::asking_steps))]
pub fn test_by<'a, 'f, O: Oracle>(
    alloc: Global,
    oracle: &mut FileOracle<'a, 'f, O>,
    types: &mut Typed,
    test: Test,
    at: Option<Node>,
    text: &str,
) -> Result<bool, AskFault>
    requires inside { ForSome at (λ n. n.0 < length oracle.old.file.now.nodes) }
    requires keeps { KeepsOver oracle.old.file.now (O.tells oracle.old.inner.now) types.old.entries }
    ensures asks { Asks (test_by test oracle.old.file.now at text.now) (⟦<FileOracle<'a, 'f, O> as Oracle>⟧.tells oracle.old) (⟦<FileOracle<'a, 'f, O> as Oracle>⟧.tells oracle.new) result }
    ensures keeps { KeepsOver oracle.old.file.now (O.tells oracle.new.inner.now) types.new.entries }
{
    match test {
        Test::TypeIs => type_test(alloc, oracle, types, at, text),
        Test::TypeIsExactly => exact_test(oracle, types, at, text),
        Test::HasAnnotation => annotation_test(alloc, oracle, at, text),
    }
}
