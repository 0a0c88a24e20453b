//! The oracle of a file.

ghost use Rattle.std.specs.Prelude.{◌≡◌, ◌<◌, length};
ghost use Rattle.pj_names.specs.Expand.{tells_by};
ghost use Rattle.pj_names.specs.JavaType.{java_type};
ghost use Rattle.pj_names.specs.Told.{Asks, Over, seen};
ghost use Rattle.pj_symbols.specs.Symbols.{symbols_of};
ghost use Rattle.pj_type_names.specs.TypeName.{type_name};
ghost use Rattle.pj_file_oracle.specs.Answered.{AreAnswered, all_answered_prop};
ghost use Rattle.pj_file_oracle.specs.FileAnswer.{file_answer};
ghost use Rattle.pj_file_oracle.specs.Held.{FileOwn, Holds, holds_prop, own_answer};

use crate::answer::{Answered, file_answer};
use crate::held::Held;
use pj_names::{Answer, AskFault, ClassName, Oracle, Ty};
use pj_outer_names::File;
use pj_symbols::Symbols;
use pj_tree::{Node, SyntaxTree};
use pj_type_names::type_name;
use std::alloc::Global;
use std::sync::Arc;

/// It answers the classes of a file from their declarations, and asks every other name of the oracle beneath.
///
/// The names that a class of the file needs are those of the classes that its declaration writes, first in its header and then in its members. Also after a
/// refusal none but these names was asked of the oracle beneath.
///
/// A class of the file is resolved once, whatever oracles are made of the file: its answer is held with the names that it asks. Another oracle of the file, over one
/// of the same world, asks these names once more, and then gives the answer again without asking.
#[derive(Drop)]
pub struct FileOracle<'a, 'f, O: Oracle> {
    /// What answers are made with.
    pub alloc: Global,
    /// The file.
    pub file: &'a File<'f>,
    /// The oracle beneath.
    pub inner: &'a mut O,
    /// What is held of the file.
    pub held: &'a mut Held,
    /// What it answered for classes of the file.
    answered: Answered,
    pub ghost holds: { Holds file.now (O.tells inner.now) held.now } by { holds_prop file.now (O.tells inner.now) held.now },
    ghost stands: { AreAnswered (file_answer file.now) (O.tells inner.now) answered.entries } by { all_answered_prop (file_answer file.now) (O.tells inner.now) answered.entries },
}

impl<'a, 'f, O: Oracle> FileOracle<'a, 'f, O> {
    /// The oracle of a file over another oracle, with what is held of the file. It takes no memory.
    pub fn new(
        alloc: Global,
        file: &'a File<'f>,
        inner: &'a mut O,
        held: &'a mut Held,
    ) -> FileOracle<'a, 'f, O>
        requires { Holds file.now (O.tells inner.old) held.old }
        ensures file { result.file.now ≡ file.now }
        ensures inner { result.inner.now ≡ inner.old }
        ensures held { result.inner.ghost_name ≡ inner.entry.ghost_name }
        ensures table { result.held.now ≡ held.old }
        ensures same_table { result.held.ghost_name ≡ held.entry.ghost_name }
    {
        FileOracle {
            alloc,
            file,
            inner,
            held,
            answered: Answered::new(alloc),
        }
    }

    /// The tree of the file.
    pub fn tree(&self) -> &'f SyntaxTree<'f>
        ensures { result.now ≡ self.now.file.now }
    {
        self.file.tree()
    }

    /// The classes and variables of the file.
    pub fn symbols(&self) -> &'f Symbols
        ensures { result.now ≡ symbols_of self.now.file.now }
    {
        self.file.symbols()
    }
}

impl<'a, 'f, O: Oracle> Oracle for FileOracle<'a, 'f, O> {
    ghost Kept = { Over FileOwn O.Kept };

    ghost tells = { λ oracle. tells_by oracle.inner.ghost_name (record { tree = oracle.file.now; held = oracle.held.ghost_name }) own_answer (O.tells oracle.inner.now) };

    fn ask(&mut self, name: &ClassName) -> Result<Arc<Answer>, AskFault> {
        let held = &mut *self.held;
        file_answer(
            self.alloc,
            self.file,
            self.inner,
            &mut self.answered,
            &mut held.answers,
            name,
        )
    }
}

/// The type that a name means at a place of the file: a simple name or one with dots (JLS 6.5.5).
pub fn resolve_type<O: Oracle>(
    oracle: &mut FileOracle<'_, '_, O>,
    at: Node,
    name: &str,
) -> Result<Ty, AskFault>
    requires inside { at.0 < length oracle.old.file.now.nodes }
    ensures asks { Asks (type_name oracle.old.file.now at name.now) (O.tells oracle.old.inner.now) (O.tells oracle.new.inner.now) (seen java_type result) }
    ensures file { oracle.new.file.now ≡ oracle.old.file.now }
    ensures held { oracle.new.inner.ghost_name ≡ oracle.old.inner.ghost_name }
    ensures same_table { oracle.new.held.ghost_name ≡ oracle.old.held.ghost_name }
{
    type_name(oracle.alloc, oracle.file, &mut *oracle.inner, at, name)
}
