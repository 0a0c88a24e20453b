//! Types that were found before, and are given again. What the recursion of types calls here is not inlined, since it would take the stack for it at each level.

ghost use Rattle.std.specs.Prelude.{◌≡◌, ◌≤◌, [], IsTrue, IfOk, IfSome, OnOk};
ghost use Rattle.std.specs.List.{All};
ghost use Rattle.pj_names.specs.Asking.{Asking};
ghost use Rattle.pj_names.specs.ClassName.{NameSet, name_set};
ghost use Rattle.pj_names.specs.Held.{IsHeld, again};
ghost use Rattle.pj_names.specs.JavaType.{JavaType, java_type};
ghost use Rattle.pj_names.specs.Told.{Asks, IsWithin, Worlds, seen, with_names};
ghost use Rattle.pj_tree.specs.Tree.{Tree};
ghost use Rattle.pj_exprtypes.specs.Table.{Holds, meaning_of};

use pj_base::{ListOf, NoMemory};
use pj_names::{AskFault, ClassNameSet, ClassNames, Oracle, Ty};
use pj_tree::Node;
use std::alloc::Global;
use std::collections::BTreeMap;

/// What a type is held of.
#[derive(Clone, Copy)]
pub enum Subject {
    /// A variable that is declared by `var`, by its `VariableId`.
    Var(Node),
    /// A variable with the type that its declaration writes.
    Written {
        /// Its `VariableId`.
        id: Node,
        /// The declaration.
        declaration: Node,
    },
    /// An expression, where variables that are declared by `var` are those before a number.
    Expression {
        /// The number.
        before: u32,
        /// The expression.
        n: Node,
    },
}

/// Whether two subjects are the same.
fn is_same(first: Subject, second: Subject) -> bool
    ensures { IsTrue result → first ≡ second }
{
    match (first, second) {
        (Subject::Var(id), Subject::Var(other)) => id.0 == other.0,
        (
            Subject::Written { id, declaration },
            Subject::Written {
                id: other,
                declaration: other_declaration,
            },
        ) => id.0 == other.0 && declaration.0 == other_declaration.0,
        (
            Subject::Expression { before, n },
            Subject::Expression {
                before: other_before,
                n: other,
            },
        ) => before == other_before && n.0 == other.0,
        _ => false,
    }
}

/// A type with the names that its definition asks.
#[derive(Drop)]
pub struct HeldType {
    /// What it is held of.
    pub subject: Subject,
    /// The type.
    pub ty: Ty,
    /// The names, each once.
    pub names: ClassNames,
}

/// The types of a file that were found so far: of variables, and of expressions that are made of others.
///
/// A type that is held is asked again by its names, so that who finds it held asks what its definition asks.
#[derive(Drop)]
pub struct Typed {
    /// The types.
    pub entries: ListOf<HeldType>,
    /// Where the entry of a variable stands that is declared by `var`. What is found so is looked at, so nothing is claimed of it.
    vars: BTreeMap<u32, usize>,
    /// The same of one with the type that its declaration writes.
    written: BTreeMap<u32, usize>,
    /// The same of an expression: of several entries the last.
    expressions: BTreeMap<u32, usize>,
}

impl Typed {
    /// A table that holds none.
    pub fn new(alloc: Global) -> Typed
        ensures { result.entries ≡ [] }
    {
        Typed {
            entries: ListOf::new(alloc),
            vars: BTreeMap::new(alloc),
            written: BTreeMap::new(alloc),
            expressions: BTreeMap::new(alloc),
        }
    }

    /// Where the entry of a subject stands, if there is one.
    fn place_of(&self, subject: Subject) -> Option<usize> {
        match subject {
            Subject::Var(id) => self.vars.get(&id.0).copied(),
            Subject::Written { id, .. } => self.written.get(&id.0).copied(),
            Subject::Expression { n, .. } => self.expressions.get(&n.0).copied(),
        }
    }

    /// The entry of a subject, if there is one.
    pub(crate) fn find(&self, subject: Subject) -> Option<&HeldType>
        ensures { (t : Tree) (worlds : Worlds) → All (Holds t worlds) self.now.entries
            → IfSome result (λ entry. IsHeld worlds (meaning_of t subject) (java_type entry.now.ty) (name_set entry.now.names)) }
    {
        let place = self.place_of(subject)?;
        let entry = self.entries.get(place)?;
        if is_same(entry.subject, subject) {
            Some(entry)
        } else {
            None
        }
    }

    /// Notes where the entry of a subject stands.
    fn note_place(&mut self, subject: Subject, place: usize) -> Result<(), NoMemory>
        ensures { self.new.entries ≡ self.old.entries }
    {
        match subject {
            Subject::Var(id) => self.vars.insert(id.0, place)?,
            Subject::Written { id, .. } => self.written.insert(id.0, place)?,
            Subject::Expression { n, .. } => self.expressions.insert(n.0, place)?,
        };
        Ok(())
    }

    /// Puts an entry at the end.
    fn put(&mut self, entry: HeldType) -> Result<(), NoMemory>
        ensures { (t : Tree) (worlds : Worlds) → Holds t worlds entry → All (Holds t worlds) self.old.entries → All (Holds t worlds) self.new.entries }
    {
        let subject = entry.subject;
        let place = self.entries.len();
        self.entries.push(entry)?;
        self.note_place(subject, place)
    }
}

/// Notes the names of a type that was found, and holds it.
#[inline(never)]
pub(crate) fn remember(
    noted: &mut ClassNameSet,
    types: &mut Typed,
    subject: Subject,
    found: (Ty, ClassNames),
) -> Result<Ty, NoMemory>
    ensures ty { IfOk result (λ ty. java_type ty ≡ java_type found.0) }
    ensures ok { OnOk result (noted.new ≡ with_names noted.old found.1) }
    ensures stays { IsWithin noted.old noted.new }
    ensures within { IsWithin noted.new (with_names noted.old found.1) }
    ensures held { (t : Tree) (worlds : Worlds) → IsHeld worlds (meaning_of t subject) (java_type found.0) (name_set found.1)
        → All (Holds t worlds) types.old.entries → All (Holds t worlds) types.new.entries }
{
    let (ty, names) = found;
    noted.note_all(&names)?;
    let copy = ty.copied()?;
    types.put(HeldType { subject, ty, names })?;
    Ok(copy)
}

/// The names asked once more, and then the type.
#[tactic(auto, using(pj_names::proofs::AskingLaws::asking_loops))]
fn asked_again<O: Oracle>(oracle: &mut O, ty: &Ty, names: &ClassNames) -> Result<Ty, AskFault>
    ensures { Asks (again (java_type ty.now) names.now) (O.tells oracle.old) (O.tells oracle.new) (seen java_type result) }
{
    for name in names.as_slice() {
        let _answer = oracle.ask(name)?;
    }
    Ok(ty.copied()?)
}

/// A type that is held, for whatever meaning it is held.
#[inline(never)]
pub(crate) fn held<O: Oracle>(oracle: &mut O, ty: &Ty, names: &ClassNames) -> Result<Ty, AskFault>
    ensures { (meaning : Asking JavaType)
        → (IsTrue (O.tells oracle.old).is_told → IsHeld (O.tells oracle.old).world meaning (java_type ty.now) (name_set names.now))
        → Asks meaning (O.tells oracle.old) (O.tells oracle.new) (seen java_type result) }
{
    asked_again(oracle, ty, names)
}
