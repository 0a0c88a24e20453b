//! Types of the Java language.
ghost use Rattle.std.specs.Prelude.{◌≡◌, ◌↔◌, IsTrue, IfOk};
ghost use Rattle.pj_names.specs.JavaType.{arguments_of, bound_types, java_type, java_types, type_list};

use crate::class_name::ClassName;
use pj_base::{Copied, Exact, ListOf, NoMemory, Text};
use std::alloc::Global;

/// A primitive type, JLS 4.2.
#[derive(Clone, Copy, Debug, PartialEq, Eq)]
pub enum PrimitiveType {
    Boolean,
    Byte,
    Short,
    Int,
    Long,
    Char,
    Float,
    Double,
}

/// A type of the Java language, JLS 4.
#[cycle(types)]
#[derive(Debug, PartialEq, Eq, Drop)]
pub enum Ty {
    /// A primitive type.
    Prim(PrimitiveType),
    /// What a method has that returns nothing.
    Void,
    /// The type of `null`.
    Null,
    /// A class or an interface with its type arguments; a raw one has none.
    Class(ClassName, Types),
    /// An array of members of a type.
    Array(Box<Ty>),
    /// A type variable with its first bound.
    Var(Text, Box<Ty>),
    /// A type that is not known.
    Unknown,
}

/// Type arguments, in their order.
#[cycle(types)]
#[derive(Debug, PartialEq, Eq)]
pub enum Types {
    /// No more arguments.
    End,
    /// An argument, and those behind it.
    More(Box<Ty>, Box<Types>),
}

/// A list of types.
pub type TyList = ListOf<Ty>;

/// Type variables, each with a type. The first pair of a name counts.
pub type Bindings = ListOf<(Text, Ty)>;

impl Exact for PrimitiveType {
    fn is(&self, other: &PrimitiveType) -> bool {
        self == other
    }
}

impl Ty {
    /// Whether both are the same type.
    #[cycle(same_types)]
    pub fn is(&self, other: &Ty) -> bool
        ensures { IsTrue result ↔ (java_type self.now ≡ java_type other.now) }
    {
        match (self, other) {
            (Ty::Prim(a), Ty::Prim(b)) => a.is(b),
            (Ty::Void, Ty::Void) => true,
            (Ty::Null, Ty::Null) => true,
            (Ty::Class(a, our_arguments), Ty::Class(b, their_arguments)) => {
                a.is(b) && our_arguments.is(their_arguments)
            }
            (Ty::Array(a), Ty::Array(b)) => a.is(b),
            (Ty::Var(a, our_bound), Ty::Var(b, their_bound)) => a.is(b)
                && our_bound.is(their_bound),
            (Ty::Unknown, Ty::Unknown) => true,
            _ => false,
        }
    }

    /// The same type once more.
    #[cycle(copied_types)]
    pub fn copied(&self) -> Result<Ty, NoMemory>
        ensures { IfOk result (λ copy. java_type copy ≡ java_type self.now) }
    {
        Ok(match self {
            Ty::Prim(prim) => Ty::Prim(*prim),
            Ty::Void => Ty::Void,
            Ty::Null => Ty::Null,
            Ty::Class(name, arguments) => Ty::Class(name.copied()?, arguments.copied()?),
            Ty::Array(member) => Ty::Array(Box::new(*Box::allocator(member), member.copied()?)?),
            Ty::Var(name, bound) => Ty::Var(
                name.copied()?,
                Box::new(*Box::allocator(bound), bound.copied()?)?,
            ),
            Ty::Unknown => Ty::Unknown,
        })
    }
}

impl Types {
    /// The type arguments of a list.
    #[tactic(auto, using(crate::proofs::Arguments::all_in_front, crate::proofs::Arguments::last_in_front))]
    pub fn of(alloc: Global, list: TyList) -> Result<Types, NoMemory>
        ensures { IfOk result (λ made. java_types made ≡ arguments_of (type_list list)) }
    {
        let mut rest = list;
        let mut made = Types::End;
        while let Some(last) = rest.pop() {
            made = Types::More(Box::new(alloc, last)?, Box::new(alloc, made)?);
        }
        Ok(made)
    }

    /// Whether both are the same arguments. It recurses as deep as the types nest, however long the lists are.
    #[cycle(same_types)]
    pub fn is(&self, other: &Types) -> bool
        ensures { IsTrue result ↔ (java_types self.now ≡ java_types other.now) }
    {
        let mut ours = self;
        let mut theirs = other;
        'arguments: loop {
            match (ours, theirs) {
                (Types::More(a, our_rest), Types::More(b, their_rest)) => {
                    if !a.is(b) {
                        return false;
                    }
                    ours = our_rest;
                    theirs = their_rest;
                }
                (Types::End, Types::End) => return true,
                _ => return false,
            }
        }
    }

    /// The same arguments once more. It recurses as deep as the types nest, however long the lists are.
    #[cycle(copied_types)]
    #[tactic(auto, using(crate::proofs::Arguments::all_in_front))]
    pub fn copied(&self) -> Result<Types, NoMemory>
        ensures { IfOk result (λ copy. java_types copy ≡ java_types self.now) }
    {
        let alloc = match self {
            Types::End => return Ok(Types::End),
            Types::More(first, _) => *Box::allocator(first),
        };
        let mut copies = TyList::new(alloc);
        let mut rest = self;
        'arguments: while let Types::More(first, more) = rest {
            copies.push(first.copied()?)?;
            rest = more;
        }
        Types::of(alloc, copies)
    }
}

impl Drop for Types {
    /// The arguments end one after the other, so this recurses as deep as the types nest, however long the lists are.
    #[cycle(types)]
    fn drop(mut self) {
        loop {
            match self {
                Types::End => return,
                Types::More(_, rest) => self = Box::into_inner(rest),
            }
        }
    }
}

/// Whether both are lists of the same types.
pub fn same_types(ours: &TyList, theirs: &TyList) -> bool
    ensures { IsTrue result ↔ (type_list ours.now ≡ type_list theirs.now) }
{
    let (ours, theirs) = (ours.as_slice(), theirs.as_slice());
    if ours.len() != theirs.len() {
        return false;
    }
    for i in 0..ours.len() {
        if !ours[i].is(&theirs[i]) {
            return false;
        }
    }
    true
}

/// The same types once more.
pub fn copied_types(types: &TyList) -> Result<TyList, NoMemory>
    ensures { IfOk result (λ copy. type_list copy ≡ type_list types.now) }
{
    let mut copy = TyList::new(types.allocator());
    for ty in types.as_slice() {
        copy.push(ty.copied()?)?;
    }
    Ok(copy)
}

/// The same variables and types once more.
pub fn copied_bindings(bindings: &Bindings) -> Result<Bindings, NoMemory>
    ensures { IfOk result (λ copy. bound_types copy ≡ bound_types bindings.now) }
{
    let mut copy = Bindings::new(bindings.allocator());
    for (name, ty) in bindings.as_slice() {
        copy.push((name.copied()?, ty.copied()?))?;
    }
    Ok(copy)
}
