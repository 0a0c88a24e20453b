//! The methods among which one is chosen.
ghost use Rattle.std.specs.Prelude.{◌≡◌, ◌++◌, ◌∷◌, [], IfOk, OnOk, if◌then◌else◌};
ghost use Rattle.pj_names.specs.JavaType.{java_type, type_list};
ghost use Rattle.pj_types.specs.Members.{all_methods, method_view};
ghost use Rattle.pj_overload.specs.Candidates.{all_erased, candidate_of, candidates_of, ends_in_array, is_array, is_flagged_variable};
ghost use Rattle.pj_overload.specs.Seen.{candidate_seen, candidates_seen};

use pj_base::{ListOf, NoMemory};
use pj_names::{Ty, TyList, copied_types};
use pj_types::{Method, Methods, erase};
use std::alloc::Global;

/// A method among which one is chosen.
#[derive(Drop)]
pub struct Candidate {
    /// Its number among the methods, counted from 0.
    pub number: u32,
    /// The types of its parameters, erased.
    pub parameters: TyList,
    /// Whether it is a method of variable arity (JLS 8.4.1).
    pub has_variable_arity: bool,
}

/// Candidates, in the order of the methods.
pub type Candidates = ListOf<Candidate>;

impl Candidate {
    /// The same candidate once more.
    pub fn copied(&self) -> Result<Candidate, NoMemory>
        ensures { IfOk result (λ copy. candidate_seen copy ≡ candidate_seen self.now) }
    {
        let parameters = copied_types(&self.parameters)?;
        Ok(Candidate {
            number: self.number,
            parameters,
            has_variable_arity: self.has_variable_arity,
        })
    }
}

/// Whether a type is an array.
fn is_array(ty: &Ty) -> bool
    ensures { result ≡ is_array (java_type ty.now) }
{
    matches!(ty, Ty::Array(_))
}

/// Whether there are some types of which the last one is an array.
#[tactic(auto, using(crate::proofs::Turns::last_types))]
fn ends_in_array(types: &TyList) -> bool
    ensures { result ≡ ends_in_array (type_list types.now) }
{
    match types.as_slice().last() {
        Some(ty) => is_array(ty),
        None => false,
    }
}

/// Whether a method has the flag of variable arity, 0x0080 (JVMS 4.6).
fn is_flagged_variable(flags: u16) -> bool
    ensures { result ≡ is_flagged_variable flags }
{
    flags / 0x0080 % 2 == 1
}

/// The erasures of types.
fn all_erased(alloc: Global, types: &TyList) -> Result<TyList, NoMemory>
    ensures { IfOk result (λ made. type_list made ≡ all_erased (type_list types.now)) }
{
    let mut made = TyList::new(alloc);
    for ty in types.as_slice() {
        made.push(erase(alloc, ty)?)?;
    }
    Ok(made)
}

/// The number of a candidate by its place; past 32 bits it wants memory.
fn number_of(place: usize) -> Result<u32, NoMemory>
    ensures { IfOk result (λ number. number ≡ place) }
{
    match u32::try_from(place) {
        Ok(number) => Ok(number),
        Err(_) => Err(NoMemory),
    }
}

/// A method as a candidate.
fn candidate_of(alloc: Global, place: usize, method: &Method) -> Result<Candidate, NoMemory>
    ensures { IfOk result (λ made. candidate_seen made ≡ candidate_of place (method_view method.now)) }
{
    let number = number_of(place)?;
    let parameters = all_erased(alloc, &method.signature.arguments)?;
    let has_variable_arity = is_flagged_variable(method.flags) && ends_in_array(&parameters);
    Ok(Candidate {
        number,
        parameters,
        has_variable_arity,
    })
}

/// Methods as candidates, in their order.
#[tactic(auto, using(crate::proofs::Turns::candidate_turns))]
pub fn candidates_of(alloc: Global, methods: &Methods) -> Result<Candidates, NoMemory>
    ensures { IfOk result (λ made. candidates_seen made ≡ candidates_of (all_methods methods.now)) }
{
    let mut candidates = Candidates::new(alloc);
    for (place, method) in methods.as_slice().iter().enumerate() {
        candidates.push(candidate_of(alloc, place, method)?)?;
    }
    Ok(candidates)
}

/// Puts a candidate at the end once more.
#[tactic(auto, using(crate::proofs::Turns::candidate_turns))]
fn put_copy(candidates: &mut Candidates, candidate: &Candidate) -> Result<(), NoMemory>
    ensures { OnOk result (candidates_seen candidates.new ≡ candidates_seen candidates.old ++ candidate_seen candidate.now ∷ []) }
{
    let copy = candidate.copied()?;
    candidates.push(copy)
}

/// Puts a candidate at the end once more, where it is taken.
pub fn put_if(
    candidates: &mut Candidates,
    is_taken: bool,
    candidate: &Candidate,
) -> Result<(), NoMemory>
    ensures { OnOk result (candidates_seen candidates.new ≡ (if is_taken then candidates_seen candidates.old ++ candidate_seen candidate.now ∷ [] else candidates_seen candidates.old)) }
{
    if !is_taken {
        return Ok(());
    }
    put_copy(candidates, candidate)
}
