//! Methods, as signature patterns say them.
ghost use Rattle.std.specs.Prelude.{◌≡◌};
ghost use Rattle.pj_names.specs.JavaType.{java_type, type_list};
ghost use Rattle.pj_names.specs.Told.{Asks};
ghost use Rattle.pj_type_tests.specs.Methods.{each_parameter_is, is_called_on, is_method_named, parameter_is, parameters_are, receiver_is};

use crate::names::has_name;
use crate::types::type_is;
use pj_names::{AskFault, Oracle, Ty, TyList};
use pj_signature_patterns::{MethodPattern, ParametersPattern, SigPattern, TypePattern};
use std::alloc::Global;

/// Whether a method has the name that a pattern asks for. The name of a constructor is `<init>` (JVMS 2.9.1).
pub fn is_method_named(pattern: &MethodPattern, name: &str) -> bool
    ensures { result ≡ is_method_named pattern.now name.now }
{
    match pattern {
        MethodPattern::Any => true,
        MethodPattern::Constructor => "<init>" == name,
        MethodPattern::Named(wanted) => wanted.as_str() == name,
    }
}

/// Whether the type on which a method is called is as a pattern says.
#[tactic(auto, using(pj_names::proofs::AskingLaws::asking_steps))]
fn receiver_is<O: Oracle>(
    alloc: Global,
    oracle: &mut O,
    pattern: &TypePattern,
    receiver: &Ty,
) -> Result<bool, AskFault>
    ensures { Asks (receiver_is pattern.now (java_type receiver.now)) (O.tells oracle.old) (O.tells oracle.new) result }
{
    match pattern {
        TypePattern::Any => Ok(true),
        TypePattern::Named(name) => type_is(alloc, oracle, receiver, name.as_str()),
    }
}

/// Whether a parameter is as a pattern says.
fn parameter_is(pattern: &TypePattern, parameter: &Ty) -> bool
    ensures { result ≡ parameter_is pattern.now (java_type parameter.now) }
{
    match pattern {
        TypePattern::Any => true,
        TypePattern::Named(name) => has_name(parameter, name.as_str()),
    }
}

/// Whether each parameter is as the pattern at its place says, and there are as many of both.
fn each_parameter_is(patterns: &[TypePattern], parameters: &[Ty]) -> bool
    ensures { result ≡ each_parameter_is patterns.now (type_list parameters.now) }
{
    let mut rest = parameters;
    for pattern in patterns {
        let [parameter, behind @ ..] = rest else {
            return false;
        };
        if !parameter_is(pattern, parameter) {
            return false;
        }
        rest = behind;
    }
    rest.is_empty()
}

/// Whether the parameters of a method are as a pattern says.
fn parameters_are(pattern: &ParametersPattern, parameters: &TyList) -> bool
    ensures { result ≡ parameters_are pattern.now (type_list parameters.now) }
{
    match pattern {
        ParametersPattern::Any => true,
        ParametersPattern::Listed(patterns) => each_parameter_is(
            patterns.as_slice(),
            parameters.as_slice(),
        ),
    }
}

/// Whether a method that is called on a type, with these parameters, is as a pattern says but for its name.
///
/// The type is first looked at along its supertypes (JLS 4.10.2), and then the parameters by the names of their erasures (JLS 4.6), which asks nothing.
#[tactic(auto, using(pj_names::proofs::AskingLaws::asking_steps))]
pub fn is_called_on<O: Oracle>(
    alloc: Global,
    oracle: &mut O,
    pattern: &SigPattern,
    receiver: &Ty,
    parameters: &TyList,
) -> Result<bool, AskFault>
    ensures { Asks (is_called_on pattern.now (java_type receiver.now) (type_list parameters.now)) (O.tells oracle.old) (O.tells oracle.new) result }
{
    let is = receiver_is(alloc, oracle, &pattern.receiver, receiver)?;
    let are = parameters_are(&pattern.parameters, parameters);
    Ok(is && are)
}
