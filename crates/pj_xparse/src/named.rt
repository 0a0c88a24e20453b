//! The first fault of what is named.

ghost use Rattle.std.specs.Prelude.{◌≡◌, ℕ, List, IfOk, OnOk};
ghost use Rattle.std.specs.Option.{option_map};
ghost use Rattle.pj_xparse.specs.Bound.{names_of, IsCounted};
ghost use Rattle.pj_xparse.specs.NameFaults.{callee_takes, is_function, is_bound, fault_in, scope_behind, first_fault};
ghost use Rattle.pj_xparse.specs.Seen.{fault_of};
ghost use Rattle.pj_xreadings.specs.Seen.{seen_mention, seen_mentions};

use crate::bound::BoundNames;
use crate::written::{fits_role, is_given};
use pj_base::{Names, NoMemory};
use pj_xexpressions::{Callee, function_named};
use pj_xreadings::Named;
use std::alloc::Global;

/// A fault of what is named. Offsets are bytes of the text, from 0.
#[derive(Clone, Copy)]
pub enum NameFault<'t> {
    /// An argument is no pattern, no replacement or no flags; with the offset of its first token.
    Form(u32),
    /// There is no function of the name with so many arguments; with the offset of the name.
    Function(&'t str, u32),
    /// Nothing binds the variable; with the offset of its `$`.
    Variable(&'t str, u32),
}

/// Whether there is such a function, and it takes so many arguments.
fn takes(callee: Option<Callee>, count: usize) -> bool
    ensures { result ≡ callee_takes callee count }
{
    match callee {
        Some(Callee::XPath(function)) => function.takes(count),
        Some(Callee::Pmd(function)) => function.takes(count),
        None => false,
    }
}

/// Whether there is a function of the name that takes so many arguments.
fn is_function(name: &str, count: usize) -> bool
    ensures { result ≡ is_function name.now count }
{
    takes(function_named(name), count)
}

/// Whether the variable is bound around the place, or the rule set gives it.
fn is_bound<'t>(name: &'t str, variables: &Names, bound: &BoundNames<'t>) -> bool
    requires { IsCounted bound.now }
    ensures { result ≡ is_bound name.now (record { given = variables.now; bound = names_of bound.now }) }
{
    bound.contains(name) || is_given(name, variables)
}

/// The fault of one mention, where these variables are there.
fn fault_in<'t>(
    alloc: Global,
    mention: Named<'t>,
    variables: &Names,
    bound: &BoundNames<'t>,
) -> Result<Option<NameFault<'t>>, NoMemory>
    requires { IsCounted bound.now }
    ensures { IfOk result (λ fault. option_map fault_of fault ≡ fault_in (record { given = variables.now; bound = names_of bound.now }) (seen_mention mention.entry)) }
{
    let (good, fault) = match mention {
        Named::Variable(name, from) => (
            is_bound(name, variables, bound),
            NameFault::Variable(name, from),
        ),
        Named::Call(name, count, from) => {
            (is_function(name, count), NameFault::Function(name, from))
        }
        Named::Argument(role, written, from) => (
            fits_role(alloc, role, written, variables, bound)?,
            NameFault::Form(from),
        ),
        Named::Binds(_) | Named::Ends(_) => return Ok(None),
    };
    Ok(if good { None } else { Some(fault) })
}

/// Goes on to behind a mention.
fn pass<'t>(bound: &mut BoundNames<'t>, mention: Named<'t>) -> Result<(), NoMemory>
    requires { IsCounted bound.old }
    ensures names { OnOk result ((given : List (List ℕ)) → record { given = given; bound = names_of bound.new } ≡ scope_behind (record { given = given; bound = names_of bound.old }) (seen_mention mention.entry)) }
    ensures counts { OnOk result (IsCounted bound.new) }
{
    match mention {
        Named::Binds(name) => bound.bind(name),
        Named::Ends(count) => bound.end(count),
        _ => Ok(()),
    }
}

/// The first fault of what a text names, from the last name on, where the rule set gives these variables.
pub fn first_fault<'t>(
    alloc: Global,
    names: Vec<Named<'t>>,
    variables: &Names,
) -> Result<Option<NameFault<'t>>, NoMemory>
    ensures { IfOk result (λ fault. option_map fault_of fault ≡ first_fault variables.now (seen_mentions names.entry.items)) }
{
    let mut left = names;
    let mut bound = BoundNames::new(alloc);
    'mentions: while let Some(mention) = left.pop() {
        if let Some(fault) = fault_in(alloc, mention, variables, &bound)? {
            return Ok(Some(fault));
        }
        pass(&mut bound, mention)?;
    }
    Ok(None)
}
