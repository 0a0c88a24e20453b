//! How functions want their arguments written.

ghost use Rattle.std.specs.Prelude.{◌≡◌, IfOk, nat_eq, not, codes};
ghost use Rattle.std.specs.List.{list_all, list_any};
ghost use Rattle.pj_xexpressions.specs.Among.{is_among};
ghost use Rattle.pj_xexpressions.specs.Expressions.{is_pattern, are_flags, is_replacement};
ghost use Rattle.pj_xparse.specs.Bound.{names_of, IsCounted};
ghost use Rattle.pj_xparse.specs.NameFaults.{fits_role};
ghost use Rattle.pj_xreadings.specs.Seen.{seen_written};

use crate::bound::BoundNames;
use pj_base::{Names, NoMemory};
use pj_xreadings::{Role, Spelling};
use pj_xtokens::string_value;
use std::alloc::Global;

/// Whether the rule set gives the variable.
pub fn is_given(name: &str, variables: &Names) -> bool
    ensures { result ≡ is_among name.now variables.now }
{
    variables
        .as_slice()
        .iter()
        .any(|other| other.as_str() == name)
}

/// A pattern is a literal or a variable of the rule set.
fn is_pattern<'t>(written: Spelling<'t>, variables: &Names, bound: &BoundNames<'t>) -> bool
    requires { IsCounted bound.now }
    ensures { result ≡ is_pattern (record { given = variables.now; bound = names_of bound.now }) (seen_written written.entry) }
{
    match written {
        Spelling::Literal(_) | Spelling::Number => true,
        Spelling::Name(name) => is_given(name, variables) && !bound.contains(name),
        Spelling::Other => false,
    }
}

/// Whether a byte is one of the flags of a pattern.
fn is_flag(byte: u8) -> bool
    ensures { result ≡ list_any (nat_eq byte) (codes "ims") }
{
    byte == b'i' || byte == b'm' || byte == b's'
}

/// Whether each byte is one.
fn all_flags(bytes: &[u8]) -> bool
    ensures { result ≡ list_all (λ byte. list_any (nat_eq byte) (codes "ims")) bytes.now }
{
    bytes.iter().all(|byte| is_flag(*byte))
}

/// Flags are a string literal of the letters i, m and s.
fn are_flags(alloc: Global, written: Spelling<'_>) -> Result<bool, NoMemory>
    ensures { IfOk result (λ are. are ≡ are_flags (seen_written written.entry)) }
{
    match written {
        Spelling::Literal(token) => {
            let flags = string_value(alloc, token)?;
            Ok(all_flags(flags.as_str().as_bytes()))
        }
        _ => Ok(false),
    }
}

/// Whether a byte means itself in what matches are replaced by.
fn is_plain(byte: u8) -> bool
    ensures { result ≡ not (list_any (nat_eq byte) (codes "$\\")) }
{
    byte != b'$' && byte != b'\\'
}

/// Whether each byte does.
fn all_plain(bytes: &[u8]) -> bool
    ensures { result ≡ list_all (λ byte. not (list_any (nat_eq byte) (codes "$\\"))) bytes.now }
{
    bytes.iter().all(|byte| is_plain(*byte))
}

/// A replacement is a string literal without `$` and `\`.
fn is_replacement(alloc: Global, written: Spelling<'_>) -> Result<bool, NoMemory>
    ensures { IfOk result (λ is. is ≡ is_replacement (seen_written written.entry)) }
{
    match written {
        Spelling::Literal(token) => {
            let text = string_value(alloc, token)?;
            Ok(all_plain(text.as_str().as_bytes()))
        }
        _ => Ok(false),
    }
}

/// Whether the argument is written as its role wants it, where these variables are there.
pub fn fits_role<'t>(
    alloc: Global,
    role: Role,
    written: Spelling<'t>,
    variables: &Names,
    bound: &BoundNames<'t>,
) -> Result<bool, NoMemory>
    requires { IsCounted bound.now }
    ensures { IfOk result (λ fits. fits ≡ fits_role role (record { given = variables.now; bound = names_of bound.now }) (seen_written written.entry)) }
{
    match role {
        Role::Any => Ok(true),
        Role::Pattern => Ok(is_pattern(written, variables, bound)),
        Role::Replacement => is_replacement(alloc, written),
        Role::Flags => are_flags(alloc, written),
    }
}
