//! The expression that a text spells.

ghost use Rattle.std.specs.Prelude.{◌≡◌, ◌≢◌, IfOk, IfErr};
ghost use Rattle.std.specs.Str.{chars};
ghost use Rattle.pj_xexpressions.specs.Expressions.{IsExpression};
ghost use Rattle.pj_xexpressions.specs.Trees.{tree_of};
ghost use Rattle.pj_xparse.specs.Seen.{fault_of};
ghost use Rattle.pj_xparse.specs.Faults.{IsFault, named_fault};
ghost use Rattle.pj_xparse.specs.Spells.{Spells};
ghost use Rattle.pj_xparse.specs.declared.fault.XSyntax.TheVariants.{Memory};

use crate::fault::XSyntax;
use crate::laws::{outcomes_are_read, readings_are_expressions, sayings_end_with_runs};
use crate::named::{NameFault, first_fault};
use crate::syntax::syntax_fault;
use pj_base::{Names, NoMemory, Text};
use pj_xderive::{Parser, derivation};
use pj_xexpressions::Expr;
use pj_xmeaning::reading;
use pj_xtokens::{gaps_stand_in_front, tokens, tokens_are_not_empty};
use std::alloc::Global;

/// The fault of what is named, with a copy of the name.
fn named_fault(alloc: Global, fault: NameFault<'_>) -> Result<XSyntax, NoMemory>
    ensures { IfOk result (λ named. named ≡ named_fault (fault_of fault.entry)) }
{
    match fault {
        NameFault::Form(from) => Ok(XSyntax::Expected(from)),
        NameFault::Function(name, from) => {
            let name = Text::from_str(alloc, name)?;
            Ok(XSyntax::UnknownFunction(name, from))
        }
        NameFault::Variable(name, _) => {
            let name = Text::from_str(alloc, name)?;
            Ok(XSyntax::UnknownVariable(name))
        }
    }
}

/// The expression that the text spells, where the rule set gives these variables, or the text's first fault. The parser serves as many
/// texts as there are.
///
/// A fault of what is named stands before the place where the tokens have theirs, so it comes first: an unknown function, an
/// unbound variable, or an argument that is no pattern, no replacement or no flags. Of the tokens, `Outside` comes at one offset
/// before `Deep`, and that before `Expected`. `Token` comes where the tokens before the offset are an expression or begin one.
/// Offsets are bytes from 0. `Memory` comes only for want of memory, which a text of 2^32 bytes or more wants too.
pub fn parse_with(
    alloc: Global,
    parser: &Parser,
    text: &str,
    variables: &Names,
) -> Result<Expr, XSyntax>
    ensures spells { IfOk result (λ expr. Spells variables.now (chars text.now) (tree_of expr)) }
    ensures expression { IfOk result (IsExpression variables.now) }
    ensures fault { IfErr result (λ fault. fault ≢ Memory → IsFault variables.now (chars text.now) fault) }
{
    if text.len() > u32::MAX as usize {
        return Err(XSyntax::Memory);
    }
    let found = tokens(alloc, text)?;
    let tokens = found.list.as_slice();
    gaps_stand_in_front();
    tokens_are_not_empty();
    let run = derivation(alloc, parser, tokens)?;
    let read = reading(alloc, run.steps.as_slice(), tokens)?;
    outcomes_are_read();
    sayings_end_with_runs();
    if let Some(fault) = first_fault(alloc, read.names, variables)? {
        return Err(named_fault(alloc, fault)?);
    }
    if let Some(fault) = syntax_fault(tokens, found.end, run.end) {
        return Err(fault);
    }
    readings_are_expressions();
    Ok(read.expr)
}

/// The expression that the text spells, where the rule set gives these variables, or the text's first fault, as `parse_with` says it.
/// The parser is made for this text alone.
pub fn parse(alloc: Global, text: &str, variables: &Names) -> Result<Expr, XSyntax>
    ensures spells { IfOk result (λ expr. Spells variables.now (chars text.now) (tree_of expr)) }
    ensures expression { IfOk result (IsExpression variables.now) }
    ensures fault { IfErr result (λ fault. fault ≢ Memory → IsFault variables.now (chars text.now) fault) }
{
    let parser = Parser::new(alloc)?;
    parse_with(alloc, &parser, text, variables)
}
