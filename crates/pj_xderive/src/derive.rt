//! The derivation of a text's tokens.

ghost use Rattle.std.specs.Prelude.{◌≡◌, ◌+◌, ◌<◌, ◌≤◌, ◌^◌, IfOk, IsTrue, IsFalse, Some, length, map, take, slice_get};
ghost use Rattle.std.specs.Str.{chars};
ghost use Rattle.pj_ll.specs.Leads.{CanGoOn};
ghost use Rattle.pj_ll.specs.Outcome as ll;
ghost use Rattle.pj_ll.specs.Steps.{ArePlaced, productions_in};
ghost use Rattle.pj_ll.specs.declared.parser.End.TheVariants.{LeftOut, Stops, TooDeep};
ghost use Rattle.pj_xtokens.specs.Size.{size};
ghost use Rattle.pj_xtokens.specs.Answer.{lexed_of};
ghost use Rattle.pj_xgrammar.specs.Standing.{are_apart, is_left_out_kind, is_left_out_token, stands_apart};
ghost use Rattle.pj_xderive.specs.Expressions.{IsOutcome, IsRun, LeadTo};
ghost use Rattle.pj_xderive.specs.Following.{CouldFollow, HasOutcome, IsReadAt, is_past, is_too_deep, terminals_with_last};
ghost use Rattle.pj_xgrammar.specs.Terminals.{numbers};
ghost use Rattle.pj_xgrammar.specs.XPath.{greatest_nesting, xpath_grammar};

use crate::parser::Parser;
use pj_base::NoMemory;
use pj_ll::{End, Run};
use pj_xgrammar::{Behind, Terminal};
use pj_xtokens::{Token, TokenKind};
use std::alloc::Global;

/// The numbers of the tokens' terminals.
fn terminals_of(alloc: Global, tokens: &[Token<'_>]) -> Result<Vec<u16>, NoMemory>
    ensures { IfOk result (λ found. found.items ≡ numbers (map lexed_of tokens.now)) }
{
    let mut found = Vec::new(alloc);
    let mut rest = tokens;
    while let [token, more @ ..] = rest {
        found.push(Terminal::of(token, Behind::first(more)).number())?;
        rest = more;
    }
    Ok(found)
}

/// Whether a run ended behind the place.
fn is_past(end: End, place: u32) -> bool
    ensures { result ≡ is_past end place }
{
    match end {
        End::Whole => true,
        End::Stops(at) | End::LeftOut(at) | End::TooDeep(at) => place < at,
    }
}

/// The terminals before the place, and then the token as it is before an ordinary name.
fn with_last(
    alloc: Global,
    terminals: &[u16],
    place: u32,
    token: &Token<'_>,
) -> Result<Vec<u16>, NoMemory>
    requires within { place ≤ length terminals.now }
    ensures { IfOk result (λ found. found.items ≡ terminals_with_last terminals.now place (lexed_of token.now)) }
{
    let mut found = Vec::new(alloc);
    found.extend_from_slice(&terminals[..place as usize])?;
    found.push(Terminal::of(token, Behind::Name).number())?;
    Ok(found)
}

/// Whether the token at the place at which the run over the terminals stopped could stand there, if another token stood
/// behind it.
fn could_follow(
    alloc: Global,
    parser: &Parser,
    terminals: &[u16],
    place: u32,
    token: &Token<'_>,
) -> Result<bool, NoMemory>
    requires few { length terminals.now < 2 ^ 32 }
    requires stops { ll.StopsAt xpath_grammar terminals.now greatest_nesting place }
    requires read { IsReadAt terminals.now place (lexed_of token.now) }
    ensures could { IfOk result (λ could. IsTrue could → CouldFollow terminals.now place (lexed_of token.now)) }
    ensures could_not { IfOk result (λ could. IsFalse could → ¬ CouldFollow terminals.now place (lexed_of token.now)) }
{
    let tried = with_last(alloc, terminals, place, token)?;
    let run = parser.run(alloc, tried.as_slice())?;
    Ok(is_past(run.end, place))
}

/// Whether it is a decimal or double number, which is left out wherever it stands.
fn is_left_out_kind(kind: TokenKind) -> bool
    ensures { result ≡ is_left_out_kind kind }
{
    match kind {
        TokenKind::Decimal | TokenKind::Double => true,
        _ => false,
    }
}

/// Whether such a number stands at the place.
fn is_left_out_at(tokens: &[Token<'_>], place: u32) -> bool
    ensures { result ≡ is_left_out_token (slice_get (map lexed_of tokens.now) place) }
{
    match tokens.get(place as usize) {
        Some(token) => is_left_out_kind(token.kind),
        None => false,
    }
}

/// The outcome of the tokens, where the run over their terminals stopped at the place.
fn stopped(
    alloc: Global,
    parser: &Parser,
    tokens: &[Token<'_>],
    terminals: &[u16],
    place: u32,
) -> Result<End, NoMemory>
    requires few { length tokens.now < 2 ^ 32 }
    requires read { terminals.now ≡ numbers (map lexed_of tokens.now) }
    requires stops { ll.StopsAt xpath_grammar (numbers (map lexed_of tokens.now)) greatest_nesting place }
    ensures { IfOk result (HasOutcome (map lexed_of tokens.now) (Stops place)) }
{
    let Some(token) = tokens.get(place as usize) else {
        return Ok(End::Stops(place));
    };
    if is_left_out_kind(token.kind) {
        return Ok(End::LeftOut(place));
    }
    if could_follow(alloc, parser, terminals, place, token)? {
        return Ok(End::Stops(place + 1));
    }
    Ok(End::Stops(place))
}

/// The offset at which a text ends that begins at this one.
fn offset_behind(from: u32, text: &str) -> u64
    ensures { result ≡ from + size (chars text.now) }
{
    from as u64 + text.len() as u64
}

/// Whether white space or comments stand between the two.
fn are_apart(before: &Token<'_>, token: &Token<'_>) -> bool
    ensures { result ≡ are_apart (Some (lexed_of before.now)) (Some (lexed_of token.now)) }
{
    offset_behind(before.from, before.text) < token.from as u64
}

/// Whether white space or comments stand before the token at the place, behind another one.
fn stands_apart(tokens: &[Token<'_>], place: u32) -> bool
    ensures { result ≡ stands_apart (map lexed_of tokens.now) place }
{
    let Some(token) = tokens.get(place as usize) else {
        return false;
    };
    if place == 0 {
        return false;
    }
    are_apart(&tokens[place as usize - 1], token)
}

/// Whether a run ended where too much is open.
fn is_too_deep(end: End) -> bool
    ensures { result ≡ is_too_deep end }
{
    match end {
        End::TooDeep(_) => true,
        End::Whole | End::Stops(_) | End::LeftOut(_) => false,
    }
}

/// Whether too much is open at the place at which the run over the terminals came to what is left out.
fn too_much_is_open(
    alloc: Global,
    parser: &Parser,
    terminals: &[u16],
    place: u32,
) -> Result<bool, NoMemory>
    requires few { length terminals.now < 2 ^ 32 }
    requires left_out { ll.IsLeftOutFirst xpath_grammar terminals.now greatest_nesting place }
    ensures deep { IfOk result (λ is_deep. IsTrue is_deep → ll.IsTooDeepAt xpath_grammar terminals.now greatest_nesting place) }
    ensures not_deep { IfOk result (λ is_deep. IsFalse is_deep → ¬ ll.IsTooDeepAt xpath_grammar terminals.now greatest_nesting place) }
{
    let run = parser.run(alloc, &terminals[..place as usize])?;
    Ok(is_too_deep(run.end))
}

/// The outcome of the tokens, where the run over their terminals came to what is left out at the place. What nests too deep is reached where the
/// token before the place ends, so before white space and comments.
fn left_out(
    alloc: Global,
    parser: &Parser,
    tokens: &[Token<'_>],
    terminals: &[u16],
    place: u32,
) -> Result<End, NoMemory>
    requires few { length tokens.now < 2 ^ 32 }
    requires read { terminals.now ≡ numbers (map lexed_of tokens.now) }
    requires left_out { ll.IsLeftOutFirst xpath_grammar (numbers (map lexed_of tokens.now)) greatest_nesting place }
    ensures { IfOk result (HasOutcome (map lexed_of tokens.now) (LeftOut place)) }
{
    if !stands_apart(tokens, place) {
        return Ok(End::LeftOut(place));
    }
    if too_much_is_open(alloc, parser, terminals, place)? {
        return Ok(End::TooDeep(place));
    }
    Ok(End::LeftOut(place))
}

/// The outcome of the tokens, where the run over their terminals came to a place at which too much is open.
fn too_deep(tokens: &[Token<'_>], place: u32) -> End
    requires deep { ll.IsTooDeepFirst xpath_grammar (numbers (map lexed_of tokens.now)) greatest_nesting place }
    ensures { HasOutcome (map lexed_of tokens.now) (TooDeep place) result }
{
    if is_left_out_at(tokens, place) && !stands_apart(tokens, place) {
        End::LeftOut(place)
    } else {
        End::TooDeep(place)
    }
}

/// The outcome of the tokens, where the run over their terminals ended so.
fn outcome(
    alloc: Global,
    parser: &Parser,
    tokens: &[Token<'_>],
    terminals: &[u16],
    end: End,
) -> Result<End, NoMemory>
    requires few { length tokens.now < 2 ^ 32 }
    requires read { terminals.now ≡ numbers (map lexed_of tokens.now) }
    requires ends { ll.IsEnd xpath_grammar (numbers (map lexed_of tokens.now)) greatest_nesting end }
    ensures { IfOk result (HasOutcome (map lexed_of tokens.now) end) }
{
    match end {
        End::Whole => Ok(end),
        End::TooDeep(place) => Ok(too_deep(tokens, place)),
        End::Stops(place) => stopped(alloc, parser, tokens, terminals, place),
        End::LeftOut(place) => left_out(alloc, parser, tokens, terminals, place),
    }
}

/// The leftmost derivation of the tokens of an expression, by the numbers of its productions and the places at which they begin, or the first place
/// at which something is left out, more than 200 things that nest are open, or what stands there cannot follow; with the productions
/// up to there. Places are numbers of tokens, from 0, and the number of all tokens is the place of the end. There are fewer than
/// 2^32 tokens. It fails only for want of memory.
pub fn derivation(alloc: Global, parser: &Parser, tokens: &[Token<'_>]) -> Result<Run, NoMemory>
    requires few { length tokens.now < 2 ^ 32 }
    ensures outcome { IfOk result (λ run. IsOutcome (map lexed_of tokens.now) run.end) }
    ensures leads { IfOk result (λ run. LeadTo (map lexed_of tokens.now) (productions_in run.steps.items) run.end) }
    ensures run { IfOk result (λ run. IsRun (map lexed_of tokens.now) (productions_in run.steps.items)) }
    ensures places { IfOk result (λ run. ArePlaced xpath_grammar (numbers (map lexed_of tokens.now)) run.steps.items) }
{
    let terminals = terminals_of(alloc, tokens)?;
    let run = parser.run(alloc, terminals.as_slice())?;
    let end = outcome(alloc, parser, tokens, terminals.as_slice(), run.end)?;
    Ok(Run {
        steps: run.steps,
        end,
    })
}
