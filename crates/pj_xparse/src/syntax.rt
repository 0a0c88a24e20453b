//! The fault of a text's tokens, and of what stands behind them.

ghost use Rattle.std.specs.Prelude.{◌≡◌, map, slice_get};
ghost use Rattle.pj_xtokens.specs.Answer.{lexed_of};
ghost use Rattle.pj_xparse.specs.Faults.{fault_at, fault_of_end, fault_behind, syntax_fault};
ghost use Rattle.pj_xparse.specs.declared.fault.XSyntax.TheVariants.{Expected, Outside};

use crate::fault::XSyntax;
use pj_ll::End as Outcome;
use pj_xtokens::{End, Token};

/// One more than the greatest nesting of a place.
const TOO_DEEP: u32 = 201;

/// The fault behind the last token, where something would have to stand there.
fn fault_of_end(end: End) -> XSyntax
    ensures { result ≡ fault_of_end end }
{
    match end {
        End::Text(length) => XSyntax::Expected(length),
        End::Fault(from) => XSyntax::Token(from),
    }
}

/// The fault behind the last token of an expression.
fn fault_behind(end: End) -> Option<XSyntax>
    ensures { result ≡ fault_behind end }
{
    match end {
        End::Text(_) => None,
        End::Fault(from) => Some(XSyntax::Token(from)),
    }
}

/// The fault of the token at a place that cannot follow, or of the end.
fn stopped_at(tokens: &[Token<'_>], end: End, place: u32) -> XSyntax
    ensures { result ≡ fault_at Expected (slice_get (map lexed_of tokens.now) place) end }
{
    match tokens.get(place as usize) {
        Some(token) => XSyntax::Expected(token.from),
        None => fault_of_end(end),
    }
}

/// The fault of the token at a place with which something begins that is left out.
fn left_out_at(tokens: &[Token<'_>], end: End, place: u32) -> XSyntax
    ensures { result ≡ fault_at Outside (slice_get (map lexed_of tokens.now) place) end }
{
    match tokens.get(place as usize) {
        Some(token) => XSyntax::Outside(token.from),
        None => fault_of_end(end),
    }
}

/// The fault of the tokens, which end so and have this outcome, and of what stands behind them; `None` where the text ends behind
/// the tokens of an expression.
pub fn syntax_fault(tokens: &[Token<'_>], end: End, outcome: Outcome) -> Option<XSyntax>
    ensures { result ≡ syntax_fault (map lexed_of tokens.now) end outcome }
{
    match outcome {
        Outcome::Whole => fault_behind(end),
        Outcome::Stops(place) => Some(stopped_at(tokens, end, place)),
        Outcome::LeftOut(place) => Some(left_out_at(tokens, end, place)),
        Outcome::TooDeep(_) => Some(XSyntax::Deep(TOO_DEEP)),
    }
}
