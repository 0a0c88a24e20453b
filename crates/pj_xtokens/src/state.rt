//! The scanner's states. Each stands for what was read of a token.

ghost use Rattle.std.specs.Prelude.{◌≡◌};
ghost use Rattle.pj_xtokens.specs.Characters.{holds};
ghost use Rattle.pj_xtokens.specs.States.{step, spelled, first_step, sign_step};

use crate::characters::{continues_name, starts_name};
use crate::token::{Sign, TokenKind};

/// What was read of a token.
#[derive(Clone, Copy, Debug, PartialEq, Eq)]
pub enum State {
    /// nothing
    Start,
    /// a name without a prefix
    Name,
    /// a name and a colon
    NameColon,
    /// a name with its prefix
    PrefixedName,
    /// digits
    Integer,
    /// digits and a point, before, within or behind them
    Decimal,
    /// a number and `e` or `E`
    ExponentMark,
    /// the same and a sign
    ExponentSign,
    /// a number with its exponent
    Double,
    /// a quotation mark and characters
    QuoteBody,
    /// a literal in quotation marks, which a further one goes on with
    QuoteEnd,
    /// an apostrophe and characters
    ApostropheBody,
    /// a literal in apostrophes, which a further one goes on with
    ApostropheEnd,
    /// a sign
    Sign(Sign),
}

/// The state that a token's first character leads to.
#[tactic(auto, unfolding(crate::specs::States::first_step))]
fn first(c: char) -> Option<State>
    ensures { result ≡ first_step (λ s. holds s c) }
{
    if starts_name(c) {
        return Some(State::Name);
    }
    match c {
        '0'..='9' => Some(State::Integer),
        '"' => Some(State::QuoteBody),
        '\'' => Some(State::ApostropheBody),
        '(' => Some(State::Sign(Sign::LeftParenthesis)),
        ')' => Some(State::Sign(Sign::RightParenthesis)),
        '[' => Some(State::Sign(Sign::LeftBracket)),
        ']' => Some(State::Sign(Sign::RightBracket)),
        '{' => Some(State::Sign(Sign::LeftBrace)),
        '}' => Some(State::Sign(Sign::RightBrace)),
        ',' => Some(State::Sign(Sign::Comma)),
        '.' => Some(State::Sign(Sign::Dot)),
        '/' => Some(State::Sign(Sign::Slash)),
        ':' => Some(State::Sign(Sign::Colon)),
        '!' => Some(State::Sign(Sign::Bang)),
        '$' => Some(State::Sign(Sign::Dollar)),
        '*' => Some(State::Sign(Sign::Star)),
        '+' => Some(State::Sign(Sign::Plus)),
        '-' => Some(State::Sign(Sign::Minus)),
        '<' => Some(State::Sign(Sign::Less)),
        '=' => Some(State::Sign(Sign::Equal)),
        '>' => Some(State::Sign(Sign::Greater)),
        '?' => Some(State::Sign(Sign::Question)),
        '@' => Some(State::Sign(Sign::At)),
        '|' => Some(State::Sign(Sign::Bar)),
        '#' => Some(State::Sign(Sign::Hash)),
        _ => None,
    }
}

/// The state behind a sign and one more character, where some word goes on so.
#[tactic(auto, unfolding(crate::specs::States::sign_step))]
fn after_sign(sign: Sign, c: char) -> Option<State>
    ensures { result ≡ sign_step (λ s. holds s c) sign }
{
    match sign {
        Sign::Dot => match c {
            '0'..='9' => Some(State::Decimal),
            '.' => Some(State::Sign(Sign::DotDot)),
            _ => None,
        },
        Sign::Slash => match c {
            '/' => Some(State::Sign(Sign::SlashSlash)),
            _ => None,
        },
        Sign::Colon => match c {
            ':' => Some(State::Sign(Sign::ColonColon)),
            '=' => Some(State::Sign(Sign::ColonEqual)),
            _ => None,
        },
        Sign::Bang => match c {
            '=' => Some(State::Sign(Sign::BangEqual)),
            _ => None,
        },
        Sign::Less => match c {
            '<' => Some(State::Sign(Sign::LessLess)),
            '=' => Some(State::Sign(Sign::LessEqual)),
            _ => None,
        },
        Sign::Equal => match c {
            '>' => Some(State::Sign(Sign::Arrow)),
            _ => None,
        },
        Sign::Greater => match c {
            '>' => Some(State::Sign(Sign::GreaterGreater)),
            '=' => Some(State::Sign(Sign::GreaterEqual)),
            _ => None,
        },
        Sign::Bar => match c {
            '|' => Some(State::Sign(Sign::BarBar)),
            _ => None,
        },
        Sign::LeftParenthesis
        | Sign::RightParenthesis
        | Sign::LeftBracket
        | Sign::RightBracket
        | Sign::LeftBrace
        | Sign::RightBrace
        | Sign::Comma
        | Sign::DotDot
        | Sign::SlashSlash
        | Sign::ColonColon
        | Sign::ColonEqual
        | Sign::BangEqual
        | Sign::Dollar
        | Sign::Star
        | Sign::Plus
        | Sign::Minus
        | Sign::LessLess
        | Sign::LessEqual
        | Sign::Arrow
        | Sign::GreaterGreater
        | Sign::GreaterEqual
        | Sign::Question
        | Sign::At
        | Sign::BarBar
        | Sign::Hash => None,
    }
}

/// The state behind one more character, where some word goes on so.
pub fn step(state: State, c: char) -> Option<State>
    ensures { result ≡ step (λ s. holds s c) state }
{
    match state {
        State::Start => first(c),
        State::Name if continues_name(c) => Some(State::Name),
        State::Name => {
            if c == ':' {
                Some(State::NameColon)
            } else {
                None
            }
        }
        State::NameColon if starts_name(c) => Some(State::PrefixedName),
        State::PrefixedName if continues_name(c) => Some(State::PrefixedName),
        State::NameColon | State::PrefixedName => None,
        State::Integer => match c {
            '0'..='9' => Some(State::Integer),
            '.' => Some(State::Decimal),
            'e' | 'E' => Some(State::ExponentMark),
            _ => None,
        },
        State::Decimal => match c {
            '0'..='9' => Some(State::Decimal),
            'e' | 'E' => Some(State::ExponentMark),
            _ => None,
        },
        State::ExponentMark => match c {
            '0'..='9' => Some(State::Double),
            '+' | '-' => Some(State::ExponentSign),
            _ => None,
        },
        State::ExponentSign | State::Double => match c {
            '0'..='9' => Some(State::Double),
            _ => None,
        },
        State::QuoteBody => match c {
            '"' => Some(State::QuoteEnd),
            _ => Some(State::QuoteBody),
        },
        State::QuoteEnd => match c {
            '"' => Some(State::QuoteBody),
            _ => None,
        },
        State::ApostropheBody => match c {
            '\'' => Some(State::ApostropheEnd),
            _ => Some(State::ApostropheBody),
        },
        State::ApostropheEnd => match c {
            '\'' => Some(State::ApostropheBody),
            _ => None,
        },
        State::Sign(sign) => after_sign(sign, c),
    }
}

/// What the whole word that leads to the state is, where it is one.
pub fn spelled(state: State) -> Option<TokenKind>
    ensures { result ≡ spelled state }
{
    match state {
        State::Name | State::PrefixedName => Some(TokenKind::Name),
        State::Integer => Some(TokenKind::Integer),
        State::Decimal => Some(TokenKind::Decimal),
        State::Double => Some(TokenKind::Double),
        State::QuoteEnd | State::ApostropheEnd => Some(TokenKind::String),
        State::Sign(sign) => Some(TokenKind::Sign(sign)),
        State::Start | State::NameColon | State::ExponentMark | State::ExponentSign => None,
        State::QuoteBody | State::ApostropheBody => None,
    }
}
