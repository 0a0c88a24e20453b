//! The states within separators and operators.

ghost use Rattle.std.specs.Prelude.{◌≡◌};
ghost use Rattle.pj_lex.specs.Characters.{holds};
ghost use Rattle.pj_lex.specs.States.{sign_step, sign_spelled};

use crate::category::Category;
use crate::comment::CommentState;
use crate::float::FloatState;
use crate::state::State;
use crate::token::TokenKind;

/// The states within separators and operators.
#[derive(Clone, Copy, Debug, PartialEq, Eq)]
pub enum SignState {
    LeftParenthesis,
    RightParenthesis,
    LeftBrace,
    RightBrace,
    LeftBracket,
    RightBracket,
    Semicolon,
    Comma,
    Dot,
    Ellipsis,
    At,
    ColonColon,
    Assign,
    Less,
    Bang,
    Tilde,
    Question,
    Colon,
    Arrow,
    EqualEqual,
    LessEqual,
    BangEqual,
    AndAnd,
    OrOr,
    PlusPlus,
    MinusMinus,
    Plus,
    Minus,
    Star,
    Slash,
    Ampersand,
    Bar,
    Caret,
    Percent,
    LessLess,
    PlusAssign,
    MinusAssign,
    StarAssign,
    SlashAssign,
    AmpersandAssign,
    BarAssign,
    CaretAssign,
    PercentAssign,
    LessLessAssign,
    Greater,
    /// `..`, which only a third dot makes a sign
    DotDot,
}

/// The state behind one more character, where some word goes on so.
#[tactic(auto, unfolding(crate::specs::States::sign_step))]
pub fn after_sign(state: SignState, c: char) -> Option<State>
    ensures { result ≡ sign_step (λ s. holds s c) state }
{
    match state {
        SignState::Dot => match c {
            '0'..='9' => Some(State::Float(FloatState::Fraction)),
            '.' => Some(State::Sign(SignState::DotDot)),
            _ => None,
        },
        SignState::Assign => match c {
            '=' => Some(State::Sign(SignState::EqualEqual)),
            _ => None,
        },
        SignState::Less => match c {
            '<' => Some(State::Sign(SignState::LessLess)),
            '=' => Some(State::Sign(SignState::LessEqual)),
            _ => None,
        },
        SignState::Bang => match c {
            '=' => Some(State::Sign(SignState::BangEqual)),
            _ => None,
        },
        SignState::Colon => match c {
            ':' => Some(State::Sign(SignState::ColonColon)),
            _ => None,
        },
        SignState::Plus => match c {
            '+' => Some(State::Sign(SignState::PlusPlus)),
            '=' => Some(State::Sign(SignState::PlusAssign)),
            _ => None,
        },
        SignState::Minus => match c {
            '-' => Some(State::Sign(SignState::MinusMinus)),
            '>' => Some(State::Sign(SignState::Arrow)),
            '=' => Some(State::Sign(SignState::MinusAssign)),
            _ => None,
        },
        SignState::Star => match c {
            '=' => Some(State::Sign(SignState::StarAssign)),
            _ => None,
        },
        SignState::Slash => match c {
            '/' => Some(State::Comment(CommentState::LineComment)),
            '*' => Some(State::Comment(CommentState::CommentOpening)),
            '=' => Some(State::Sign(SignState::SlashAssign)),
            _ => None,
        },
        SignState::Ampersand => match c {
            '&' => Some(State::Sign(SignState::AndAnd)),
            '=' => Some(State::Sign(SignState::AmpersandAssign)),
            _ => None,
        },
        SignState::Bar => match c {
            '|' => Some(State::Sign(SignState::OrOr)),
            '=' => Some(State::Sign(SignState::BarAssign)),
            _ => None,
        },
        SignState::Caret => match c {
            '=' => Some(State::Sign(SignState::CaretAssign)),
            _ => None,
        },
        SignState::Percent => match c {
            '=' => Some(State::Sign(SignState::PercentAssign)),
            _ => None,
        },
        SignState::LessLess => match c {
            '=' => Some(State::Sign(SignState::LessLessAssign)),
            _ => None,
        },
        SignState::DotDot => match c {
            '.' => Some(State::Sign(SignState::Ellipsis)),
            _ => None,
        },
        SignState::LeftParenthesis
        | SignState::RightParenthesis
        | SignState::LeftBrace
        | SignState::RightBrace
        | SignState::LeftBracket
        | SignState::RightBracket
        | SignState::Semicolon
        | SignState::Comma
        | SignState::Ellipsis
        | SignState::At
        | SignState::ColonColon
        | SignState::Tilde
        | SignState::Question
        | SignState::Arrow
        | SignState::EqualEqual
        | SignState::LessEqual
        | SignState::BangEqual
        | SignState::AndAnd
        | SignState::OrOr
        | SignState::PlusPlus
        | SignState::MinusMinus
        | SignState::PlusAssign
        | SignState::MinusAssign
        | SignState::StarAssign
        | SignState::SlashAssign
        | SignState::AmpersandAssign
        | SignState::BarAssign
        | SignState::CaretAssign
        | SignState::PercentAssign
        | SignState::LessLessAssign
        | SignState::Greater => None,
    }
}

/// What was spelled, where the characters read are the whole of a word.
#[tactic(auto, unfolding(crate::specs::States::sign_spelled))]
pub fn sign_category(state: SignState) -> Option<Category>
    ensures { result ≡ sign_spelled state }
{
    match state {
        SignState::LeftParenthesis => Some(Category::Token(TokenKind::LeftParenthesis)),
        SignState::RightParenthesis => Some(Category::Token(TokenKind::RightParenthesis)),
        SignState::LeftBrace => Some(Category::Token(TokenKind::LeftBrace)),
        SignState::RightBrace => Some(Category::Token(TokenKind::RightBrace)),
        SignState::LeftBracket => Some(Category::Token(TokenKind::LeftBracket)),
        SignState::RightBracket => Some(Category::Token(TokenKind::RightBracket)),
        SignState::Semicolon => Some(Category::Token(TokenKind::Semicolon)),
        SignState::Comma => Some(Category::Token(TokenKind::Comma)),
        SignState::Dot => Some(Category::Token(TokenKind::Dot)),
        SignState::Ellipsis => Some(Category::Token(TokenKind::Ellipsis)),
        SignState::At => Some(Category::Token(TokenKind::At)),
        SignState::ColonColon => Some(Category::Token(TokenKind::ColonColon)),
        SignState::Assign => Some(Category::Token(TokenKind::Assign)),
        SignState::Less => Some(Category::Token(TokenKind::Less)),
        SignState::Bang => Some(Category::Token(TokenKind::Bang)),
        SignState::Tilde => Some(Category::Token(TokenKind::Tilde)),
        SignState::Question => Some(Category::Token(TokenKind::Question)),
        SignState::Colon => Some(Category::Token(TokenKind::Colon)),
        SignState::Arrow => Some(Category::Token(TokenKind::Arrow)),
        SignState::EqualEqual => Some(Category::Token(TokenKind::EqualEqual)),
        SignState::LessEqual => Some(Category::Token(TokenKind::LessEqual)),
        SignState::BangEqual => Some(Category::Token(TokenKind::BangEqual)),
        SignState::AndAnd => Some(Category::Token(TokenKind::AndAnd)),
        SignState::OrOr => Some(Category::Token(TokenKind::OrOr)),
        SignState::PlusPlus => Some(Category::Token(TokenKind::PlusPlus)),
        SignState::MinusMinus => Some(Category::Token(TokenKind::MinusMinus)),
        SignState::Plus => Some(Category::Token(TokenKind::Plus)),
        SignState::Minus => Some(Category::Token(TokenKind::Minus)),
        SignState::Star => Some(Category::Token(TokenKind::Star)),
        SignState::Slash => Some(Category::Token(TokenKind::Slash)),
        SignState::Ampersand => Some(Category::Token(TokenKind::Ampersand)),
        SignState::Bar => Some(Category::Token(TokenKind::Bar)),
        SignState::Caret => Some(Category::Token(TokenKind::Caret)),
        SignState::Percent => Some(Category::Token(TokenKind::Percent)),
        SignState::LessLess => Some(Category::Token(TokenKind::LessLess)),
        SignState::PlusAssign => Some(Category::Token(TokenKind::PlusAssign)),
        SignState::MinusAssign => Some(Category::Token(TokenKind::MinusAssign)),
        SignState::StarAssign => Some(Category::Token(TokenKind::StarAssign)),
        SignState::SlashAssign => Some(Category::Token(TokenKind::SlashAssign)),
        SignState::AmpersandAssign => Some(Category::Token(TokenKind::AmpersandAssign)),
        SignState::BarAssign => Some(Category::Token(TokenKind::BarAssign)),
        SignState::CaretAssign => Some(Category::Token(TokenKind::CaretAssign)),
        SignState::PercentAssign => Some(Category::Token(TokenKind::PercentAssign)),
        SignState::LessLessAssign => Some(Category::Token(TokenKind::LessLessAssign)),
        SignState::Greater => Some(Category::Greater),
        SignState::DotDot => None,
    }
}
