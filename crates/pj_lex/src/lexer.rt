//! The tokens of a text, one after another.

ghost use Rattle.std.specs.Prelude.{◌≡◌, ◌+◌, ◌<◌, ◌^◌, ◌↔◌, ℕ, List, ◌∷◌, length, IsTrue, IsNone, IfSome, MatchOption, MatchResult};
ghost use Rattle.std.specs.Str.{chars};
ghost use Rattle.pj_lex.specs.Answer.{lexed};
ghost use Rattle.pj_lex.specs.Tokens.{IsGap, Position, position, Tokens, Took, Lexed};

use crate::scan::scan;
use crate::text::{before, skip_white};
use crate::token::{LexFault, Token};
use pj_tree::Span;
use std::marker::Model;

/// What is left of a text. Contracts see it as a position: the offset in bytes, and the characters that are left.
#[derive(Drop)]
pub struct Lexer<'s> {
    rest: &'s str,
    offset: u32,
}

impl<'s> Model for Lexer<'s> {
    ghost Value = { Position };

    ghost view = { λ l. position l.offset (chars l.rest.now) };

    ghost invariant = { λ l. l.offset + length l.rest.now < 2 ^ 32 };
}

impl<'s> Lexer<'s> {
    /// A lexer at the beginning of the text. No memory is taken.
    pub fn over(text: &'s str) -> Lexer<'s>
        requires fits { length text.now < 2 ^ 32 }
        ensures begins { result ≡ position 0 (chars text.now) }
    {
        Lexer {
            rest: text,
            offset: 0,
        }
    }

    /// The next token, or the fault that ends the tokens. `None` comes exactly where nothing but white space is left, so at the end and after a
    /// fault, and then for ever. No memory is taken.
    pub fn next_token(&mut self) -> Option<Result<Token<'s>, LexFault>>
        ensures none { IsNone result ↔ IsGap self.old.text }
        ensures next { IfSome result (λ r. (more : List Lexed) → Tokens self.new.at self.new.text more → Tokens self.old.at self.old.text (lexed r ∷ more)) }
        ensures text { IfSome result (λ r. MatchResult r (λ t. Took self.old self.new (lexed r)) (λ f. IsGap self.new.text)) }
        ensures stays { IsNone result → IsGap self.new.text }
    {
        let rest = skip_white(self.rest);
        let from = self.offset + (self.rest.len() - rest.len()) as u32;
        if rest.is_empty() {
            return None;
        }
        match scan(rest) {
            Ok((kind, behind)) => {
                let text = before(rest, behind);
                let to = from + text.len() as u32;
                self.rest = behind;
                self.offset = to;
                Some(Ok(Token {
                    kind,
                    text,
                    span: Span { from, to },
                }))
            }
            Err(kind) => {
                self.rest = "";
                Some(Err(LexFault { kind, offset: from }))
            }
        }
    }
}
