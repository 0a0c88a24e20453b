//! All tokens of a text.

ghost use Rattle.std.specs.Prelude.{◌≡◌, ◌<◌, ◌^◌, IfOk, length, map};
ghost use Rattle.std.specs.Str.{chars};
ghost use Rattle.pj_xtokens.specs.Answer.{lexed_of};
ghost use Rattle.pj_xtokens.specs.Size.{size};
ghost use Rattle.pj_xtokens.specs.Tokens.{Tokens};

use crate::gap::skip_gap;
use crate::laws::tokens_are_not_empty;
use crate::scan::{is_joined, scan};
use crate::text::before;
use crate::token::{End, Token};
use pj_base::{ListOf, NoMemory};
use std::alloc::Global;

/// The tokens of a text, in their order, and where they end.
#[derive(Debug, Drop)]
pub struct TokenList<'t> {
    /// The tokens up to the end.
    pub list: ListOf<Token<'t>>,
    /// The end of the text, or the first place where no token begins.
    pub end: End,
}

/// The tokens of the text by XPath 2.0, A.2: each is the longest prefix of the rest that spells one, and before each may
/// stand white space and comments. They end at the first offset where no token begins: at a character that begins none, at
/// a literal or a comment that does not end, and at a name that directly follows a number. The text is shorter than 2^32
/// bytes.
pub fn tokens<'t>(alloc: Global, text: &'t str) -> Result<TokenList<'t>, NoMemory>
    requires fits { length text.now < 2 ^ 32 }
    ensures { IfOk result (λ found. Tokens (size (chars text.now)) (chars text.now) (map lexed_of found.list) found.end) }
{
    tokens_are_not_empty();
    let mut list = Vec::new(alloc);
    let mut rest = text;
    loop {
        let body = skip_gap(rest);
        let from = (text.len() - body.len()) as u32;
        if body.is_empty() {
            let list = ListOf::from_vec(list);
            return Ok(TokenList {
                list,
                end: End::Text(text.len() as u32),
            });
        }
        let Some((kind, behind)) = scan(body) else {
            let list = ListOf::from_vec(list);
            return Ok(TokenList {
                list,
                end: End::Fault(from),
            });
        };
        list.push(Token {
            kind,
            text: before(body, behind),
            from,
        })?;
        if is_joined(kind, behind) {
            let list = ListOf::from_vec(list);
            return Ok(TokenList {
                list,
                end: End::Fault((text.len() - behind.len()) as u32),
            });
        }
        rest = behind;
    }
}
