//! The own tokens of a node.

ghost use Rattle.std.specs.Prelude.{◌≡◌, ◌≤◌, length, map};
ghost use Rattle.std.specs.Iterator.{YieldsFirstRef, item_count};
ghost use Rattle.pj_tree.specs.Rows.{LeadsOn, IsNextOf, TokenSpans, own_spans};
ghost use Rattle.pj_tree.specs.Tree.{slice_at};

use crate::node::Node;
use crate::row::OwnToken;
use std::marker::Model;

/// The texts of the own tokens of a node that are left to come, in order: an iterator, which contracts see as their
/// list.
#[derive(Drop)]
pub struct OwnTokens<'t> {
    text: &'t str,
    tokens: &'t [OwnToken],
    owner: Node,
    /// The index of the next token, or past all tokens.
    next: u32,
}

impl<'t> Model for OwnTokens<'t> {
    ghost use Rattle.std.specs.Prelude.{ℕ, List};
    ghost use Rattle.pj_tree.specs.Rows.{texts_left, IsAmongTokens};

    ghost Value = { List (List ℕ) };

    ghost view = { λ o. texts_left o.text.now o.tokens.now o.owner o.next };

    ghost invariant = { λ o. IsAmongTokens o.text.now o.tokens.now o.owner o.next };
}

impl<'t> OwnTokens<'t> {
    /// The texts of the tokens of the owner, of which the one at the index is the first.
    pub(crate) fn new(
        text: &'t str,
        tokens: &'t [OwnToken],
        owner: Node,
        first: u32,
    ) -> OwnTokens<'t>
        requires few { length tokens.now ≤ 4294967294 }
        requires leads_on { LeadsOn tokens.now 0 }
        requires first { IsNextOf tokens.now owner.0 0 first }
        requires spans { TokenSpans text.now tokens.now }
        ensures value { result ≡ map (slice_at text.now) (own_spans tokens.now owner.0) }
        ensures few { length result ≤ 4294967294 }
    {
        OwnTokens {
            text,
            tokens,
            owner,
            next: first,
        }
    }
}

impl<'t> Iterator for OwnTokens<'t> {
    type Item = &'t str;

    ghost next_gives = { YieldsFirstRef (λ s. s) };

    ghost remaining = { item_count (λ s. s) };

    fn next(&mut self) -> Option<&'t str> {
        let at = self.next as usize;
        if at >= self.tokens.len() {
            return None;
        }
        let token = self.tokens[at];
        self.next = token.next;
        Some(&self.text[token.span.from as usize..token.span.to as usize])
    }
}
