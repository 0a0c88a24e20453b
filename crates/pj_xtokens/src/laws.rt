//! Laws of tokens. The functions do nothing, and their contracts are the laws. A text is a list of characters.

ghost use Rattle.std.specs.Prelude.{◌≡◌, ◌<◌, ℕ, List, Some, length};
ghost use Rattle.pj_xtokens.specs.Gaps.{Past};
ghost use Rattle.pj_xtokens.specs.Rules.{Spells};
ghost use Rattle.pj_xtokens.specs.Scanning.{IsBehind, kind_of};
ghost use Rattle.pj_xtokens.specs.Size.{size};
ghost use Rattle.pj_xtokens.specs.Tokens.{Tokens, Lexed, AreSlices};
ghost use Rattle.pj_xtokens.specs.declared.token.End.{End};

use crate::characters::CharSet;
use crate::token::TokenKind;
use pj_patterns::{derivatives_are_exact, empty_word_is_told};

/// The scanner follows the rules: what its states say of a word is what the rules say of it.
pub fn scanner_follows_the_rules()
    ensures told { (kind : TokenKind) (word : List ℕ) → Spells kind word → kind_of word ≡ Some kind }
    ensures spelled { (kind : TokenKind) (word : List ℕ) → kind_of word ≡ Some kind → Spells kind word }
{
    derivatives_are_exact::<TokenKind, CharSet>();
    empty_word_is_told::<TokenKind, CharSet>();
}

/// Each token has a character.
pub fn tokens_are_not_empty()
    ensures { (kind : TokenKind) (word : List ℕ) → Spells kind word → 0 < length word }
{
    scanner_follows_the_rules();
}

/// What stands behind white space and comments is an end of the text.
pub fn gaps_stand_in_front()
    ensures { (text body : List ℕ) → Past text body → IsBehind body text }
{}

/// Each text has tokens, up to its end or up to a place where no token begins.
pub fn each_text_has_tokens()
    ensures { (text : List ℕ) → (tokens : List Lexed) × ((end : End) × Tokens (size text) text tokens end) }
{
    scanner_follows_the_rules();
}

/// The tokens of a text and where they end are one, and each is the slice of the text at its offset.
pub fn tokens_are_one()
    ensures one { (text : List ℕ) (ls ms : List Lexed) (e f : End) → Tokens (size text) text ls e → Tokens (size text) text ms f → (ls ≡ ms) × (e ≡ f) }
    ensures slices { (text : List ℕ) (ls : List Lexed) (e : End) → Tokens (size text) text ls e → AreSlices text ls }
{
    scanner_follows_the_rules();
}
