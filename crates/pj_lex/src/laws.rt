//! What holds of the tokens of every text.

ghost use Rattle.std.specs.Prelude.{◌≡◌, ℕ, List};
ghost use Rattle.std.specs.Str.{chars};
ghost use Rattle.pj_lex.specs.Rules.{rules, token_rules, FirstOf};
ghost use Rattle.pj_lex.specs.Tokens.{Tokens, Lexed, AreSlices, HaveKinds};
ghost use Rattle.pj_lex.specs.declared.category.Category.{Category};

/// The tokens of a text, with the fault that may end them, are there, are one list, and are slices of the text at their
/// spans; the fault is of a kind from 1 to 5.
/// The call does nothing: its contract is the law.
pub fn tokens_are_one(text: &str)
    ensures there { (at : ℕ) → (ls : List Lexed) × Tokens at (chars text.now) ls }
    ensures one { (at : ℕ) (ls ms : List Lexed) → Tokens at (chars text.now) ls → Tokens at (chars text.now) ms → ls ≡ ms }
    ensures slices { (ls : List Lexed) → Tokens 0 (chars text.now) ls → AreSlices (chars text.now) ls }
    ensures kinds { (at : ℕ) (ls : List Lexed) → Tokens at (chars text.now) ls → HaveKinds ls }
{
    let _ = text;
}

/// The first two of these laws, for every list of characters.
/// The call does nothing: its contract is the law.
pub fn all_texts_have_tokens()
    ensures there { (at : ℕ) (text : List ℕ) → (ls : List Lexed) × Tokens at text ls }
    ensures one { (at : ℕ) (text : List ℕ) (ls ms : List Lexed) → Tokens at text ls → Tokens at text ms → ls ≡ ms }
{}

/// The rules for faults take no word from the rules for tokens: what a word is by these alone it is by all.
/// The call does nothing: its contract is the law.
pub fn faults_take_nothing()
    ensures { (w : List ℕ) (c : Category) → FirstOf (token_rules rules) w c → FirstOf rules w c }
{}
