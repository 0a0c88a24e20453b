//! What holds of every file and every text.
ghost use Rattle.std.specs.Prelude.{◌≡◌, ◌≤◌, ℕ, List, length, Ok, Err, Result};
ghost use Rattle.pj_lex.specs.declared.token.LexFault.{LexFault};
ghost use Rattle.pj_parse.specs.declared.fault.ParseFault.{ParseFault};
ghost use Rattle.pj_parse.specs.declared.file_fault.FileFault.{FileFault};
ghost use Rattle.pj_parse.specs.FileOutcome.{outcome_of};
ghost use Rattle.pj_parse.specs.JavaFile.{JavaFile, IsJavaFile};
ghost use Rattle.pj_parse.specs.Laws.{HasOneOutcome};
ghost use Rattle.pj_parse.specs.OwnTokens.{HasEachWord, HasOwnTokens};
ghost use Rattle.pj_parse.specs.Parses.{Parses};
ghost use Rattle.pj_grammar.specs.Words.{spans, words};

use pj_grammar::{grammar_is_well_formed, rules_have_their_numbers};
use pj_lex::all_texts_have_tokens;
use pj_peg_grammar::one_outcome;

/// One outcome comes of the bytes of each file, and `outcome_of` is it: a text with its tokens, syntax tree and pool, or
/// the first fault. The call does nothing: its contract is the law.
pub fn file_has_one_outcome()
    ensures comes { (bytes : List ℕ) → IsJavaFile bytes (outcome_of bytes) }
    ensures one { (bytes : List ℕ) (o : Result JavaFile FileFault) → IsJavaFile bytes o → o ≡ outcome_of bytes }
{}

/// Each token of a Java file that is no comment is an own token of one node of its tree, and of no other; own tokens lie in
/// their node and in none of its children, and children lie in their parent, in order and apart. The call does nothing: its
/// contract is the law.
pub fn words_are_own_tokens()
    ensures once { (bytes : List ℕ) (file : JavaFile) → IsJavaFile bytes (Ok file) → HasEachWord file.tree (spans (words file.tokens)) }
    ensures owned { (bytes : List ℕ) (file : JavaFile) → IsJavaFile bytes (Ok file) → HasOwnTokens file.tree (spans (words file.tokens)) }
{}

/// One outcome comes of each text: its syntax tree and its tokens, or one fault. The call does nothing: its contract is
/// the law.
pub fn text_has_one_outcome()
    ensures { (text : List ℕ) → HasOneOutcome text }
{
    all_texts_have_tokens();
    one_outcome();
    grammar_is_well_formed();
    rules_have_their_numbers();
}

/// A fault among the tokens of a text stands in the text. The call does nothing: its contract is the law.
pub fn faults_stand_in_text(text: &str)
    ensures { (fault : LexFault) → Parses text.now (Err (ParseFault.Lex fault)) → fault.offset ≤ length text.now }
{
    let _ = text;
}
