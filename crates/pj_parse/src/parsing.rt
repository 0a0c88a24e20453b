//! From the text of a source file to its syntax tree.

ghost use Rattle.std.specs.Prelude.{◌≡◌, ◌≤◌, ◌⊎◌, length, Ok, Err, IfOk, IfErr, MatchResult};
ghost use Rattle.pj_peg_grammar.specs.Form.{forms_of};
ghost use Rattle.pj_peg_grammar.specs.Derives.{DerivesSteps, FailsAtStart};
ghost use Rattle.pj_grammar.specs.Java17.{java_17_forms};
ghost use Rattle.pj_parse.specs.PoolText.{pool_of, IsPoolOf};
ghost use Rattle.pj_parse.specs.Parses.{Parses, file_parsed};

use crate::fault::ParseFault;
use crate::lexing::collect_tokens;
use crate::pool::Pool;
use pj_grammar::{java_17, shape, word_terminals};
use pj_lex::Tokens;
use pj_peg::{WellFormed, run};
use pj_peg_grammar::Derivation;
use pj_source::Source;
use pj_tree::SyntaxTree;
use std::alloc::Global;

/// How many tokens without comments a file may have.
const MOST_WORDS: usize = 200_000;

/// A source file that was parsed.
#[derive(Drop)]
pub struct Parsed<'s> {
    /// The syntax tree.
    pub tree: SyntaxTree<'s>,
    /// All tokens in the order of the text, comments included.
    pub tokens: Tokens<'s>,
    /// The texts of the tree's nodes that are no stretches of the text: values of literals, and joined names.
    pub pool: Pool,
}

/// The derivation of words from the first rule of the grammar, or that there is none.
fn derive(alloc: Global, grammar: &WellFormed, terminals: &[u16]) -> Result<Derivation, ParseFault>
    requires few { length terminals.now ≤ 200000 }
    requires grammar { forms_of grammar.now ≡ java_17_forms }
    ensures derives { IfOk result (DerivesSteps java_17_forms terminals.now) }
    ensures fails { IfErr result (λ fault. (fault ≡ ParseFault.Memory) ⊎ ((fault ≡ ParseFault.Syntax) × FailsAtStart java_17_forms terminals.now)) }
{
    match run(alloc, grammar, terminals) {
        Err(_) => Err(ParseFault::Memory),
        Ok(None) => Err(ParseFault::Syntax),
        Ok(Some(derivation)) => Ok(derivation),
    }
}

/// The syntax tree, the tokens and the pool of a source file, by a grammar that the caller keeps for many files.
pub fn parse_by<'s>(
    alloc: Global,
    grammar: &WellFormed,
    source: &'s Source,
) -> Result<Parsed<'s>, ParseFault>
    requires grammar { forms_of grammar.now ≡ java_17_forms }
    ensures parses { MatchResult result (λ p. Parses source.now.text (Ok (file_parsed p))) (λ fault. (fault ≡ ParseFault.Memory) ⊎ Parses source.now.text (Err fault)) }
    ensures text { IfOk result (λ p. p.tree.text ≡ source.now.text) }
    ensures pool { IfOk result (λ p. p.pool ≡ pool_of p.tree) }
    ensures pool_texts { IfOk result (λ p. IsPoolOf p.tree p.pool) }
{
    let tokens = collect_tokens(alloc, source)?;
    let terminals = word_terminals(alloc, tokens.as_slice())?;
    if terminals.len() > MOST_WORDS {
        return Err(ParseFault::TooManyTokens(terminals.len() as u32));
    }
    let derivation = derive(alloc, grammar, terminals.as_slice())?;
    match shape(alloc, source, &derivation, &tokens) {
        Ok(tree) => {
            let pool = Pool::of(alloc, &tree)?;
            Ok(Parsed { tree, tokens, pool })
        }
        Err(fault) => Err(ParseFault::from(fault)),
    }
}

/// The syntax tree, the tokens and the pool of a source file.
pub fn parse<'s>(alloc: Global, source: &'s Source) -> Result<Parsed<'s>, ParseFault>
    ensures parses { MatchResult result (λ p. Parses source.now.text (Ok (file_parsed p))) (λ fault. (fault ≡ ParseFault.Memory) ⊎ Parses source.now.text (Err fault)) }
    ensures text { IfOk result (λ p. p.tree.text ≡ source.now.text) }
    ensures pool { IfOk result (λ p. p.pool ≡ pool_of p.tree) }
    ensures pool_texts { IfOk result (λ p. IsPoolOf p.tree p.pool) }
{
    match java_17(alloc) {
        Ok(grammar) => parse_by(alloc, &grammar, source),
        Err(_) => Err(ParseFault::Memory),
    }
}
