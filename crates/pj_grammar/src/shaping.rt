//! The syntax tree of a derivation.

ghost use Rattle.std.specs.Prelude.{◌≡◌, ◌⊎◌, map, Ok, Err, MatchResult};
ghost use Rattle.pj_grammar.specs.Java17.{java_17_forms, java_17_shapes};
ghost use Rattle.pj_grammar.specs.Words.{AreTokens, seen, words, spans, terminals};
ghost use Rattle.pj_peg_grammar.specs.Derivation.{Forest, steps_of};
ghost use Rattle.pj_peg_grammar.specs.Derives.{DerivesSteps};
ghost use Rattle.pj_shape.specs.ShapedTree.{shaped_tree};

use crate::grammar::java_shapes;
use crate::words::word_spans;
use pj_lex::Tokens;
use pj_peg_grammar::Derivation;
use pj_shape::shape_derivation;
use pj_source::Source;
use pj_tree::{ShapeFault, SyntaxTree};
use std::alloc::Global;

/// The syntax tree of a derivation by the grammar. `tokens` are those of the source, comments included, and the derivation is
/// one of those that are no comments. The answer is `TooDeep` with the greatest depth exactly where that is above 1,000, else
/// `TooMany` with the number of nodes exactly where that is above 2,000,000.
pub fn shape<'s>(
    alloc: Global,
    source: &'s Source,
    derivation: &Derivation,
    tokens: &Tokens<'s>,
) -> Result<SyntaxTree<'s>, ShapeFault>
    requires tokens { AreTokens source.now.text (map seen tokens.now) }
    requires derived { DerivesSteps java_17_forms (terminals (words (map seen tokens.now))) derivation.now }
    ensures { (d : Forest) → derivation.now ≡ steps_of d →
        MatchResult result (λ tree. shaped_tree source.now.text (spans (words (map seen tokens.now))) java_17_shapes d ≡ Ok tree)
        (λ fault. (fault ≡ ShapeFault.Memory) ⊎ (shaped_tree source.now.text (spans (words (map seen tokens.now))) java_17_shapes d ≡ Err fault)) }
{
    let spans = word_spans(alloc, tokens.as_slice())?;
    shape_derivation(
        alloc,
        source.text(),
        spans.as_slice(),
        java_shapes(),
        derivation,
    )
}
