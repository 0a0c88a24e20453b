//! All nodes of a derivation.

ghost use Rattle.std.specs.Prelude.{◌≡◌, ℕ, ◌<◌, IfOk, Some, length, replicate, slice_get};
ghost use Rattle.pj_peg_grammar.specs.Derivation.{Forest, steps_of};
ghost use Rattle.pj_shape.specs.Words.{AreTokens, is_small};
ghost use Rattle.pj_shape.specs.Shaped.{nodes_of};
ghost use Rattle.pj_shape.specs.Flat.{flat};

use crate::made::{Made, put_node};
use crate::shape::{Shape, shape_at};
use crate::turns::{Body, count_at, put_turns};
use pj_base::NoMemory;
use pj_peg_grammar::Derivation;
use pj_tree::Span;
use std::alloc::Global;

/// Sets the count at a place.
fn set_count(counts: &mut Vec<usize>, at: u32, count: usize)
    requires { at < length counts.old.items }
    ensures len { length counts.new.items ≡ length counts.old.items }
    ensures here { slice_get counts.new.items at ≡ Some count }
    ensures others { (i : ℕ) → (i ≡ at → ⊥) → slice_get counts.new.items i ≡ slice_get counts.old.items i }
{
    counts[at as usize] = count;
}

/// A list of zeros.
fn zeros(alloc: Global, count: usize) -> Result<Vec<usize>, NoMemory>
    ensures { IfOk result (λ zeros. zeros.items ≡ replicate count 0) }
{
    let mut zeros = Vec::new(alloc);
    zeros.resize(count, 0)?;
    Ok(zeros)
}

/// The nodes of a derivation in preorder. They are made from the last step to the first: those of a step, when all after it
/// are made.
pub fn made_nodes(
    alloc: Global,
    shapes: &[Shape],
    text: &str,
    tokens: &[Span],
    derivation: &Derivation,
) -> Result<Vec<Made>, NoMemory>
    requires tokens { AreTokens text.now tokens.now }
    ensures { IfOk result (λ nodes. (d : Forest) → derivation.now ≡ steps_of d → nodes.items ≡ flat (nodes_of shapes.now (is_small text.now tokens.now) d)) }
{
    let mut nodes = Vec::new(alloc);
    let count = derivation.len();
    let mut counts = zeros(alloc, count as usize + 1)?;
    let mut left = count;
    while left > 0 {
        let at = left - 1;
        let step = derivation.step(at);
        let body = Body {
            start: step.from,
            first: left,
            end: step.next,
        };
        put_turns(shapes, text, tokens, derivation, &counts, body, &mut nodes)?;
        put_node(
            shape_at(shapes, step.rule),
            step,
            count_at(&counts, step.next),
            &mut nodes,
        )?;
        set_count(&mut counts, at, nodes.len());
        left = at;
    }
    let all = Body {
        start: 0,
        first: 0,
        end: count,
    };
    put_turns(shapes, text, tokens, derivation, &counts, all, &mut nodes)?;
    nodes.reverse();
    Ok(nodes)
}
