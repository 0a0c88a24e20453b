//! The turns of folds.

ghost use Rattle.std.specs.Prelude.{◌≡◌, ℕ, ◌+◌, ◌<◌, ◌++◌, ◌&&◌, ◌==◌, OnOk, Some, length, reverse, slice_get};
ghost use Rattle.pj_shape.specs.Words.{AreTokens, is_small};
ghost use Rattle.pj_shape.specs.Flat.{raw, turns};
ghost use Rattle.pj_shape.specs.Body.{IsBody};

use crate::made::Made;
use crate::shape::{Shape, act, shape_at};
use crate::words::is_small_word;
use pj_base::NoMemory;
use pj_peg_grammar::{Derivation, Step};
use pj_tree::Span;

/// The steps of a body: those from the first up to, but not including, the last. The body begins at the place `start`.
#[derive(Clone, Copy)]
pub struct Body {
    pub start: u32,
    pub first: u32,
    pub end: u32,
}

/// Whether a segment leads, by whether no node stands before it and whether a segment follows.
fn leads_at(text: &str, tokens: &[Span], step: Step, first: bool, follows: bool) -> bool
    requires tokens { AreTokens text.now tokens.now }
    ensures { result ≡ ((is_small text.now tokens.now step.from && step.to == step.from + 1) && (first && follows)) }
{
    is_small_word(text, tokens, step.from)
        && step.to > step.from
        && step.to - step.from == 1
        && first
        && follows
}

/// How many nodes there were before a step.
pub fn count_at(counts: &[usize], at: u32) -> usize
    requires { at < length counts.now }
    ensures { slice_get counts.now at ≡ Some result }
{
    counts[at as usize]
}

/// Puts the nodes of the turns among the steps of a body before its nodes, where the last node comes first. `counts` has
/// for each step from the first one on how many nodes were made of it and those after it.
pub fn put_turns(
    shapes: &[Shape],
    text: &str,
    tokens: &[Span],
    derivation: &Derivation,
    counts: &[usize],
    body: Body,
    nodes: &mut Vec<Made>,
) -> Result<(), NoMemory>
    requires tokens { AreTokens text.now tokens.now }
    requires body { IsBody shapes.now (is_small text.now tokens.now) derivation.now counts.now body.first body.end nodes.old.items }
    ensures { OnOk result ((b : IsBody shapes.now (is_small text.now tokens.now) derivation.now counts.now body.first body.end nodes.old.items) →
        reverse nodes.new.items ≡ turns shapes.now (is_small text.now tokens.now) body.start 0 b.below ++ (raw shapes.now (is_small text.now tokens.now) b.below ++ raw shapes.now (is_small text.now tokens.now) b.after)) }
{
    let mut at = body.first;
    while at < body.end {
        let step = derivation.step(at);
        let first = nodes.len() == count_at(counts, at);
        let leads = leads_at(text, tokens, step, first, step.next < body.end);
        if let Shape::Turn(kind) = act(shape_at(shapes, step.rule), leads) {
            let size = nodes.len() - count_at(counts, step.next) + 1;
            nodes.push(Made {
                kind,
                from: body.start,
                to: step.to,
                size,
            })?;
        }
        at = step.next;
    }
    Ok(())
}
