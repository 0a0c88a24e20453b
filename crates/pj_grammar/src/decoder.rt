//! The items that pieces stand for.

ghost use Rattle.std.specs.Prelude.{◌≡◌, map, reverse, take, drop, IfOk, OnOk};
ghost use Rattle.pj_peg_grammar.specs.Form.{form_of, forms_of};
ghost use Rattle.pj_grammar.specs.Piece.{piece_on, decoded};

use crate::piece::Piece;
use pj_base::NoMemory;
use pj_peg_grammar::{Item, Items};
use std::alloc::Global;

/// Takes as many items from the top of the stack as there are, and at most `count`, the top one first.
fn take_parts(alloc: Global, count: u8, stack: &mut Items) -> Result<Items, NoMemory>
    ensures parts { IfOk result (λ parts. forms_of parts.items ≡ take count (forms_of (reverse stack.old.items))) }
    ensures rest { OnOk result (forms_of (reverse stack.new.items) ≡ drop count (forms_of (reverse stack.old.items))) }
{
    let mut parts = Vec::new(alloc);
    for _ in 0..count {
        if let Some(part) = stack.pop() {
            parts.push(part)?;
        }
    }
    Ok(parts)
}

/// Puts the item of a piece on the stack, in place of the parts that it takes from there.
fn put(alloc: Global, piece: Piece, stack: &mut Items) -> Result<(), NoMemory>
    ensures { OnOk result (forms_of (reverse stack.new.items) ≡ piece_on piece (forms_of (reverse stack.old.items))) }
{
    match piece {
        Piece::Token(kind) => stack.push(Item::Token(kind))?,
        Piece::Any => stack.push(Item::Any)?,
        Piece::Rule(rule) => stack.push(Item::Rule(rule))?,
        Piece::Seq(count) => {
            let parts = take_parts(alloc, count, stack)?;
            stack.push(Item::Seq(parts))?;
        }
        Piece::Choice(count) => {
            let parts = take_parts(alloc, count, stack)?;
            stack.push(Item::Choice(parts))?;
        }
        Piece::Star => {
            if let Some(part) = stack.pop() {
                stack.push(Item::Star(Box::new(alloc, part)?))?;
            }
        }
        Piece::Maybe => {
            if let Some(part) = stack.pop() {
                stack.push(Item::Maybe(Box::new(alloc, part)?))?;
            }
        }
        Piece::And => {
            if let Some(part) = stack.pop() {
                stack.push(Item::And(Box::new(alloc, part)?))?;
            }
        }
        Piece::Not => {
            if let Some(part) = stack.pop() {
                stack.push(Item::Not(Box::new(alloc, part)?))?;
            }
        }
    }
    Ok(())
}

/// The items that the pieces stand for, in order. It fails only for want of memory.
pub fn items_of(alloc: Global, pieces: &[Piece]) -> Result<Items, NoMemory>
    ensures items { IfOk result (λ items. forms_of items.items ≡ decoded pieces.now) }
{
    let mut stack = Vec::new(alloc);
    let mut from = pieces.len();
    while from > 0 {
        from -= 1;
        put(alloc, pieces[from], &mut stack)?;
    }
    stack.reverse();
    Ok(stack)
}
