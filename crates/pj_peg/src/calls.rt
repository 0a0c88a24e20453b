//! The calls of rules by which a node takes what it takes.
ghost use Rattle.std.specs.Prelude.{◌<◌, ◌≤◌, length, IfOk};
ghost use Rattle.pj_peg_grammar.specs.Program.{form_at, forms_in, rules_of};
ghost use Rattle.pj_peg.specs.Ends.{Collects, IsSafe};
ghost use Rattle.pj_peg.specs.Plan.{IsPlan, IsSound};

use crate::ask::end_at;
use crate::evaluate::is_ruled_out;
use crate::plan::{Memo, Plan};
use pj_base::NoMemory;
use pj_peg_grammar::Node;
use std::alloc::Global;

/// A rule that took the tokens from a place up to another.
#[derive(Clone, Copy)]
pub struct Call {
    pub rule: u16,
    pub from: u32,
    pub to: u32,
}

/// Adds the calls by which a node takes what it takes from a place on, and says where it ends. Where it fails, calls of no
/// meaning may have been added.
pub fn add_calls(
    alloc: Global,
    plan: &Plan,
    kinds: &[u16],
    memo: &mut Memo,
    root: usize,
    from: u32,
    calls: &mut Vec<Call>,
) -> Result<Option<u32>, NoMemory>
    requires small { length kinds.now ≤ 200000 }
    requires plan { IsPlan plan.now }
    requires root { root < length plan.now.program.nodes.items }
    requires safe { IsSafe plan.now.program (form_at (forms_in plan.now.program.nodes.items) root) }
    requires within { from ≤ length kinds.now }
    requires sound { IsSound plan.now kinds.now memo.old }
    ensures sound { IsSound plan.now kinds.now memo.new }
    ensures collects { IfOk result (λ end. Collects (rules_of plan.now.program) kinds.now (form_at (forms_in plan.now.program.nodes.items) root) from calls.old.items calls.new.items end) }
{
    if is_ruled_out(plan, kinds, root, from) {
        return Ok(None);
    }
    let mut node = root;
    let mut place = from;
    loop {
        match plan.program.nodes[node] {
            Node::Rule(rule) => match end_at(alloc, plan, kinds, memo, node, place)? {
                None => return Ok(None),
                Some(to) => {
                    calls.push(Call {
                        rule,
                        from: place,
                        to,
                    })?;
                    return Ok(Some(to));
                }
            },
            Node::Seq(first, rest) => match add_calls(
                alloc, plan, kinds, memo, first, place, calls,
            )? {
                None => return Ok(None),
                Some(end) => {
                    place = end;
                    node = rest;
                }
            },
            Node::Choice(first, others) => {
                let count = calls.len();
                match add_calls(alloc, plan, kinds, memo, first, place, calls)? {
                    None => {
                        calls.truncate(count);
                        node = others;
                    }
                    Some(end) => return Ok(Some(end)),
                }
            }
            Node::Star(part, _) => {
                let count = calls.len();
                match add_calls(alloc, plan, kinds, memo, part, place, calls)? {
                    None => {
                        calls.truncate(count);
                        return Ok(Some(place));
                    }
                    Some(end) => place = end,
                }
            }
            Node::Maybe(part) => {
                let count = calls.len();
                match add_calls(alloc, plan, kinds, memo, part, place, calls)? {
                    None => {
                        calls.truncate(count);
                        return Ok(Some(place));
                    }
                    Some(end) => return Ok(Some(end)),
                }
            }
            Node::Token(_)
            | Node::Any
            | Node::Nothing
            | Node::Never
            | Node::And(_)
            | Node::Not(_) => return end_at(alloc, plan, kinds, memo, node, place),
        }
    }
}
