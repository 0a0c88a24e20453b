//! Where nodes end, by the answers that are known, and further ones that are found on the way.
ghost use Rattle.std.specs.Prelude.{◌≡◌, ℕ, ◌+◌, ◌^◌, ◌<◌, ◌≤◌, ◌↔◌, List, length, IsTrue, IfOk, IfSome, Some, slice_get};
ghost use Rattle.std.specs.Bool.{OnTrue};
ghost use Rattle.pj_peg_grammar.specs.Form.{Form, token};
ghost use Rattle.pj_peg_grammar.specs.Program.{form_at, forms_in, rules_of};
ghost use Rattle.pj_peg.specs.Table.{end_of_code, code_of_end};
ghost use Rattle.pj_peg.specs.Ends.{Ends, IsSafe};
ghost use Rattle.pj_peg_grammar.specs.Firsts.{IsRuledOut};
ghost use Rattle.pj_peg.specs.Slots.{columns, column_form, ruled_out_end};
ghost use Rattle.pj_peg.specs.Plan.{IsPlan, IsSound, slot_at};

use crate::plan::{Halt, Memo, Plan, Question};
use crate::slots::{row_number, rules_out};
use pj_peg_grammar::{KINDS, Node};

/// Whether a token of the kind stands at the place.
fn is_kind_at(kinds: &[u16], place: u32, kind: u16) -> bool
    ensures { IsTrue result ↔ (slice_get kinds.now place ≡ Some kind) }
{
    (place as usize) < kinds.len() && kinds[place as usize] == kind
}

/// Whether the token at the place shows that the node takes nothing at all from there on.
pub fn is_ruled_out(plan: &Plan, kinds: &[u16], node: usize, place: u32) -> bool
    requires plan { IsPlan plan.now }
    requires node { node < length plan.now.program.nodes.items }
    ensures { OnTrue result (IsRuledOut (rules_of plan.now.program) kinds.now (form_at (forms_in plan.now.program.nodes.items) node) place) }
{
    let Some(kind) = kinds.get(place as usize) else {
        return false;
    };
    *kind < KINDS && rules_out(&plan.program, &plan.goings, *kind, node)
}

/// Where a token of a kind ends that stands at the place.
fn end_of_token(kinds: &[u16], place: u32, kind: u16) -> Option<u32>
    requires small { length kinds.now ≤ 200000 }
    ensures { (rules : List Form) → Ends rules kinds.now (token kind) place result }
{
    if is_kind_at(kinds, place, kind) {
        Some(place + 1)
    } else {
        None
    }
}

/// The code of an end: 0 of a failure, else one more than the place.
fn code_of_end(end: Option<u32>) -> u32
    requires { IfSome end (λ e. e + 1 < 2 ^ 32) }
    ensures { result ≡ code_of_end end }
{
    match end {
        None => 0,
        Some(place) => place + 1,
    }
}

/// The end of a code.
fn end_of_code(code: u32) -> Option<u32>
    ensures { result ≡ end_of_code code }
{
    if code == 0 { None } else { Some(code - 1) }
}

/// The slot of a column where the token at the place does not rule it out.
fn slot_of(plan: &Plan, kinds: &[u16], place: u32, column: usize) -> Option<u32>
    requires plan { IsPlan plan.now }
    requires column { column < columns plan.now.program }
    ensures { slot_at plan.now.slots.items kinds.now place column ≡ Some result }
{
    let slots = &plan.slots[row_number(kinds, place as usize)].slots;
    slots[column].number()
}

/// Where a column ends that is ruled out: a rule fails, and a repetition has no turn.
fn end_of_ruled_out(plan: &Plan, column: usize, place: u32) -> Option<u32>
    ensures { result ≡ ruled_out_end plan.now.program column place }
{
    if column < plan.program.roots.len() {
        None
    } else {
        Some(place)
    }
}

/// Where a rule or a repetition ends from a place on: by the table, or else by a search, whose answer is put into the table. A
/// question that leads too deep is given up.
#[cycle(ends)]
pub fn end_of_column(
    plan: &Plan,
    kinds: &[u16],
    memo: &mut Memo,
    depth: u32,
    column: usize,
    place: u32,
) -> Result<Option<u32>, Halt>
    requires small { length kinds.now ≤ 200000 }
    requires plan { IsPlan plan.now }
    requires column { column < columns plan.now.program }
    requires within { place ≤ length kinds.now }
    requires sound { IsSound plan.now kinds.now memo.old }
    ensures sound { IsSound plan.now kinds.now memo.new }
    ensures ends { IfOk result (λ end. Ends (rules_of plan.now.program) kinds.now (column_form plan.now.program column) place end) }
{
    let Some(slot) = slot_of(plan, kinds, place, column) else {
        return Ok(end_of_ruled_out(plan, column, place));
    };
    if let Some(code) = memo.table.code(place, slot) {
        return Ok(end_of_code(code));
    }
    match search(plan, kinds, memo, depth, column, place) {
        Ok(end) => {
            memo.table.set(place, slot, code_of_end(end));
            Ok(end)
        }
        Err(halt) => {
            memo.given_up.push(Question { place, column })?;
            Err(halt)
        }
    }
}

/// Where a rule or a repetition ends from a place on, by the node that it has.
#[cycle(ends)]
fn search(
    plan: &Plan,
    kinds: &[u16],
    memo: &mut Memo,
    depth: u32,
    column: usize,
    place: u32,
) -> Result<Option<u32>, Halt>
    requires small { length kinds.now ≤ 200000 }
    requires plan { IsPlan plan.now }
    requires column { column < columns plan.now.program }
    requires within { place ≤ length kinds.now }
    requires sound { IsSound plan.now kinds.now memo.old }
    ensures sound { IsSound plan.now kinds.now memo.new }
    ensures ends { IfOk result (λ end. Ends (rules_of plan.now.program) kinds.now (column_form plan.now.program column) place end) }
{
    if depth == 0 {
        return Err(Halt::Depth);
    }
    if column < plan.program.roots.len() {
        let root = plan.program.roots[column];
        end_of(plan, kinds, memo, depth - 1, root, place)
    } else {
        end_of_turns(plan, kinds, memo, depth - 1, column, place)
    }
}

/// How many turns of a repetition are taken before the question is asked anew where they end.
const TURNS: u32 = 16;

/// Where a repetition ends from a place on. After some turns it is asked where it ends from there on, so each answer is found
/// in few steps, and in the table there is one for each few turns.
#[cycle(ends)]
fn end_of_turns(
    plan: &Plan,
    kinds: &[u16],
    memo: &mut Memo,
    depth: u32,
    column: usize,
    from: u32,
) -> Result<Option<u32>, Halt>
    requires small { length kinds.now ≤ 200000 }
    requires plan { IsPlan plan.now }
    requires star { length plan.now.program.roots.items ≤ column }
    requires column { column < columns plan.now.program }
    requires within { from ≤ length kinds.now }
    requires sound { IsSound plan.now kinds.now memo.old }
    ensures sound { IsSound plan.now kinds.now memo.new }
    ensures ends { IfOk result (λ end. Ends (rules_of plan.now.program) kinds.now (column_form plan.now.program column) from end) }
{
    let part = plan.program.stars[column - plan.program.roots.len()];
    let mut place = from;
    for _ in 0..TURNS {
        match end_of_part(plan, kinds, memo, depth, part, place)? {
            None => return Ok(Some(place)),
            Some(end) => place = end,
        }
    }
    end_of_column(plan, kinds, memo, depth, column, place)
}

/// Where a node ends from a place on that is part of one that is looked at. A rule or a token is looked at here, without a
/// call, and what the token at the place rules out is not looked at.
#[cycle(ends)]
#[inline(always)]
fn end_of_part(
    plan: &Plan,
    kinds: &[u16],
    memo: &mut Memo,
    depth: u32,
    part: usize,
    place: u32,
) -> Result<Option<u32>, Halt>
    requires small { length kinds.now ≤ 200000 }
    requires plan { IsPlan plan.now }
    requires part { part < length plan.now.program.nodes.items }
    requires safe { IsSafe plan.now.program (form_at (forms_in plan.now.program.nodes.items) part) }
    requires within { place ≤ length kinds.now }
    requires sound { IsSound plan.now kinds.now memo.old }
    ensures sound { IsSound plan.now kinds.now memo.new }
    ensures ends { IfOk result (λ end. Ends (rules_of plan.now.program) kinds.now (form_at (forms_in plan.now.program.nodes.items) part) place end) }
{
    match plan.program.nodes[part] {
        Node::Rule(rule) => end_of_column(plan, kinds, memo, depth, rule as usize, place),
        Node::Token(kind) => Ok(end_of_token(kinds, place, kind)),
        _ => {
            if is_ruled_out(plan, kinds, part, place) {
                return Ok(None);
            }
            end_of(plan, kinds, memo, depth.saturating_sub(1), part, place)
        }
    }
}

/// Where a node ends from a place on.
#[cycle(ends)]
pub fn end_of(
    plan: &Plan,
    kinds: &[u16],
    memo: &mut Memo,
    depth: u32,
    root: usize,
    from: u32,
) -> Result<Option<u32>, Halt>
    requires small { length kinds.now ≤ 200000 }
    requires plan { IsPlan plan.now }
    requires root { root < length plan.now.program.nodes.items }
    requires safe { IsSafe plan.now.program (form_at (forms_in plan.now.program.nodes.items) root) }
    requires within { from ≤ length kinds.now }
    requires sound { IsSound plan.now kinds.now memo.old }
    ensures sound { IsSound plan.now kinds.now memo.new }
    ensures ends { IfOk result (λ end. Ends (rules_of plan.now.program) kinds.now (form_at (forms_in plan.now.program.nodes.items) root) from end) }
{
    let mut node = root;
    let mut place = from;
    loop {
        match plan.program.nodes[node] {
            Node::Token(kind) => return Ok(end_of_token(kinds, place, kind)),
            Node::Any => {
                return if (place as usize) < kinds.len() {
                    Ok(Some(place + 1))
                } else {
                    Ok(None)
                };
            }
            Node::Rule(rule) => {
                return end_of_column(plan, kinds, memo, depth, rule as usize, place);
            }
            Node::Nothing => return Ok(Some(place)),
            Node::Never => return Ok(None),
            Node::Seq(first, rest) => match end_of_part(plan, kinds, memo, depth, first, place)? {
                None => return Ok(None),
                Some(end) => {
                    place = end;
                    node = rest;
                }
            },
            Node::Choice(first, others) => match end_of_part(
                plan, kinds, memo, depth, first, place,
            )? {
                Some(end) => return Ok(Some(end)),
                None => node = others,
            },
            Node::Star(_, star) => {
                let column = plan.program.roots.len() + star;
                return end_of_column(plan, kinds, memo, depth, column, place);
            }
            Node::Maybe(part) => match end_of_part(plan, kinds, memo, depth, part, place)? {
                None => return Ok(Some(place)),
                Some(end) => return Ok(Some(end)),
            },
            Node::And(part) => match end_of_part(plan, kinds, memo, depth, part, place)? {
                None => return Ok(None),
                Some(_) => return Ok(Some(place)),
            },
            Node::Not(part) => match end_of_part(plan, kinds, memo, depth, part, place)? {
                None => return Ok(Some(place)),
                Some(_) => return Ok(None),
            },
        }
    }
}
