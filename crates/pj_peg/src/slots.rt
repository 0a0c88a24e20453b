//! Which cells a place of a text has: one for each rule and each repetition that the token there does not rule out.
ghost use Rattle.std.specs.Prelude.{◌≡◌, ℕ, ◌+◌, ◌^◌, ◌<◌, ◌≤◌, List, length, IfOk, Some, slice_get};
ghost use Rattle.std.specs.Bool.{OnTrue};
ghost use Rattle.pj_peg_grammar.specs.WellFormed.{IsWellFormed};
ghost use Rattle.pj_peg_grammar.specs.Program.{IsProgram, form_at, forms_in, rules_of};
ghost use Rattle.pj_peg.specs.Ends.{Ends};
ghost use Rattle.pj_peg_grammar.specs.Firsts.{AreGoing, IsAlwaysRuledOut};
ghost use Rattle.pj_peg.specs.Slots.{row_number, columns, column_form, ruled_out_end, IsOutAt, IsKindSlots, AreSlots};

use crate::table::Cell;
use pj_base::NoMemory;
use pj_peg_grammar::{KINDS, Program};
use std::alloc::Global;

/// The slots where a token of one kind stands, or where none or a further kind does. Columns are the rules by their numbers,
/// and then the repetitions. A column has the number of its slot, or none where the token rules it out.
#[derive(Drop)]
pub struct KindSlots {
    /// The slot of each column.
    pub slots: Vec<Cell>,
    /// How many slots there are.
    pub width: u32,
}

/// The number of the slots for a place: the kind of the token there, or the number of kinds where none or a further kind stands.
pub fn row_number(kinds: &[u16], place: usize) -> usize
    ensures { result ≡ row_number kinds.now place }
{
    match kinds.get(place) {
        Some(kind) if *kind < KINDS => *kind as usize,
        _ => KINDS as usize,
    }
}

/// Whether a token of the kind shows that a node takes nothing at all.
pub fn rules_out(program: &Program, goings: &[u128], kind: u16, node: usize) -> bool
    requires goings { AreGoing program.now goings.now }
    requires kind { kind < 128 }
    requires node { node < length program.now.nodes.items }
    ensures { OnTrue result (IsAlwaysRuledOut (rules_of program.now) kind (form_at (forms_in program.now.nodes.items) node)) }
{
    (goings[node] >> kind) & 1 == 0
}

/// Whether a token of the kind shows that the node of a column takes nothing at all.
fn is_out(program: &Program, goings: &[u128], kind: u16, column: usize) -> bool
    requires program { IsProgram program.now }
    requires goings { AreGoing program.now goings.now }
    requires well_formed { IsWellFormed (rules_of program.now) }
    requires column { column < columns program.now }
    ensures { OnTrue result (IsOutAt program.now kind column) }
{
    if kind >= KINDS {
        return false;
    }
    let rules = program.roots.len();
    if column < rules {
        rules_out(program, goings, kind, program.roots[column])
    } else {
        rules_out(program, goings, kind, program.stars[column - rules])
    }
}

/// The most slots of a kind. More of them are want of memory.
const MOST_SLOTS: u32 = 1 << 31;

/// The slots where a token of the kind stands.
fn slots_for(
    alloc: Global,
    program: &Program,
    goings: &[u128],
    kind: u16,
) -> Result<KindSlots, NoMemory>
    requires program { IsProgram program.now }
    requires goings { AreGoing program.now goings.now }
    requires well_formed { IsWellFormed (rules_of program.now) }
    ensures { IfOk result (λ slots. IsKindSlots program.now kind slots) }
{
    let mut slots = Vec::new(alloc);
    let mut width = 0u32;
    for column in 0..program.roots.len() + program.stars.len() {
        if is_out(program, goings, kind, column) {
            slots.push(Cell::new(None))?;
            continue;
        }
        if width >= MOST_SLOTS {
            return Err(NoMemory);
        }
        slots.push(Cell::new(Some(width)))?;
        width += 1;
    }
    Ok(KindSlots { slots, width })
}

/// The slots for each kind, and last those where no token or one of a further kind stands.
pub fn slots_by_kind(
    alloc: Global,
    program: &Program,
    goings: &[u128],
) -> Result<Vec<KindSlots>, NoMemory>
    requires program { IsProgram program.now }
    requires goings { AreGoing program.now goings.now }
    requires well_formed { IsWellFormed (rules_of program.now) }
    ensures { IfOk result (λ slots. AreSlots program.now slots.items) }
{
    let mut all = Vec::new(alloc);
    for kind in 0..KINDS + 1 {
        let slots = slots_for(alloc, program, goings, kind)?;
        all.push(slots)?;
    }
    Ok(all)
}
