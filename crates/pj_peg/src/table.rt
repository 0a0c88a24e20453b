//! The table of the answers of a search, and the small cells of such tables.
ghost use Rattle.std.specs.Prelude.{◌≡◌, ℕ, ◌+◌, ◌^◌, ◌<◌, ◌≤◌, length, IfOk, IfSome, IsSome, Option, Some, None, slice_get};
ghost use Rattle.pj_peg.specs.declared.slots.KindSlots.{KindSlots as AnyKindSlots};
ghost use Rattle.pj_peg.specs.Table.{cell_at};
ghost use Rattle.pj_peg.specs.Slots.{row_number};

use crate::slots::{KindSlots, row_number};
use pj_base::NoMemory;
use std::alloc::Global;
use std::marker::Model;

/// A number, or none, in four bytes.
#[derive(Clone, Copy)]
pub struct Cell {
    code: u32,
}

impl Model for Cell {
    ghost use Rattle.std.specs.Prelude.{ℕ, Option};
    ghost use Rattle.pj_peg.specs.Table.{end_of_code, code_of_end};
    ghost use Rattle.pj_peg.specs.Codes.{code_of_end-end_of_code};

    ghost Value = { Option ℕ };

    ghost view = { λ c. end_of_code c.code };

    ghost inverse = { λ o. record { code = code_of_end o } };

    ghost inverse_ok = { λ c h. code_of_end-end_of_code c };
}

impl Cell {
    /// A cell of this number, or of none.
    pub fn new(number: Option<u32>) -> Cell
        requires { IfSome number (λ e. e + 1 < 2 ^ 32) }
        ensures { result ≡ number }
    {
        match number {
            None => Cell { code: 0 },
            Some(number) => Cell { code: number + 1 },
        }
    }

    /// The number of the cell.
    pub fn number(self) -> Option<u32>
        ensures { result ≡ self }
    {
        if self.code == 0 {
            None
        } else {
            Some(self.code - 1)
        }
    }
}

/// A row for each place of a text, and in it a cell for each slot of the kind of token that stands there. A cell has the code
/// of an end, or nothing as long as the end is not known.
#[derive(Drop)]
pub struct Table {
    rows: Vec<Vec<Cell>>,
}

impl Model for Table {
    ghost use Rattle.std.specs.Prelude.{ℕ, List, Option, Vec, map};
    ghost use Rattle.std.specs.Global.{Global};

    ghost Value = { List (List (Option ℕ)) };

    ghost view = { λ t. map (λ (row : Vec (Option ℕ) Global). row.items) t.rows.items };
}

impl Table {
    /// A table that knows nothing yet.
    pub fn new(alloc: Global, kinds: &[u16], slots: &[KindSlots]) -> Result<Table, NoMemory>
        requires small { length kinds.now ≤ 200000 }
        requires slots { 128 < length slots.now }
        ensures { IfOk result (λ table. (i s : ℕ) (row : AnyKindSlots) → i ≤ length kinds.now → slice_get slots.now (row_number kinds.now i) ≡ Some row → s < row.width →
            cell_at table i s ≡ Some None) }
    {
        let mut rows = Vec::with_capacity(alloc, kinds.len() + 1)?;
        for place in 0..kinds.len() + 1 {
            let width = slots[row_number(kinds, place)].width;
            let row = unknown(alloc, width)?;
            rows.push(row)?;
        }
        Ok(Table { rows })
    }

    /// What the cell has.
    pub fn code(&self, place: u32, slot: u32) -> Option<u32>
        requires { IsSome (cell_at self.now place slot) }
        ensures { cell_at self.now place slot ≡ Some result }
    {
        let row = &self.rows[place as usize];
        row[slot as usize].number()
    }

    /// Sets the cell, and no other.
    pub fn set(&mut self, place: u32, slot: u32, code: u32)
        requires cell { IsSome (cell_at self.old place slot) }
        requires fits { code + 1 < 2 ^ 32 }
        ensures here { cell_at self.new place slot ≡ Some (Some code) }
        ensures others { (i c : ℕ) → (i ≡ place → c ≡ slot → ⊥) → cell_at self.new i c ≡ cell_at self.old i c }
    {
        let row = &mut self.rows[place as usize];
        row[slot as usize] = Cell::new(Some(code));
    }
}

/// A row of cells that have nothing.
fn unknown(alloc: Global, width: u32) -> Result<Vec<Cell>, NoMemory>
    ensures { IfOk result (λ row. (s : ℕ) → s < width → slice_get row.items s ≡ Some None) }
{
    let mut row = Vec::new(alloc);
    row.resize(width as usize, Cell::new(None))?;
    Ok(row)
}
