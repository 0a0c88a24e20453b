//! The table of the predictive parser: which production it chooses for a rule, by the next terminal.
ghost use Rattle.std.specs.Prelude.{◌≡◌, ◌≢◌, ℕ, ◌^◌, ◌+◌, ◌≤◌, ◌<◌, Some, None, Option, length, map, slice_get, IfOk, OnOk};
ghost use Rattle.pj_ll.specs.Grammar.{Entry, entries_of};
ghost use Rattle.pj_ll.specs.Entries.{entry_of};
ghost use Rattle.pj_ll.specs.Table.{AddsChoices, AreChoices, IsChoice, cell, choice_in, column_of, row_at};

use crate::grammar::{Piece, Production, Symbol};
use crate::reading::productions_of;
use pj_base::NoMemory;
use std::alloc::Global;
use std::marker::Model;

/// A table of which production the parser chooses for a rule at a terminal or at the end, made of a grammar's productions with
/// their select sets. Clauses see it as the list of these.
#[derive(Drop)]
pub struct Table {
    productions: Vec<Production>,
    /// For each rule the choices by their columns.
    rows: Vec<Vec<Option<u16>>>,
}

impl Model for Table {
    ghost use Rattle.std.specs.Prelude.{List, map};
    ghost use Rattle.pj_ll.specs.Grammar.{Entry};
    ghost use Rattle.pj_ll.specs.Entries.{entry_of};
    ghost use Rattle.pj_ll.specs.Table.{AreChoices};

    ghost Value = { List Entry };

    ghost view = { λ t. map entry_of t.productions.items };

    ghost invariant = { λ t. AreChoices (map entry_of t.productions.items) t.rows.items };
}

/// The column of the choices at a terminal, or at the end.
fn column_of(ahead: Option<u16>) -> usize
    ensures { result ≡ column_of ahead }
{
    match ahead {
        None => 0,
        Some(terminal) => terminal as usize + 1,
    }
}

/// What the row has in a column.
fn cell(row: &[Option<u16>], column: usize) -> Option<u16>
    ensures { result ≡ cell row.now column }
{
    if column < row.len() {
        row[column]
    } else {
        None
    }
}

/// Makes rows up to that of the rule, in which nothing is chosen.
fn add_rows(alloc: Global, rows: &mut Vec<Vec<Option<u16>>>, rule: u16) -> Result<(), NoMemory>
    ensures there { OnOk result (rule < length rows.new.items) }
    ensures unchanged { OnOk result ((n : ℕ) → row_at rows.new.items n ≡ row_at rows.old.items n) }
{
    for _ in rows.len()..rule as usize + 1 {
        rows.push(Vec::new(alloc))?;
    }
    Ok(())
}

/// Sets the choice in a column, and no other.
fn set(row: &mut Vec<Option<u16>>, column: usize, number: u16) -> Result<(), NoMemory>
    requires { column ≤ 2 ^ 16 }
    ensures here { OnOk result (cell row.new.items column ≡ Some number) }
    ensures others { OnOk result ((c : ℕ) → c ≢ column → cell row.new.items c ≡ cell row.old.items c) }
{
    if row.len() <= column {
        row.resize(column + 1, None)?;
    }
    row[column] = Some(number);
    Ok(())
}

/// Sets the choice wherever the production is chosen.
fn add_choices(
    row: &mut Vec<Option<u16>>,
    production: &Production,
    number: u16,
) -> Result<(), NoMemory>
    ensures { OnOk result (AddsChoices production.now.on.items production.now.at_end number row.old.items row.new.items) }
{
    for terminal in &production.on {
        set(row, column_of(Some(*terminal)), number)?;
    }
    if production.at_end {
        set(row, column_of(None), number)?;
    }
    Ok(())
}

/// Adds what is chosen of a production to the row of its rule.
fn add_production(
    alloc: Global,
    rows: &mut Vec<Vec<Option<u16>>>,
    production: &Production,
    number: u16,
) -> Result<(), NoMemory>
    ensures here { OnOk result (AddsChoices production.now.on.items production.now.at_end number (row_at rows.old.items production.now.rule) (row_at rows.new.items production.now.rule)) }
    ensures others { OnOk result ((n : ℕ) → n ≢ production.now.rule → row_at rows.new.items n ≡ row_at rows.old.items n) }
{
    add_rows(alloc, rows, production.rule)?;
    let row = &mut rows[production.rule as usize];
    add_choices(row, production, number)?;
    Ok(())
}

impl Table {
    /// The table of the productions that these pieces spell, of which there are at most 65,536. It fails only for want of memory.
    pub fn new(alloc: Global, pieces: &[Piece]) -> Result<Table, NoMemory>
        requires few { length (entries_of pieces.now) ≤ 2 ^ 16 }
        ensures productions { IfOk result (λ table. table ≡ entries_of pieces.now) }
    {
        let productions = productions_of(alloc, pieces)?;
        let mut rows: Vec<Vec<Option<u16>>> = Vec::new(alloc);
        for number in 0..productions.len() {
            add_production(alloc, &mut rows, &productions[number], number as u16)?;
        }
        Ok(Table { productions, rows })
    }

    /// The number of the production that is chosen for the rule.
    pub(crate) fn choice(&self, rule: u16, ahead: Option<u16>) -> Option<u16>
        ensures { IsChoice self.now rule ahead result }
    {
        if rule as usize >= self.rows.len() {
            return None;
        }
        cell(&self.rows[rule as usize], column_of(ahead))
    }

    /// The symbols of the production of this number.
    pub(crate) fn symbols(&self, number: u16) -> &[Symbol]
        requires { number < length self.now }
        ensures { (x : Entry) → slice_get self.now number ≡ Some x → result.now ≡ x.symbols }
    {
        &self.productions[number as usize].symbols
    }
}
