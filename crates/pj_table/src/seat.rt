//! The table and its seats, as they are kept.
ghost use Rattle.std.specs.Prelude.{◌≡◌, ◌≤◌, true, [], vec_len, vec_capacity};
ghost use Rattle.pj_table.specs.Placed.{Placed};
ghost use Rattle.pj_table.specs.Plays.{Shaped};

use crate::law::Law;
use crate::part::Part;
use crate::steps::Place;
use crate::view::View;
use atomic_table::Table;
use std::alloc::Global;

/// A seat of a table, which one thread uses. Between two calls it has no ticket and no part.
#[derive(Drop)]
pub struct TableSeat {
    pub(crate) seat: Place,
    pub(crate) number: u32,
    pub(crate) files: u32,
    pub(crate) past: bool,
    pub(crate) given: u32,
    ghost rests: { (seat.me.0.live ≡ true) × (seat.me.0.at ≡ 0) },
    ghost empty: { seat.me.1 ≡ [] },
    ghost numbered: { (number ≡ seat.me.0.own.number) × (files ≡ seat.me.0.files) × (given ≡ seat.me.0.given) },
    ghost marked: { past ≡ seat.me.0.own.past },
    ghost placed: { Placed seat.me.0 },
}

/// A table of class answers that threads share, and the files that they claim. Each name lies in one of 64 parts.
#[derive(Drop)]
pub struct TypeTable {
    pub(crate) table: Table<Part, View, u32, Law, Global>,
    pub(crate) room: Vec<Part>,
    ghost shaped: { Shaped table.shared.table_id × (table.shared.table_id.slots ≡ 64) },
    ghost roomy: { (vec_len room ≡ 0) × (64 ≤ vec_capacity room) },
}
