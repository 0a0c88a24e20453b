//! What a search needs to know of a grammar, and what it keeps of a text.
use crate::slots::KindSlots;
use crate::table::Table;
use pj_base::NoMemory;
use pj_peg_grammar::Program;
use std::alloc::{AllocError, AllocFailed};

/// The nodes of a grammar, of each node the kinds of which one can stand where it goes on, and the slots for each kind.
#[derive(Drop)]
pub struct Plan {
    pub program: Program,
    pub goings: Vec<u128>,
    pub slots: Vec<KindSlots>,
}

/// Where does the rule or the repetition of a column end from the place on?
#[derive(Clone, Copy)]
pub struct Question {
    pub place: u32,
    pub column: usize,
}

/// The answers that are known, and the questions that were given up, each before the one that led to it.
#[derive(Drop)]
pub struct Memo {
    pub table: Table,
    pub given_up: Vec<Question>,
}

/// Why a search was stopped.
#[derive(Clone, Copy)]
pub enum Halt {
    /// It went too deep. The questions that it was at were given up.
    Depth,
    /// Memory ran out.
    Memory,
}

impl From<NoMemory> for Halt {
    fn from(_: NoMemory) -> Self {
        Halt::Memory
    }
}

impl From<AllocError> for Halt {
    fn from(_: AllocError) -> Self {
        Halt::Memory
    }
}

impl<T: Drop> From<AllocFailed<T>> for Halt {
    fn from(_: AllocFailed<T>) -> Self {
        Halt::Memory
    }
}
