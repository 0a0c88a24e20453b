//! Grammars of one terminal of lookahead, LL(1), and the predictive parser (A. Aho, M. Lam, R. Sethi, J. Ullman, Compilers,
//! second edition, section 4.4).
//!
//! What a grammar derives is the relation `Leads` of `specs/Leads.antt`, and how a run of the parser ends is said in
//! `specs/Outcome.antt`, for every grammar. `specs/Steps.antt` says at which place each production of a derivation begins.
//! `specs/Predictive.antt` says for which grammars and select sets the parser is exact; `specs/Test.antt` has the test by which
//! a table of productions is shown to be such a grammar.
//!
//! `parse` keeps the symbols that are still to come on a stack on the heap, so nesting in the text costs no stack of calls. Its
//! time is linear in the terminals; no clause says this.
#![tactic(auto)]

mod grammar;
mod laws;
mod parser;
mod reading;
mod stack;
mod table;

pub use grammar::{Piece, Symbol};
pub use laws::{derived_is_not_left_out, one_derivation, one_end, tested_tables_are_predictive};
pub use parser::{End, Run, Step, parse};
pub use table::Table;
