//! XPath: the expression that a text spells, or its first fault.
//!
//! `specs/Spells.antt` says which expression a text spells, and `specs/Faults.antt` what the first fault is of a text that spells
//! none; both go by what is read of its tokens rule by rule (`specs/Reads.antt` of `pj_xmeaning`): `specs/Outcomes.antt` says which tokens have a
//! fault, and where, and `specs/NameFaults.antt` what the first fault is of what they name. `parse_with` gives the one or the other; it calls the tokens, the
//! derivation, its reading and the judging of names, and recurses nowhere. `parse` gives it of one text, and makes the parser for it.
//!
//! Laws tie what tokens say to leftmost derivations. Laws about expressions are proved of what tokens say.
#![tactic(auto)]

mod bound;
mod expression;
mod fault;
mod laws;
mod named;
mod syntax;
mod written;

pub use expression::{parse, parse_with};
pub use fault::XSyntax;
pub use laws::{
    beginnings_are_read, derivations_are_readings, one_answer, one_expression, one_reading,
    one_saying, outcomes_are_read, read_expressions_fit, readings_are_derivations,
    readings_are_expressions, runs_say, sayings_are_runs, sayings_end_with_runs, some_answer,
    tokens_are_well_spelled,
};
pub use pj_xderive::Parser;
