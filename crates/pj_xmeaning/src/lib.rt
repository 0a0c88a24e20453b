//! What the tokens of an expression say.
//!
//! `specs/Reads.antt` says it rule by rule, for an expression and for the beginning of one, `specs/Begun.antt` which tokens begin one, where it nests too
//! deep and where a construct is left out, and `specs/SoFar.antt` how far a run of the parser reads them.
//! `reading` finds it by the productions of their derivation, of which each makes the value of its rule, from the last one to the first; it
//! recurses nowhere. `specs/Actions.antt` has an action for each production, which names what it makes, and `specs/Beginnings.antt` says at
//! which tokens the productions of a derivation begin. What a value is made of, once its action is known, is code of `pj_xreadings`.
#![tactic(auto)]

mod action;
mod actions;
mod change;
mod clause;
mod fold;
mod laws;
mod leaf;
mod operation;
mod part;
mod parts;
mod rest;
mod step;

pub use fold::reading;
pub use laws::{
    beginnings_are_read, depths_are_read, one_saying, readings_are_whole, runs_say,
    sayings_are_runs, what_is_left_out_is_read,
};
