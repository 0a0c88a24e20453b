//! Laws of runs without a premise: what rules mean comes to something over all class folders, so words and files have a run or a cause of refusal.
#![tactic(auto)]

mod laws;

pub use laws::{
    all_files_settle, all_replies_settle, all_runs_settle, folders_find_finitely,
    run_or_refusal_always,
};
