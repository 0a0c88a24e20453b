//! Derivations, as their steps in preorder.
ghost use Rattle.std.specs.Prelude.{◌≡◌, ◌^◌, ◌<◌, ◌≤◌, Some, length, slice_get};
ghost use Rattle.pj_peg_grammar.specs.Derivation.{Forest, steps_of};

use std::marker::Model;

/// A rule that took the tokens from the place `from` up to the place `to`, counted from 0. `next` is the number of the first
/// later step that is not below it, or the number of steps where none follows.
#[derive(Clone, Copy, Debug, PartialEq, Eq)]
pub struct Step {
    pub rule: u16,
    pub from: u32,
    pub to: u32,
    pub next: u32,
}

/// A derivation as its steps in preorder, a rule before those that it called.
#[derive(Drop)]
pub struct Derivation {
    steps: Vec<Step>,
}

impl Model for Derivation {
    ghost use Rattle.std.specs.Prelude.{◌≡◌, ℕ, ◌^◌, ◌<◌, List, length};
    ghost use Rattle.pj_peg_grammar.specs.declared.derivation.Step.{Step};
    ghost use Rattle.pj_peg_grammar.specs.Derivation.{Forest, steps_of};

    ghost Value = { List Step };

    ghost view = { λ d. d.steps.items };

    ghost invariant = { λ d. (length d.steps.items < 2 ^ 32) × ((t : Forest) × (d.steps.items ≡ steps_of t)) };
}

impl Derivation {
    /// The derivation of these steps.
    pub fn of(steps: Vec<Step>) -> Derivation
        requires small { length steps.items < 2 ^ 32 }
        requires spelled { (t : Forest) × (steps.items ≡ steps_of t) }
        ensures { result ≡ steps.items }
    {
        Derivation { steps }
    }

    /// The number of steps.
    pub fn len(&self) -> u32
        ensures len { result ≡ length self.now }
        ensures spelled { (t : Forest) × (self.now ≡ steps_of t) }
    {
        self.steps.len() as u32
    }

    /// The step of this number, counted from 0.
    pub fn step(&self, i: u32) -> Step
        requires there { i < length self.now }
        ensures step { slice_get self.now i ≡ Some result }
        ensures later { i < result.next }
        ensures within { result.next ≤ length self.now }
    {
        self.steps[i as usize]
    }
}
