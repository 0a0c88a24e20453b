//! The laws of derivations.
ghost use Rattle.std.specs.Prelude.{◌≡◌, ℕ, ◌<◌, ◌≤◌, List, length, All};
ghost use Rattle.pj_peg_grammar.specs.Form.{Form, rule};
ghost use Rattle.pj_peg_grammar.specs.Derives.{Derives, Outcome, DerivesSteps};
ghost use Rattle.pj_peg_grammar.specs.WellFormed.{IsWellFormed};
ghost use Rattle.pj_peg_grammar.specs.declared.derivation.Step.{Step as AnyStep};

/// One outcome: in a well-formed grammar each rule has exactly one outcome at each place. It does nothing, and its contract is
/// the law.
pub fn one_outcome()
    ensures one_outcome { (rules : List Form) (kinds : List ℕ) (r i : ℕ) → IsWellFormed rules → r < length rules →
        (o : Outcome) × Derives rules kinds (rule r) i o × ((p : Outcome) → Derives rules kinds (rule r) i p → p ≡ o) }
{}

/// The steps of a derivation take tokens of the text, each from a place up to the same or a later one. It does nothing, and its
/// contract is the law.
pub fn steps_are_in_text()
    ensures steps_are_in_text { (rules : List Form) (kinds : List ℕ) (steps : List AnyStep) → DerivesSteps rules kinds steps →
        All (λ (step : AnyStep). (step.from ≤ step.to) × (step.to ≤ length kinds)) steps }
{}
