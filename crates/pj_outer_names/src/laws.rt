//! A law of the candidates of a name, the contract of a call that does nothing.
ghost use Rattle.std.specs.Prelude.{ℕ, List};
ghost use Rattle.pj_outer_names.specs.Candidates.{CandidatesEnd};

/// The number by which the candidates of a name are counted is never reached: with a larger one a name has the same candidates.
pub fn candidates_end()
    ensures { (text : List ℕ) → CandidatesEnd text }
{}
