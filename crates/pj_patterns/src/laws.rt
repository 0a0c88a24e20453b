//! Laws of rules. The functions do nothing, and their contracts are the laws. `Kind` is what a word is, and `Set` names sets of characters.

ghost use Rattle.std.specs.Prelude.{◌≡◌, ℕ, Bool, List, [], ◌∷◌, Some};
ghost use Rattle.pj_patterns.specs.Rules.{Rule, FirstOf};
ghost use Rattle.pj_patterns.specs.Derivatives.{derive_rules, spells_none};

/// Rules say of a word that it is a kind exactly where the rules that are left behind its first character say so of the rest.
pub fn derivatives_are_exact<Kind, Set>()
    ensures from { (holds : Set → ℕ → Bool) (c : ℕ) (rules : List (Rule Kind Set)) (w : List ℕ) (k : Kind) →
        FirstOf holds rules (c ∷ w) k → FirstOf holds (derive_rules (λ s. holds s c) rules) w k }
    ensures to { (holds : Set → ℕ → Bool) (c : ℕ) (rules : List (Rule Kind Set)) (w : List ℕ) (k : Kind) →
        FirstOf holds (derive_rules (λ s. holds s c) rules) w k → FirstOf holds rules (c ∷ w) k }
{}

/// What the empty word is, is computed.
pub fn empty_word_is_told<Kind, Set>()
    ensures from { (holds : Set → ℕ → Bool) (rules : List (Rule Kind Set)) (k : Kind) → FirstOf holds rules [] k → spells_none rules ≡ Some k }
    ensures to { (holds : Set → ℕ → Bool) (rules : List (Rule Kind Set)) (k : Kind) → spells_none rules ≡ Some k → FirstOf holds rules [] k }
{}

/// A word is one kind at most.
pub fn first_rule_is_one<Kind, Set>()
    ensures { (holds : Set → ℕ → Bool) (rules : List (Rule Kind Set)) (w : List ℕ) (a b : Kind) → FirstOf holds rules w a → FirstOf holds rules w b → a ≡ b }
{}
