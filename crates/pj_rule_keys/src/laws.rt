//! Laws of keys, each the contract of a call that does nothing.
ghost use Rattle.std.specs.Prelude.{◌≡◌, List};
ghost use Rattle.std.specs.List.{All};
ghost use Rattle.pj_old_format.specs.ListKeys.{IsListKey};
ghost use Rattle.pj_rule_texts.specs.Values.{Text};
ghost use Rattle.pj_rule_sets.specs.Rules.{EffectiveRule};
ghost use Rattle.pj_rule_keys.specs.Keys.{HasRoom, FitsKey, FitListKey, IsSameRule, key_of, list_key_of};
ghost use Rattle.pj_rule_keys.specs.OldTexts.{HasOldTexts, IsWords};

/// Rules of one key have one marker, and are the same but for the numbers of their top rulesets.
pub fn keys_tell_rules()
    ensures { (marker other : Text) (first second : EffectiveRule) → HasRoom marker → HasRoom other → FitsKey first → FitsKey second → key_of marker first ≡ key_of other second → (marker ≡ other) × IsSameRule first second }
{}

/// Lists of rules of one key have one marker and are the same, and so their rules have the same keys.
pub fn list_keys_tell_rules()
    ensures { (marker other : Text) (rules others : List EffectiveRule) → HasRoom marker → HasRoom other → FitListKey rules → FitListKey others → list_key_of marker rules ≡ list_key_of other others → (marker ≡ other) × (rules ≡ others) }
{}

/// The key of a list of rules is one that format 1 of caches reads, where its texts are in UTF-8 and fit, the numbers of the top rulesets have 32 bits and priorities are from 1 to 5.
pub fn list_keys_are_of_format_one()
    ensures { (marker : Text) (rules : List EffectiveRule) → HasRoom marker → IsWords marker → FitListKey rules → All HasOldTexts rules → IsListKey (list_key_of marker rules) }
{}
