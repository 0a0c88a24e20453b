//! Laws of caches with written rules, each the contract of a call that does nothing.
ghost use Rattle.std.specs.Prelude.{◌≡◌, ℕ, List, Option, Some};
ghost use Rattle.std.specs.List.{All};
ghost use Rattle.pj_cache.specs.declared.cache.Cache.{Cache};
ghost use Rattle.pj_cache_format.specs.Decoded.{text_two};
ghost use Rattle.pj_cache_format.specs.Fitting.{FitsFields};
ghost use Rattle.pj_cache_laws.specs.Reported.{report_of, rules_of};
ghost use Rattle.pj_cache_laws.specs.Written.{AreFiles, AreWrittenRules, WrittenRule};
ghost use Rattle.pj_fitting.specs.Fits.{CacheFits, IsFound};
ghost use Rattle.pj_fitting.specs.Left.{File, IsLeftCache};
ghost use Rattle.pj_fitting.specs.Right.{Files};
ghost use Rattle.pj_names.specs.ClassName.{Name};
ghost use Rattle.pj_names.specs.declared.answer.Answer.{Answer};
ghost use Rattle.pj_names.specs.declared.rule_row.ConfigError.{ConfigError};
ghost use Rattle.pj_rule_keys.specs.Keys.{FitsKey, HasRoom, key_of};
ghost use Rattle.pj_rule_sets.specs.Rules.{EffectiveRules};
ghost use Rattle.pj_workers.specs.Cold.{IsCold};
ghost use Rattle.pj_outside.specs.Files.{Bytes};
ghost use Rattle.pj_workers.specs.FileMeaning.{Replies, rule_meaning};
ghost use Rattle.pj_workers.specs.Rules.{AreRulesOf, Rule};

use pj_rule_keys::keys_tell_rules;
use pj_workers::{inactive_rules_mean_nothing, rules_are_their_texts};

/// Written rules of one key have one meaning at every path with whatever bytes. So what they ask and what they come to is the same, over every
/// source of answers.
pub fn rules_of_one_key_have_one_meaning()
    ensures { (replies : Replies) (path bytes : Bytes) (first second : WrittenRule) → key_of first.marker first.effective ≡ key_of second.marker second.effective → rule_meaning replies path bytes first.rule ≡ rule_meaning replies path bytes second.rule }
{
    keys_tell_rules();
    rules_are_their_texts();
}

/// The rules of a set are written rules, where a key has room for their texts and the marker, as it does for each rule that has a key.
pub fn rules_of_sets_are_written()
    ensures { (set : EffectiveRules) (meant : List Rule) → AreRulesOf set meant → HasRoom set.marker → All FitsKey set.rules → (held : List WrittenRule) × AreWrittenRules set meant held }
{}

/// There are files with all written rules, as the laws of right caches want them: the key of a rule settles what it means, and a rule means
/// nothing where it is not active or the file has no tree.
pub fn written_rules_have_files()
    ensures { (replies : Replies) → (files : Files WrittenRule) × AreFiles replies files }
{
    keys_tell_rules();
    rules_are_their_texts();
    inactive_rules_mean_nothing();
}

/// Where what a run finds in the place of a cache fits, the report that the cache it leaves makes is the cold report of its rules over its files
/// and classes (`cold`). The text of the cache that it leaves fits again, if the cache fits its fields (`fits`).
pub fn left_caches_make_cold_reports()
    ensures cold { (replies : Replies) (files : Files WrittenRule) → AreFiles replies files → (world : Name → Answer) (content : Option (List ℕ)) (found : Cache) (held : List WrittenRule) (unusable : List ConfigError) (list : List File) (c : Cache)
        → CacheFits files content → IsFound content found → IsLeftCache files world found held list c → IsCold replies world list (rules_of held) unusable (report_of files held unusable list c) }
    ensures fits { (files : Files WrittenRule) (world : Name → Answer) (content : Option (List ℕ)) (found : Cache) (held : List WrittenRule) (list : List File) (c : Cache)
        → CacheFits files content → IsFound content found → IsLeftCache files world found held list c → FitsFields c → CacheFits files (Some (text_two c)) }
{}
