//! A rule in a file, apart from what a rule is made of.
ghost use Rattle.std.specs.Prelude.{◌≡◌, ℕ};
ghost use Rattle.pj_names.specs.Asking.{Asking};
ghost use Rattle.pj_names.specs.Told.{Asks};
ghost use Rattle.pj_reports.specs.declared.ruled.Ruled.{Ruled as RuledSeen};
ghost use Rattle.pj_xlaws.specs.Laws.{Reply};

use crate::analysis::rule_result;
use crate::view::FileView;
use pj_names::AskFault;
use pj_reports::Ruled;
use pj_rule_sets::Rule;
use pj_xvalue::Calls;

/// What comes to something by the functions of PMD in a file. A signature with the type of a rule in it names `'static`, and may not stand beside a type that
/// holds references of several lifetimes, as the functions of a file do.
pub trait ByCalls {
    /// How many nodes the tree of the file has.
    ghost nodes: { Self → ℕ };

    /// What it has to be.
    ghost is_sound: { Self → Type 0 };

    /// What it may mean, where the functions reply so.
    ghost may_mean: { Self → Reply → Asking RuledSeen → Type 0 };

    /// What it comes to.
    fn come_to<C: Calls>(&self, calls: &mut C) -> Result<Ruled, AskFault>
        requires sound { is_sound self.now }
        requires nodes { C.nodes calls.old ≡ nodes self.now }
        ensures nodes { C.nodes calls.new ≡ C.nodes calls.old }
        ensures reply { C.reply calls.new ≡ C.reply calls.old }
        ensures asks { (meaning : Asking RuledSeen) × may_mean self.now (C.reply calls.old) meaning × Asks meaning (C.tells calls.old) (C.tells calls.new) result };
}

/// A rule in a file that has a tree.
#[derive(Drop)]
pub struct FileRule<'t> {
    /// The file.
    pub file: &'t FileView<'t>,
    /// The rule.
    pub rule: &'t Rule,
}

impl<'t> ByCalls for FileRule<'t> {
    ghost use Rattle.std.specs.Prelude.{◌≡◌, length};
    ghost use Rattle.pj_workers.specs.RuleMeaning.{rule_in_file};
    ghost use Rattle.pj_workers.specs.Rules.{IsRuleOf, Rule as MeantRule};
    ghost use Rattle.pj_workers.specs.Views.{IsOfOneFile, file_seen};

    ghost nodes = { λ r. length (file_seen r.file.now).tree.nodes };

    ghost is_sound = { λ r. IsOfOneFile r.file.now };

    ghost may_mean = { λ r reply meaning. (meant : MeantRule) × IsRuleOf r.file.now.marker.now r.rule.now meant × (meaning ≡ rule_in_file reply (file_seen r.file.now) meant) };

    fn come_to<C: Calls>(&self, calls: &mut C) -> Result<Ruled, AskFault> {
        rule_result(self.file, self.rule, calls)
    }
}

/// What it comes to, as a call that may stand beside functions of several lifetimes.
pub fn result_by<R: ByCalls, C: Calls>(rule: &R, calls: &mut C) -> Result<Ruled, AskFault>
    requires sound { R.is_sound rule.now }
    requires nodes { C.nodes calls.old ≡ R.nodes rule.now }
    ensures nodes { C.nodes calls.new ≡ C.nodes calls.old }
    ensures reply { C.reply calls.new ≡ C.reply calls.old }
    ensures asks { (meaning : Asking RuledSeen) × R.may_mean rule.now (C.reply calls.old) meaning × Asks meaning (C.tells calls.old) (C.tells calls.new) result }
{
    rule.come_to(calls)
}
