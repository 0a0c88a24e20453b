//! Laws of the definitions, each the contract of a call that does nothing.
ghost use Rattle.std.specs.Prelude.{List};
ghost use Rattle.pj_workers.specs.Rules.{AreRulesOf, Rule};
ghost use Rattle.pj_workers.specs.Laws.{ChosenAreFile, ColdFindsWhatIsDenoted, ColdIsInOrder, ErrorsHaveRules, ErrorsTellCodes, FilesAreInOrder, FilesAreTheirRules, FindingsAreDenoted, FindingsHaveRules, FoundAreDenoted, InactiveIsNothing, ListsAreTexts, MarksAreOne, MessagesTellCodes, NamesAreTheirRules, NoTreeIsOneError, OneCold, OnlyTypesAsk, PackagesAreOfTrees, RuleAscends, RulesAreTexts, SettleByReplies, SettleWithoutTypes, SettledCold, SomeCold, SpotsAreNodes, SpotsHaveReasons};

use pj_findings::{errors_are_the_rules, findings_are_the_rules, nodes_are_the_items};
use pj_rule_sets::RuleSet;
use pj_xlaws::trees_tell_expressions;
use pj_xparse::one_expression;
use pj_xpatterns::trees_tell_patterns;

/// A rule that is not active for a path means nothing at a file of that path, and asks for no class.
pub fn inactive_rules_mean_nothing()
    ensures { InactiveIsNothing }
{}

/// A file without a tree has its one error whatever the rules are, and no class is asked for.
pub fn files_without_tree_have_one_error()
    ensures { NoTreeIsOneError }
{}

/// What a rule finds in a file ascends by node, so that no node stands twice, and each finding stands where its node does.
pub fn rules_find_nodes()
    ensures ascend { RuleAscends }
    ensures spots { SpotsAreNodes }
{
    nodes_are_the_items();
}

/// What rules mean at a file has the findings by node and then by rule, none twice, and the errors by rule. Of each rule it has just what
/// this rule alone means there, findings or an error, and of no others anything, where the file has a tree. So what is kept of single rules is
/// merged again to the file's meaning. The names that it asks are those that its rules ask, together.
pub fn files_are_their_rules()
    ensures in_order { FilesAreInOrder }
    ensures of_rules { FilesAreTheirRules }
    ensures have_rules { FindingsHaveRules }
    ensures errors_have_rules { ErrorsHaveRules }
    ensures package_name { PackagesAreOfTrees }
    ensures names { NamesAreTheirRules }
{
    nodes_are_the_items();
    findings_are_the_rules();
    errors_are_the_rules();
}

/// What all rules of a list come to at a file, one after the other, is merged with the file's head to what they mean together there. So the runs of rules
/// by their numbers are the parts of the file's meaning.
pub fn chosen_rules_are_the_file()
    ensures { ChosenAreFile }
{}

/// The nodes that a rule finds in a file are the elements that its query denotes there, each with the first reason that covers the finding,
/// and without one exactly where nothing covers it. The rule comes to a message exactly where its query, an item of it or a reason gives a code,
/// and the message tells the first.
pub fn rules_find_what_they_denote()
    ensures nodes { FoundAreDenoted }
    ensures codes { MessagesTellCodes }
    ensures reasons { SpotsHaveReasons }
{
    nodes_are_the_items();
}

/// From the bytes of a file to its rows: where they have a tree and a rule is active for the path, the rows have an error of the rule exactly where
/// it has a code there, and else a finding of it at just the nodes that its query denotes.
pub fn findings_are_denoted()
    ensures findings { FindingsAreDenoted }
    ensures errors { ErrorsTellCodes }
{
    files_are_their_rules();
    rules_find_what_they_denote();
}

/// A cold report has the files in their order, and the rows of each in order.
pub fn cold_reports_are_in_order()
    ensures { ColdIsInOrder }
{
    files_are_their_rules();
}

/// A cold report says of each file and each rule that is active for its path, from the bytes of the file on: where the file has a tree and the rule no
/// error there, it has a finding of the rule at just the nodes that the rule's query denotes, and each finding has the first reason that covers it, or none
/// exactly where nothing does.
pub fn cold_reports_find_what_is_denoted()
    ensures { ColdFindsWhatIsDenoted }
{
    files_are_their_rules();
    findings_are_denoted();
    rules_find_what_they_denote();
}

/// Rules have one cold report of files at most.
pub fn one_cold_report()
    ensures { OneCold }
{}

/// Rules have a cold report of files where the functions of PMD that they call ask for no class and recur within bounds, and it is the same over every
/// world.
pub fn some_cold_report()
    ensures { SomeCold }
{}

/// Rules have a cold report of files where what they mean at each of them comes to something.
pub fn settled_cold_report()
    ensures { SettledCold }
{}

/// What rules mean at a file comes to something over a world of classes, if what the functions of PMD that they call reply there does. All but `typeIs`,
/// `typeIsExactly`, `hasAnnotation` and `matchesSig` ask for no class, so rules that call none of these four come to something over every world.
pub fn what_rules_mean_settles()
    ensures replies { SettleByReplies }
    ensures only_types { OnlyTypesAsk }
    ensures without_types { SettleWithoutTypes }
{}

/// What rules mean is determined by their texts, the path patterns of their rulesets and the marker.
pub fn rules_are_their_texts()
    ensures one { RulesAreTexts }
    ensures all { ListsAreTexts }
{
    one_expression();
    trees_tell_expressions();
    trees_tell_patterns();
}

/// The lines that comments mark in a Java file are those that `pj_suppress` has of its tokens.
pub fn marked_lines_are_those_of_tokens()
    ensures { MarksAreOne }
{}

/// The texts of the rules of a set spell expressions, so that the set has rules that mean something.
pub fn sets_have_rules(rules: &RuleSet)
    ensures { (meant : List Rule) × AreRulesOf rules.now meant }
{
    for rule in rules.rules().as_slice() {
        let _ = rule.expressions();
    }
}
