//! What a rule finds in a file that has a tree.
ghost use Rattle.std.specs.Prelude.{◌≡◌, ◌<◌, IfOk, None, length};
ghost use Rattle.std.specs.List.{All};
ghost use Rattle.pj_findings.specs.Extents.{extent_of};
ghost use Rattle.pj_names.specs.Told.{Asks};
ghost use Rattle.pj_rule_sets.specs.Expressions.{HasPatterns, variables_of};
ghost use Rattle.pj_rule_sets.specs.Rules.{texts_of};
ghost use Rattle.pj_xsteps.specs.Context.{at};
ghost use Rattle.pj_xvalue.specs.Items.{IsOfTree, value_of_item, values_of};
ghost use Rattle.pj_xvalue.specs.OfTree.{OfTree};
ghost use Rattle.pj_xvalue.specs.Replies.{outcome};
ghost use Rattle.pj_workers.specs.FileFacts.{place_of};
ghost use Rattle.pj_workers.specs.Reasons.{plain_reason_of};
ghost use Rattle.pj_workers.specs.RuleMeaning.{covers, found, found_at, reason_after, reason_at, rule_in_file, extent_at, value_of};
ghost use Rattle.pj_workers.specs.Rules.{IsRuleOf, Rule as MeantRule};
ghost use Rattle.pj_workers.specs.Views.{HasItsPatterns, IsOfOneFile, file_seen, found_there, rule_seen};

use crate::view::{FileView, RuleView};
use pj_findings::{Extent, denoted_nodes, extent_of, plain_reason, rule_message};
use pj_names::AskFault;
use pj_reports::{Reason, Ruled, Spot, Spots};
use pj_rule_sets::{Rule, Spelled};
use pj_tree::Node;
use pj_xeval::{Focus, evaluate};
use pj_xlaws::patterns_are_a_set;
use pj_xvalue::{Calls, Item, Sequence, XFault, boolean_value};

/// The value of an expression of a rule with an item as its context.
fn value_of<'t, C: Calls>(
    view: &RuleView<'t>,
    spelled: &'t Spelled,
    item: Item<'t>,
    calls: &mut C,
) -> Result<Sequence<'t>, XFault>
    requires file { IsOfOneFile view.now.file.now }
    requires patterns { HasPatterns (variables_of (texts_of view.now.rule.now)) spelled.now }
    requires nodes { C.nodes calls.old ≡ length (file_seen view.now.file.now).tree.nodes }
    requires item { IsOfTree (length (file_seen view.now.file.now).tree.nodes) (value_of_item item) }
    ensures nodes { C.nodes calls.new ≡ C.nodes calls.old }
    ensures reply { C.reply calls.new ≡ C.reply calls.old }
    ensures of_tree { IfOk result (λ items. OfTree (length (file_seen view.now.file.now).tree.nodes) (values_of items)) }
    ensures asks { Asks (value_of (C.reply calls.old) (file_seen view.now.file.now) (rule_seen view.now) spelled.now.expr (at (value_of_item item.entry) 1 1)) (C.tells calls.old) (C.tells calls.new) (outcome values_of result) }
{
    patterns_are_a_set();
    let file = view.file;
    let focus = Focus {
        item,
        position: 1,
        size: 1,
        variables: view.rule.variables(),
        patterns: &spelled.patterns,
    };
    evaluate(
        file.alloc,
        &spelled.expr,
        focus,
        file.tree,
        file.facts,
        calls,
    )
}

/// The reason by an expression: whether it has the effective boolean value true with the node as its context.
fn covers<'t, C: Calls>(
    view: &RuleView<'t>,
    spelled: &'t Spelled,
    n: Node,
    calls: &mut C,
) -> Result<Option<Reason>, XFault>
    requires file { IsOfOneFile view.now.file.now }
    requires patterns { HasPatterns (variables_of (texts_of view.now.rule.now)) spelled.now }
    requires nodes { C.nodes calls.old ≡ length (file_seen view.now.file.now).tree.nodes }
    requires inside { n.0 < length (file_seen view.now.file.now).tree.nodes }
    ensures nodes { C.nodes calls.new ≡ C.nodes calls.old }
    ensures reply { C.reply calls.new ≡ C.reply calls.old }
    ensures asks { Asks (covers (C.reply calls.old) (file_seen view.now.file.now) (rule_seen view.now) spelled.now.expr n) (C.tells calls.old) (C.tells calls.new) (outcome (λ reason. reason) result) }
{
    let value = value_of(view, spelled, Item::Node(n), calls)?;
    if boolean_value(&value)? {
        return Ok(Some(Reason::XPath));
    }
    Ok(None)
}

/// The reason by the rule's XPath, where it has one.
fn xpath_reason<'t, C: Calls>(
    view: &RuleView<'t>,
    n: Node,
    calls: &mut C,
) -> Result<Option<Reason>, XFault>
    requires file { IsOfOneFile view.now.file.now }
    requires patterns { HasItsPatterns view.now.rule.now view.now.kept.now }
    requires nodes { C.nodes calls.old ≡ length (file_seen view.now.file.now).tree.nodes }
    requires inside { n.0 < length (file_seen view.now.file.now).tree.nodes }
    ensures nodes { C.nodes calls.new ≡ C.nodes calls.old }
    ensures reply { C.reply calls.new ≡ C.reply calls.old }
    ensures asks { Asks (reason_after (C.reply calls.old) (file_seen view.now.file.now) (rule_seen view.now) None (rule_seen view.now).suppression n) (C.tells calls.old) (C.tells calls.new) (outcome (λ reason. reason) result) }
{
    match &view.kept.suppression {
        None => Ok(None),
        Some(spelled) => covers(view, spelled, n, calls),
    }
}

/// The first of the reasons for which nothing is evaluated.
fn reason_of(view: &RuleView<'_>, n: Node, extent: Extent) -> Option<Reason>
    requires file { IsOfOneFile view.now.file.now }
    requires inside { n.0 < length (file_seen view.now.file.now).tree.nodes }
    ensures { result ≡ plain_reason_of (file_seen view.now.file.now) (rule_seen view.now) n extent }
{
    let file = view.file;
    let rule = view.rule;
    plain_reason(
        file.tree,
        file.facts,
        file.marked,
        &rule.row.name,
        rule.covers(),
        n,
        extent.begin.line,
    )
}

/// The first reason that covers a node which the rule finds.
fn reason_at<'t, C: Calls>(
    view: &RuleView<'t>,
    n: Node,
    extent: Extent,
    calls: &mut C,
) -> Result<Option<Reason>, XFault>
    requires file { IsOfOneFile view.now.file.now }
    requires patterns { HasItsPatterns view.now.rule.now view.now.kept.now }
    requires nodes { C.nodes calls.old ≡ length (file_seen view.now.file.now).tree.nodes }
    requires inside { n.0 < length (file_seen view.now.file.now).tree.nodes }
    requires extent { extent ≡ extent_at (C.reply calls.old) (file_seen view.now.file.now) (rule_seen view.now) n }
    ensures nodes { C.nodes calls.new ≡ C.nodes calls.old }
    ensures reply { C.reply calls.new ≡ C.reply calls.old }
    ensures asks { Asks (reason_at (C.reply calls.old) (file_seen view.now.file.now) (rule_seen view.now) n) (C.tells calls.old) (C.tells calls.new) (outcome (λ reason. reason) result) }
{
    match reason_of(view, n, extent) {
        Some(reason) => Ok(Some(reason)),
        None => xpath_reason(view, n, calls),
    }
}

/// Where a node of the file stands.
fn extent_at(view: &RuleView<'_>, n: Node) -> Extent
    requires file { IsOfOneFile view.now.file.now }
    requires inside { n.0 < length (file_seen view.now.file.now).tree.nodes }
    ensures { result ≡ extent_of (place_of (file_seen view.now.file.now)) (file_seen view.now.file.now).tree n }
{
    extent_of(view.file.tree, view.file.facts, n)
}

/// What the rule finds at a node.
fn found_at<'t, C: Calls>(view: &RuleView<'t>, n: Node, calls: &mut C) -> Result<Spot, XFault>
    requires file { IsOfOneFile view.now.file.now }
    requires patterns { HasItsPatterns view.now.rule.now view.now.kept.now }
    requires nodes { C.nodes calls.old ≡ length (file_seen view.now.file.now).tree.nodes }
    requires inside { n.0 < length (file_seen view.now.file.now).tree.nodes }
    ensures nodes { C.nodes calls.new ≡ C.nodes calls.old }
    ensures reply { C.reply calls.new ≡ C.reply calls.old }
    ensures asks { Asks (found_there (C.reply calls.old) (file_seen view.now.file.now) (rule_seen view.now) n) (C.tells calls.old) (C.tells calls.new) (outcome (λ found. found) result) }
{
    let extent = extent_at(view, n);
    let reason = reason_at(view, n, extent, calls)?;
    Ok(Spot {
        node: n.0,
        begin: extent.begin,
        end: extent.end,
        reason,
    })
}

/// What the rule finds at nodes, up to the first code.
fn found_at_all<'t, C: Calls>(
    view: &RuleView<'t>,
    nodes: &[Node],
    calls: &mut C,
) -> Result<Spots, XFault>
    requires file { IsOfOneFile view.now.file.now }
    requires patterns { HasItsPatterns view.now.rule.now view.now.kept.now }
    requires nodes { C.nodes calls.old ≡ length (file_seen view.now.file.now).tree.nodes }
    requires inside { All (λ n. n.0 < length (file_seen view.now.file.now).tree.nodes) nodes.now }
    ensures nodes { C.nodes calls.new ≡ C.nodes calls.old }
    ensures reply { C.reply calls.new ≡ C.reply calls.old }
    ensures asks { Asks (found_at (C.reply calls.old) (file_seen view.now.file.now) (rule_seen view.now) nodes.now) (C.tells calls.old) (C.tells calls.new) (outcome (λ found. found) result) }
{
    let mut all = Spots::new(view.file.alloc);
    for n in nodes {
        let found = found_at(view, *n, calls)?;
        all.push(found)?;
    }
    Ok(all)
}

/// What the rule finds. Reasons are sought once the whole query and its items gave no code.
fn found<'t, C: Calls>(view: &RuleView<'t>, calls: &mut C) -> Result<Spots, XFault>
    requires file { IsOfOneFile view.now.file.now }
    requires patterns { HasItsPatterns view.now.rule.now view.now.kept.now }
    requires nodes { C.nodes calls.old ≡ length (file_seen view.now.file.now).tree.nodes }
    ensures nodes { C.nodes calls.new ≡ C.nodes calls.old }
    ensures reply { C.reply calls.new ≡ C.reply calls.old }
    ensures asks { Asks (found (C.reply calls.old) (file_seen view.now.file.now) (rule_seen view.now)) (C.tells calls.old) (C.tells calls.new) (outcome (λ found. found) result) }
{
    let items = value_of(view, &view.kept.query, Item::Document, calls)?;
    match denoted_nodes(view.file.alloc, items)? {
        Ok(nodes) => found_at_all(view, nodes.as_slice(), calls),
        Err(code) => Err(XFault::Code(code)),
    }
}

/// What the rule comes to in the file: a code is its one error there, and it has no findings.
fn result_in<'t, C: Calls>(view: &RuleView<'t>, calls: &mut C) -> Result<Ruled, AskFault>
    requires file { IsOfOneFile view.now.file.now }
    requires patterns { HasItsPatterns view.now.rule.now view.now.kept.now }
    requires nodes { C.nodes calls.old ≡ length (file_seen view.now.file.now).tree.nodes }
    ensures nodes { C.nodes calls.new ≡ C.nodes calls.old }
    ensures reply { C.reply calls.new ≡ C.reply calls.old }
    ensures asks { Asks (rule_in_file (C.reply calls.old) (file_seen view.now.file.now) (rule_seen view.now)) (C.tells calls.old) (C.tells calls.new) result }
{
    match found(view, calls) {
        Ok(all) => Ok(Ruled::Spots(all)),
        Err(XFault::Code(code)) => {
            let rule = view.rule;
            let message = rule_message(view.file.alloc, &rule.row.name, code)?;
            Ok(Ruled::Message(message))
        }
        Err(XFault::Ask(fault)) => Err(fault),
    }
}

/// What a rule comes to in the file, with the expressions that its texts spell.
pub fn rule_result<'t, C: Calls>(
    file: &'t FileView<'t>,
    rule: &'t Rule,
    calls: &mut C,
) -> Result<Ruled, AskFault>
    requires file { IsOfOneFile file.now }
    requires nodes { C.nodes calls.old ≡ length (file_seen file.now).tree.nodes }
    ensures nodes { C.nodes calls.new ≡ C.nodes calls.old }
    ensures reply { C.reply calls.new ≡ C.reply calls.old }
    ensures asks { (meant : MeantRule) × IsRuleOf file.now.marker.now rule.now meant
        × Asks (rule_in_file (C.reply calls.old) (file_seen file.now) meant) (C.tells calls.old) (C.tells calls.new) result }
{
    let kept = rule.expressions();
    let view = RuleView { file, rule, kept };
    result_in(&view, calls)
}
