//! What the functions reply, over the oracle of the file.
ghost use Rattle.std.specs.Prelude.{◌≡◌, ◌<◌, [], List, IsTrue, length, map};
ghost use Rattle.std.specs.Option.{ForSome};
ghost use Rattle.pj_names.specs.Told.{Asks};
ghost use Rattle.pj_exprtypes.specs.Table.{KeepsOver};
ghost use Rattle.pj_javafuncs.specs.Called.{call_test};
ghost use Rattle.pj_javafuncs.specs.Facts.{facts};
ghost use Rattle.pj_javafuncs.specs.Parts.{IsTestReply, IsTruth, IsTruthOrCode, test_by};
ghost use Rattle.pj_javafuncs.specs.Replies.{call_reply, first_of, reply, reply_to, tested, with_text};
ghost use Rattle.pj_node_functions.specs.ModifierWords.{modifiers_at};
ghost use Rattle.pj_node_functions.specs.Arguments.{text_argument};
ghost use Rattle.pj_signature_patterns.specs.Reading.{pattern_in};
ghost use Rattle.pj_xvalue.specs.Arguments.{IsGiven};
ghost use Rattle.pj_xvalue.specs.Items.{ItemValue, values_of};
ghost use Rattle.pj_xvalue.specs.OfTree.{ArgumentsOfTree, OfTree};
ghost use Rattle.pj_xvalue.specs.Replies.{may_return, outcome};

use crate::called::call_test;
use crate::node_tests::{Test, test_by};
use crate::setting::Setting;
use pj_base::Text;
use pj_exprtypes::Typed;
use pj_file_oracle::FileOracle;
use pj_names::Oracle;
use pj_node_functions::{
    end_column, end_line, file_reply, kind_reply, modifiers_at, start_column, start_line,
    text_argument,
};
use pj_signature_patterns::SigPattern;
use pj_tree::{Node, SyntaxTree};
use pj_xexpressions::PmdFunction;
use pj_xvalue::{Arguments, Attributes, Sequence, XCode, XFault, boolean_singleton};
use std::alloc::Global;

/// Whether a test holds of the context node, as one boolean.
#[tactic(auto, using(pj_names::proofs::AskingLaws::asking_steps))]
fn tested<'a, 'f, O: Oracle>(
    alloc: Global,
    oracle: &mut FileOracle<'a, 'f, O>,
    types: &mut Typed,
    test: Test,
    at: Option<Node>,
    text: &Text,
) -> Result<Sequence<'static>, XFault>
    requires inside { ForSome at (λ n. n.0 < length oracle.old.file.now.nodes) }
    requires keeps { KeepsOver oracle.old.file.now (O.tells oracle.old.inner.now) types.old.entries }
    ensures asks { Asks (tested (test_by test oracle.old.file.now at text.now)) (⟦<FileOracle<'a, 'f, O> as Oracle>⟧.tells oracle.old) (⟦<FileOracle<'a, 'f, O> as Oracle>⟧.tells oracle.new) (outcome values_of result) }
    ensures keeps { KeepsOver oracle.old.file.now (O.tells oracle.new.inner.now) types.new.entries }
    ensures kind { IsTruth (outcome values_of result) }
{
    let is = test_by(alloc, oracle, types, test, at, text.as_str())?;
    Ok(boolean_singleton(alloc, is)?)
}

/// A test of the context node by the name that is the argument.
fn test_reply<'s, 'a, 'f, O: Oracle, A: Attributes>(
    setting: &Setting<'s, A>,
    oracle: &mut FileOracle<'a, 'f, O>,
    types: &mut Typed,
    test: Test,
    at: Option<Node>,
    argument: &Sequence<'s>,
) -> Result<Sequence<'static>, XFault>
    requires inside { ForSome at (λ n. n.0 < length oracle.old.file.now.nodes) }
    requires of_tree { A.nodes setting.now.facts.now ≡ length oracle.old.file.now.nodes }
    requires argument { OfTree (length oracle.old.file.now.nodes) (values_of argument.now) }
    requires keeps { KeepsOver oracle.old.file.now (O.tells oracle.old.inner.now) types.old.entries }
    ensures asks { Asks (with_text (text_argument (A.attribute_of setting.now.facts.now) (A.names_of setting.now.facts.now) (values_of argument.now)) (λ text. tested (test_by test oracle.old.file.now at text))) (⟦<FileOracle<'a, 'f, O> as Oracle>⟧.tells oracle.old) (⟦<FileOracle<'a, 'f, O> as Oracle>⟧.tells oracle.new) (outcome values_of result) }
    ensures keeps { KeepsOver oracle.old.file.now (O.tells oracle.new.inner.now) types.new.entries }
    ensures kind { IsTestReply (text_argument (A.attribute_of setting.now.facts.now) (A.names_of setting.now.facts.now) (values_of argument.now)) (outcome values_of result) }
{
    match text_argument(setting.alloc, setting.facts, argument) {
        Ok(text) => tested(setting.alloc, oracle, types, test, at, &text),
        Err(fault) => Err(fault),
    }
}

/// Whether the context node calls what a pattern says, as one boolean.
#[tactic(auto, using(pj_names::proofs::AskingLaws::asking_steps))]
fn call_tested<'a, 'f, O: Oracle>(
    alloc: Global,
    oracle: &mut FileOracle<'a, 'f, O>,
    types: &mut Typed,
    at: Option<Node>,
    pattern: &SigPattern,
) -> Result<Sequence<'static>, XFault>
    requires inside { ForSome at (λ n. n.0 < length oracle.old.file.now.nodes) }
    requires keeps { KeepsOver oracle.old.file.now (O.tells oracle.old.inner.now) types.old.entries }
    ensures asks { Asks (tested (call_test oracle.old.file.now at pattern.now)) (⟦<FileOracle<'a, 'f, O> as Oracle>⟧.tells oracle.old) (⟦<FileOracle<'a, 'f, O> as Oracle>⟧.tells oracle.new) (outcome values_of result) }
    ensures keeps { KeepsOver oracle.old.file.now (O.tells oracle.new.inner.now) types.new.entries }
    ensures kind { IsTruthOrCode (outcome values_of result) }
{
    let is = call_test(alloc, oracle, types, at, pattern)?;
    Ok(boolean_singleton(alloc, is)?)
}

/// The same for a pattern, where there is one: without one it is XPTY0004.
fn call_reply<'a, 'f, O: Oracle>(
    alloc: Global,
    oracle: &mut FileOracle<'a, 'f, O>,
    types: &mut Typed,
    at: Option<Node>,
    pattern: &Option<SigPattern>,
) -> Result<Sequence<'static>, XFault>
    requires inside { ForSome at (λ n. n.0 < length oracle.old.file.now.nodes) }
    requires keeps { KeepsOver oracle.old.file.now (O.tells oracle.old.inner.now) types.old.entries }
    ensures asks { Asks (call_reply oracle.old.file.now at pattern.now) (⟦<FileOracle<'a, 'f, O> as Oracle>⟧.tells oracle.old) (⟦<FileOracle<'a, 'f, O> as Oracle>⟧.tells oracle.new) (outcome values_of result) }
    ensures keeps { KeepsOver oracle.old.file.now (O.tells oracle.new.inner.now) types.new.entries }
    ensures kind { IsTruthOrCode (outcome values_of result) }
{
    match pattern {
        Some(pattern) => call_tested(alloc, oracle, types, at, pattern),
        None => Err(XFault::Code(XCode::XPTY0004)),
    }
}

/// The same for the pattern that a text spells.
fn called<'a, 'f, O: Oracle>(
    alloc: Global,
    oracle: &mut FileOracle<'a, 'f, O>,
    types: &mut Typed,
    at: Option<Node>,
    text: &Text,
) -> Result<Sequence<'static>, XFault>
    requires inside { ForSome at (λ n. n.0 < length oracle.old.file.now.nodes) }
    requires keeps { KeepsOver oracle.old.file.now (O.tells oracle.old.inner.now) types.old.entries }
    ensures asks { Asks (call_reply oracle.old.file.now at (pattern_in text.now)) (⟦<FileOracle<'a, 'f, O> as Oracle>⟧.tells oracle.old) (⟦<FileOracle<'a, 'f, O> as Oracle>⟧.tells oracle.new) (outcome values_of result) }
    ensures keeps { KeepsOver oracle.old.file.now (O.tells oracle.new.inner.now) types.new.entries }
    ensures kind { IsTruthOrCode (outcome values_of result) }
{
    let pattern = SigPattern::parse(alloc, text.as_str())?;
    call_reply(alloc, oracle, types, at, &pattern)
}

/// `matchesSig(s)`.
fn signature_reply<'s, 'a, 'f, O: Oracle, A: Attributes>(
    setting: &Setting<'s, A>,
    oracle: &mut FileOracle<'a, 'f, O>,
    types: &mut Typed,
    at: Option<Node>,
    argument: &Sequence<'s>,
) -> Result<Sequence<'static>, XFault>
    requires inside { ForSome at (λ n. n.0 < length oracle.old.file.now.nodes) }
    requires of_tree { A.nodes setting.now.facts.now ≡ length oracle.old.file.now.nodes }
    requires argument { OfTree (length oracle.old.file.now.nodes) (values_of argument.now) }
    requires keeps { KeepsOver oracle.old.file.now (O.tells oracle.old.inner.now) types.old.entries }
    ensures asks { Asks (with_text (text_argument (A.attribute_of setting.now.facts.now) (A.names_of setting.now.facts.now) (values_of argument.now)) (λ text. call_reply oracle.old.file.now at (pattern_in text))) (⟦<FileOracle<'a, 'f, O> as Oracle>⟧.tells oracle.old) (⟦<FileOracle<'a, 'f, O> as Oracle>⟧.tells oracle.new) (outcome values_of result) }
    ensures keeps { KeepsOver oracle.old.file.now (O.tells oracle.new.inner.now) types.new.entries }
    ensures kind { IsTruthOrCode (outcome values_of result) }
{
    match text_argument(setting.alloc, setting.facts, argument) {
        Ok(text) => called(setting.alloc, oracle, types, at, &text),
        Err(fault) => Err(fault),
    }
}

/// `modifiers()` and `explicitModifiers()`.
fn modifier_reply<A: Attributes>(
    alloc: Global,
    tree: &SyntaxTree<'_>,
    facts: &A,
    at: Option<Node>,
    effective: bool,
) -> Result<Sequence<'static>, XFault>
    requires inside { ForSome at (λ n. n.0 < length tree.now.nodes) }
    requires of_tree { A.nodes facts.now ≡ length tree.now.nodes }
    ensures { IsGiven (Ok (modifiers_at (λ n. A.modifiers_of facts.now n effective) tree.now at)) (outcome values_of result) }
{
    Ok(modifiers_at(alloc, tree, facts, at, effective)?)
}

/// What a function replies at the context node, or without one, with its first argument.
fn reply_to<'s, 'a, 'f, O: Oracle, A: Attributes>(
    setting: &Setting<'s, A>,
    oracle: &mut FileOracle<'a, 'f, O>,
    types: &mut Typed,
    function: PmdFunction,
    at: Option<Node>,
    argument: &Sequence<'s>,
) -> Result<Sequence<'static>, XFault>
    requires inside { ForSome at (λ n. n.0 < length oracle.old.file.now.nodes) }
    requires of_tree { A.nodes setting.now.facts.now ≡ length oracle.old.file.now.nodes }
    requires text { A.text_length setting.now.facts.now ≡ length oracle.old.file.now.text }
    requires argument { OfTree (length oracle.old.file.now.nodes) (values_of argument.now) }
    requires keeps { KeepsOver oracle.old.file.now (O.tells oracle.old.inner.now) types.old.entries }
    ensures asks { Asks (reply_to (facts (A.attribute_of setting.now.facts.now) (A.names_of setting.now.facts.now) (A.modifiers_of setting.now.facts.now) (A.place_of setting.now.facts.now) setting.now.path.now) oracle.old.file.now function at (values_of argument.now)) (⟦<FileOracle<'a, 'f, O> as Oracle>⟧.tells oracle.old) (⟦<FileOracle<'a, 'f, O> as Oracle>⟧.tells oracle.new) (outcome values_of result) }
    ensures keeps { KeepsOver oracle.old.file.now (O.tells oracle.new.inner.now) types.new.entries }
    ensures kind { (arguments : List (List ItemValue)) → first_of arguments ≡ values_of argument.now → IsTrue (may_return function arguments (outcome values_of result)) }
{
    let alloc = setting.alloc;
    let facts = setting.facts;
    let tree = oracle.file.tree();
    match function {
        PmdFunction::FileName => file_reply(alloc, setting.path),
        PmdFunction::StartLine => start_line(alloc, tree, facts, argument),
        PmdFunction::StartColumn => start_column(alloc, tree, facts, argument),
        PmdFunction::EndLine => end_line(alloc, tree, facts, argument),
        PmdFunction::EndColumn => end_column(alloc, tree, facts, argument),
        PmdFunction::TypeIs => test_reply(setting, oracle, types, Test::TypeIs, at, argument),
        PmdFunction::TypeIsExactly => {
            test_reply(setting, oracle, types, Test::TypeIsExactly, at, argument)
        }
        PmdFunction::HasAnnotation => {
            test_reply(setting, oracle, types, Test::HasAnnotation, at, argument)
        }
        PmdFunction::MatchesSig => signature_reply(setting, oracle, types, at, argument),
        PmdFunction::NodeIs => kind_reply(alloc, tree, facts, at, argument),
        PmdFunction::Modifiers => modifier_reply(alloc, tree, facts, at, true),
        PmdFunction::ExplicitModifiers => modifier_reply(alloc, tree, facts, at, false),
    }
}

/// What a function replies at the context node, or without one, with its arguments.
pub fn reply<'s, 'a, 'f, O: Oracle, A: Attributes>(
    setting: &Setting<'s, A>,
    oracle: &mut FileOracle<'a, 'f, O>,
    types: &mut Typed,
    function: PmdFunction,
    at: Option<Node>,
    arguments: &Arguments<'s>,
) -> Result<Sequence<'static>, XFault>
    requires inside { ForSome at (λ n. n.0 < length oracle.old.file.now.nodes) }
    requires of_tree { A.nodes setting.now.facts.now ≡ length oracle.old.file.now.nodes }
    requires text { A.text_length setting.now.facts.now ≡ length oracle.old.file.now.text }
    requires arguments { ArgumentsOfTree (length oracle.old.file.now.nodes) (map values_of arguments.now) }
    requires keeps { KeepsOver oracle.old.file.now (O.tells oracle.old.inner.now) types.old.entries }
    ensures asks { Asks (reply (facts (A.attribute_of setting.now.facts.now) (A.names_of setting.now.facts.now) (A.modifiers_of setting.now.facts.now) (A.place_of setting.now.facts.now) setting.now.path.now) oracle.old.file.now function at (map values_of arguments.now)) (⟦<FileOracle<'a, 'f, O> as Oracle>⟧.tells oracle.old) (⟦<FileOracle<'a, 'f, O> as Oracle>⟧.tells oracle.new) (outcome values_of result) }
    ensures keeps { KeepsOver oracle.old.file.now (O.tells oracle.new.inner.now) types.new.entries }
    ensures kind { IsTrue (may_return function (map values_of arguments.now) (outcome values_of result)) }
{
    let none = Sequence::new(setting.alloc);
    match arguments.as_slice() {
        [first, ..] => reply_to(setting, oracle, types, function, at, first),
        [] => reply_to(setting, oracle, types, function, at, &none),
    }
}
