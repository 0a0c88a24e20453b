//! Calls of functions of XPath.
ghost use Rattle.std.specs.Prelude.{◌≡◌, ℕ, ◌++◌, ◌∷◌, [], IfOk, length, map};
ghost use Rattle.pj_xvalue.specs.Items.{value_of_item, values_of, IsOfTree};
ghost use Rattle.pj_xvalue.specs.OfTree.{OfTree, ArgumentsOfTree};
ghost use Rattle.pj_xvalue.specs.Replies.{outcome};
ghost use Rattle.pj_xvalue.specs.Arguments.{IsGiven};
ghost use Rattle.pj_xfuncs.specs.Library.{called as given};
ghost use Rattle.pj_xsteps.specs.Context.{around};
ghost use Rattle.pj_xsteps.specs.Operands.{with_values as with_values_of};
ghost use Rattle.pj_xsteps.specs.Calls.{call as call_of, called, first_as_it_is, name_in as name_in_of, node_in, node_name as node_name_of, of_text, or_context, root_in as root_in_of};

use crate::at::At;
use crate::operands::with_values;
use crate::sequences::one;
use crate::setting::Setting;
use pj_base::{Copied, NoMemory};
use pj_tree::Node;
use pj_xexpressions::Function;
use pj_xfuncs::call as library_call;
use pj_xvalue::{Arguments, Attributes, Item, Sequence, XCode, XFault};
use std::alloc::Global;

/// The context node, where the context item is a node of the tree.
pub fn node_in(item: &Item<'_>) -> Option<Node>
    ensures { result ≡ node_in (value_of_item item.now) }
{
    match item {
        Item::Node(n) => Some(*n),
        _ => None,
    }
}

/// The name of a node, which the document has none of.
fn node_name<'t, A: Attributes>(setting: &Setting<'t, A>, item: &Item<'_>) -> &'static str
    requires { IsOfTree (length setting.now.tree.now.nodes) (value_of_item item.now) }
    ensures { result.now ≡ node_name_of (around setting.now.tree.now (A.attribute_of setting.now.facts.now) (A.names_of setting.now.facts.now) setting.now.patterns.now) (value_of_item item.now) }
{
    match item {
        Item::Node(n) => setting.tree.kind(*n).name(),
        Item::Attribute(n, place) => match setting.facts.names(*n).get(*place as usize) {
            Some(name) => *name,
            None => "",
        },
        _ => "",
    }
}

/// `name` and `local-name` of at most one node.
#[tactic(auto, using(pj_xvalue::proofs::OfTreeLaws::of_tree))]
fn name_in<'t, A: Attributes>(
    setting: &Setting<'t, A>,
    items: &Sequence<'_>,
) -> Result<Sequence<'t>, XFault>
    requires { OfTree (length setting.now.tree.now.nodes) (values_of items.now) }
    ensures value { IsGiven (name_in_of (around setting.now.tree.now (A.attribute_of setting.now.facts.now) (A.names_of setting.now.facts.now) setting.now.patterns.now) (values_of items.now)) (outcome values_of result) }
    ensures of_tree { IfOk result (λ items. OfTree (length setting.now.tree.now.nodes) (values_of items)) }
{
    match items.as_slice() {
        [] => Ok(one(setting.alloc, Item::Borrowed(""))?),
        [item] => {
            if !item.is_node() {
                return Err(XFault::Code(XCode::XPTY0004));
            }
            let name = node_name(setting, item);
            Ok(one(setting.alloc, Item::Borrowed(name))?)
        }
        _ => Err(XFault::Code(XCode::XPTY0004)),
    }
}

/// `root` of at most one node.
#[tactic(auto, using(pj_xvalue::proofs::OfTreeLaws::of_tree))]
fn root_in<'t>(alloc: Global, items: &Sequence<'_>) -> Result<Sequence<'t>, XFault>
    ensures value { IsGiven (root_in_of (values_of items.now)) (outcome values_of result) }
    ensures of_tree { (n : ℕ) → IfOk result (λ items. OfTree n (values_of items)) }
{
    match items.as_slice() {
        [] => Ok(Sequence::new(alloc)),
        [item] => {
            if !item.is_node() {
                return Err(XFault::Code(XCode::XPTY0004));
            }
            Ok(one(alloc, Item::Document)?)
        }
        _ => Err(XFault::Code(XCode::XPTY0004)),
    }
}

/// The first argument, or the context item where there is none.
#[tactic(auto, using(pj_xvalue::proofs::OfTreeLaws::of_tree))]
fn or_context<'t>(
    alloc: Global,
    at: &At<'t>,
    arguments: &Arguments<'t>,
) -> Result<Sequence<'t>, NoMemory>
    ensures value { IfOk result (λ items. values_of items ≡ or_context at.now (map values_of arguments.now)) }
    ensures of_tree { (n : ℕ) → IsOfTree n at.now.item → ArgumentsOfTree n (map values_of arguments.now) → IfOk result (λ items. OfTree n (values_of items)) }
{
    match arguments.as_slice() {
        [] => one(alloc, at.item.copied()?),
        [argument, ..] => {
            let copy = argument.copied()?;
            Ok(copy)
        }
    }
}

/// The arguments behind those before them, with values in the place of attributes.
#[tactic(auto, using(pj_xvalue::proofs::OfTreeLaws::of_tree))]
fn valued_behind<'t, A: Attributes>(
    setting: &Setting<'t, A>,
    before: Arguments<'t>,
    arguments: &[Sequence<'t>],
) -> Result<Arguments<'t>, NoMemory>
    requires before { ArgumentsOfTree (length setting.now.tree.now.nodes) (map values_of before) }
    requires arguments { ArgumentsOfTree (length setting.now.tree.now.nodes) (map values_of arguments.now) }
    ensures value { IfOk result (λ all. map values_of all ≡ map values_of before.entry ++ map (with_values_of (around setting.now.tree.now (A.attribute_of setting.now.facts.now) (A.names_of setting.now.facts.now) setting.now.patterns.now)) (map values_of arguments.now)) }
    ensures of_tree { IfOk result (λ all. ArgumentsOfTree (length setting.now.tree.now.nodes) (map values_of all)) }
{
    let mut all = before;
    for argument in arguments {
        let values = with_values(setting, argument.as_slice())?;
        all.push(values)?;
    }
    Ok(all)
}

/// A list of one argument.
#[tactic(auto, using(pj_xvalue::proofs::OfTreeLaws::of_tree))]
fn only<'t>(alloc: Global, argument: Sequence<'t>) -> Result<Arguments<'t>, NoMemory>
    ensures value { IfOk result (λ arguments. map values_of arguments ≡ values_of argument.entry ∷ []) }
    ensures of_tree { (n : ℕ) → OfTree n (values_of argument.entry) → IfOk result (λ arguments. ArgumentsOfTree n (map values_of arguments)) }
{
    let mut arguments = Arguments::new(alloc);
    arguments.push(argument)?;
    Ok(arguments)
}

/// What a function of the library gives for the arguments, with values in the place of attributes.
#[tactic(auto, using(pj_xvalue::proofs::OfTreeLaws::of_tree))]
fn call_valued<'t, A: Attributes>(
    setting: &Setting<'t, A>,
    function: Function,
    arguments: &[Sequence<'t>],
) -> Result<Sequence<'t>, XFault>
    requires { ArgumentsOfTree (length setting.now.tree.now.nodes) (map values_of arguments.now) }
    ensures value { IsGiven (given setting.now.patterns.now function (map (with_values_of (around setting.now.tree.now (A.attribute_of setting.now.facts.now) (A.names_of setting.now.facts.now) setting.now.patterns.now)) (map values_of arguments.now))) (outcome values_of result) }
    ensures of_tree { IfOk result (λ items. OfTree (length setting.now.tree.now.nodes) (values_of items)) }
{
    let all = valued_behind(setting, Arguments::new(setting.alloc), arguments)?;
    library_call(setting.alloc, function, &all, setting.patterns)
}

/// The same with an argument before them that stays as it is.
#[tactic(auto, using(pj_xvalue::proofs::OfTreeLaws::of_tree))]
fn call_behind<'t, A: Attributes>(
    setting: &Setting<'t, A>,
    function: Function,
    first: &Sequence<'t>,
    rest: &[Sequence<'t>],
) -> Result<Sequence<'t>, XFault>
    requires first { OfTree (length setting.now.tree.now.nodes) (values_of first.now) }
    requires rest { ArgumentsOfTree (length setting.now.tree.now.nodes) (map values_of rest.now) }
    ensures value { IsGiven (given setting.now.patterns.now function (values_of first.now ∷ map (with_values_of (around setting.now.tree.now (A.attribute_of setting.now.facts.now) (A.names_of setting.now.facts.now) setting.now.patterns.now)) (map values_of rest.now))) (outcome values_of result) }
    ensures of_tree { IfOk result (λ items. OfTree (length setting.now.tree.now.nodes) (values_of items)) }
{
    let before = only(setting.alloc, first.copied()?)?;
    let all = valued_behind(setting, before, rest)?;
    library_call(setting.alloc, function, &all, setting.patterns)
}

/// The same where the first argument stays as it is.
#[tactic(auto, using(pj_xvalue::proofs::OfTreeLaws::of_tree))]
fn call_behind_first<'t, A: Attributes>(
    setting: &Setting<'t, A>,
    function: Function,
    arguments: &[Sequence<'t>],
) -> Result<Sequence<'t>, XFault>
    requires { ArgumentsOfTree (length setting.now.tree.now.nodes) (map values_of arguments.now) }
    ensures value { IsGiven (given setting.now.patterns.now function (first_as_it_is (around setting.now.tree.now (A.attribute_of setting.now.facts.now) (A.names_of setting.now.facts.now) setting.now.patterns.now) (map values_of arguments.now))) (outcome values_of result) }
    ensures of_tree { IfOk result (λ items. OfTree (length setting.now.tree.now.nodes) (values_of items)) }
{
    match arguments {
        [] => library_call(
            setting.alloc,
            function,
            &Arguments::new(setting.alloc),
            setting.patterns,
        ),
        [first, rest @ ..] => call_behind(setting, function, first, rest),
    }
}

/// What a function of the library gives for one argument, with values in the place of attributes.
#[tactic(auto, using(pj_xvalue::proofs::OfTreeLaws::of_tree))]
fn call_one<'t, A: Attributes>(
    setting: &Setting<'t, A>,
    function: Function,
    items: &Sequence<'t>,
) -> Result<Sequence<'t>, XFault>
    requires { OfTree (length setting.now.tree.now.nodes) (values_of items.now) }
    ensures value { IsGiven (given setting.now.patterns.now function (with_values_of (around setting.now.tree.now (A.attribute_of setting.now.facts.now) (A.names_of setting.now.facts.now) setting.now.patterns.now) (values_of items.now) ∷ [])) (outcome values_of result) }
    ensures of_tree { IfOk result (λ items. OfTree (length setting.now.tree.now.nodes) (values_of items)) }
{
    let arguments = only(setting.alloc, with_values(setting, items.as_slice())?)?;
    library_call(setting.alloc, function, &arguments, setting.patterns)
}

/// What a function of text gives, of the string of the context item where there is no argument.
#[tactic(auto, using(pj_xvalue::proofs::OfTreeLaws::of_tree))]
fn call_of_text<'t, A: Attributes>(
    setting: &Setting<'t, A>,
    function: Function,
    at: &At<'t>,
    arguments: &[Sequence<'t>],
) -> Result<Sequence<'t>, XFault>
    requires item { IsOfTree (length setting.now.tree.now.nodes) at.now.item }
    requires arguments { ArgumentsOfTree (length setting.now.tree.now.nodes) (map values_of arguments.now) }
    ensures value { IsGiven (of_text (around setting.now.tree.now (A.attribute_of setting.now.facts.now) (A.names_of setting.now.facts.now) setting.now.patterns.now) function at.now (map values_of arguments.now)) (outcome values_of result) }
    ensures of_tree { IfOk result (λ items. OfTree (length setting.now.tree.now.nodes) (values_of items)) }
{
    match arguments {
        [] => {
            let item = one(setting.alloc, at.item.copied()?)?;
            let text = call_one(setting, Function::String, &item)?;
            let only = only(setting.alloc, text)?;
            library_call(setting.alloc, function, &only, setting.patterns)
        }
        [_first, _rest @ ..] => call_valued(setting, function, arguments),
    }
}

/// What a function gives that takes so many arguments.
#[tactic(auto, using(pj_xvalue::proofs::OfTreeLaws::of_tree))]
fn called<'t, A: Attributes>(
    setting: &Setting<'t, A>,
    function: Function,
    at: &At<'t>,
    arguments: &Arguments<'t>,
) -> Result<Sequence<'t>, XFault>
    requires item { IsOfTree (length setting.now.tree.now.nodes) at.now.item }
    requires arguments { ArgumentsOfTree (length setting.now.tree.now.nodes) (map values_of arguments.now) }
    ensures value { IsGiven (called (around setting.now.tree.now (A.attribute_of setting.now.facts.now) (A.names_of setting.now.facts.now) setting.now.patterns.now) function at.now (map values_of arguments.now)) (outcome values_of result) }
    ensures of_tree { IfOk result (λ items. OfTree (length setting.now.tree.now.nodes) (values_of items)) }
{
    match function {
        Function::Position => Ok(one(setting.alloc, Item::Int(at.position))?),
        Function::Last => Ok(one(setting.alloc, Item::Int(at.size))?),
        Function::Name | Function::LocalName => {
            let items = or_context(setting.alloc, at, arguments)?;
            name_in(setting, &items)
        }
        Function::Root => {
            let items = or_context(setting.alloc, at, arguments)?;
            root_in(setting.alloc, &items)
        }
        Function::String => {
            let items = or_context(setting.alloc, at, arguments)?;
            call_one(setting, Function::String, &items)
        }
        Function::StringLength | Function::NormalizeSpace => {
            call_of_text(setting, function, at, arguments.as_slice())
        }
        Function::Count
        | Function::Exists
        | Function::Empty
        | Function::Not
        | Function::Boolean
        | Function::Reverse => {
            library_call(setting.alloc, function, arguments, setting.patterns)
        }
        Function::Subsequence => call_behind_first(setting, function, arguments.as_slice()),
        _ => call_valued(setting, function, arguments.as_slice()),
    }
}

/// What a function of XPath gives at a context for its arguments (XPath 2.0, 3.1.5).
///
/// XPTY0004 is the answer to a number of arguments that the function does not take, and to `name()`, `local-name()` and `root()`
/// where the context item or the argument is no node.
pub fn call<'t, A: Attributes>(
    setting: &Setting<'t, A>,
    function: Function,
    at: &At<'t>,
    arguments: &Arguments<'t>,
) -> Result<Sequence<'t>, XFault>
    requires item { IsOfTree (length setting.now.tree.now.nodes) at.now.item }
    requires arguments { ArgumentsOfTree (length setting.now.tree.now.nodes) (map values_of arguments.now) }
    ensures value { IsGiven (call_of (around setting.now.tree.now (A.attribute_of setting.now.facts.now) (A.names_of setting.now.facts.now) setting.now.patterns.now) function at.now (map values_of arguments.now)) (outcome values_of result) }
    ensures of_tree { IfOk result (λ items. OfTree (length setting.now.tree.now.nodes) (values_of items)) }
{
    if !function.takes(arguments.len()) {
        return Err(XFault::Code(XCode::XPTY0004));
    }
    called(setting, function, at, arguments)
}
