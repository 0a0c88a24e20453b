//! What an evaluator asks for: attributes, and the functions of PMD.
ghost use Rattle.std.specs.Prelude.{◌≡◌, ℕ, ◌<◌, ◌≤◌, ◌^◌, ◌-◌, IsTrue, IfSome, List, map, length, Option, Result, Bool};
ghost use Rattle.std.specs.Option.{option_map, ForSome};
ghost use Rattle.pj_names.specs.Asking.{Asking, value_of};
ghost use Rattle.pj_names.specs.Told.{Told, Asks, longest};
ghost use Rattle.pj_tree.specs.declared.node.Node.{Node};
ghost use Rattle.pj_tree.specs.declared.node.Place.{Place};
ghost use Rattle.pj_xvalue.specs.declared.fault.XCode.{XCode};
ghost use Rattle.pj_xvalue.specs.declared.modifiers.Modifiers.{Modifiers};
ghost use Rattle.pj_xexpressions.specs.declared.pmd_function.PmdFunction.{PmdFunction};
ghost use Rattle.pj_xvalue.specs.Items.{ItemValue, values_of};
ghost use Rattle.pj_xvalue.specs.OfTree.{ArgumentsOfTree};
ghost use Rattle.pj_xexpressions.specs.Functions.{pmd_takes};
ghost use Rattle.pj_xexpressions.specs.Among.{is_among};
ghost use Rattle.pj_xvalue.specs.Attributes.{attribute_value, is_typed, are_different};
ghost use Rattle.pj_xvalue.specs.Replies.{outcome, may_return, may_be};

use crate::fault::XFault;
use crate::item::{Arguments, Sequence};
use crate::modifiers::Modifiers;
use crate::value::Value;
use pj_tree::{Node, Place};
use pj_xexpressions::PmdFunction;
use std::alloc::Global;

/// The attributes, modifiers and places of the nodes of one tree. No call takes memory.
pub trait Attributes {
    /// How many nodes the tree has.
    ghost nodes: { Self → ℕ };

    /// How many bytes the tree's text has.
    ghost text_length: { Self → ℕ };

    /// The value of a node's attribute of a name, if it has one.
    ghost attribute_of: { Self → Node → List ℕ → Option ItemValue };

    /// The names of a node's attributes, in order.
    ghost names_of: { Self → Node → List (List ℕ) };

    /// A node's modifiers: the effective ones where `true`, else those that are written.
    ghost modifiers_of: { Self → Node → Bool → Modifiers };

    /// The place of an offset into the text, in bytes.
    ghost place_of: { Self → ℕ → Place };

    /// The value of the node's attribute of the name, and `None` exactly where it has none. Its type is one that
    /// attributes of the name have.
    fn attribute(&self, n: Node, name: &str) -> Option<Value<'_>>
        requires { n.0 < nodes self.now }
        ensures value { option_map attribute_value result ≡ attribute_of self.now n name.now }
        ensures typed { IfSome result (λ value. IsTrue (is_typed name.now (attribute_value value))) };

    /// The names of the node's attributes, in order, also of those without a value. An attribute's place, as an item
    /// has it, is its place here, counted from 0.
    fn names(&self, n: Node) -> &'static [&'static str]
        requires { n.0 < nodes self.now }
        ensures value { map (λ name. name.now) result.now ≡ names_of self.now n }
        ensures few { length result.now < 2 ^ 32 - 1 };

    /// The node's modifiers: the effective ones, or those that are written.
    fn modifiers(&self, n: Node, effective: bool) -> Modifiers
        requires { n.0 < nodes self.now }
        ensures { result ≡ modifiers_of self.now n effective };

    /// The place of an offset into the text, in bytes from 0.
    fn place(&self, offset: u32) -> Place
        requires { offset ≤ text_length self.now }
        ensures { result ≡ place_of self.now offset };

    /// Each value is of a type that attributes of the name have.
    ghost attribute_kind: { (facts : Self) (n : Node) (name : List ℕ) → n.0 < nodes facts → ForSome (attribute_of facts n name) (λ value. IsTrue (is_typed name value)) };

    /// A node's attributes are few enough for their places to be numbers of 32 bits.
    ghost names_few: { (facts : Self) (n : Node) → n.0 < nodes facts → length (names_of facts n) < 2 ^ 32 - 1 };

    /// No name stands twice among a node's names.
    ghost names_differ: { (facts : Self) (n : Node) → n.0 < nodes facts → IsTrue (are_different (names_of facts n)) };

    /// What has a value is among the names.
    ghost names_complete: { (facts : Self) (n : Node) (name : List ℕ) → n.0 < nodes facts → ForSome (attribute_of facts n name) (λ value. IsTrue (is_among name (names_of facts n))) };
}

/// The functions of PMD over the nodes of one tree.
pub trait Calls {
    /// How many nodes the tree has.
    ghost nodes: { Self → ℕ };

    /// The type of what it keeps in every call, besides what it replies.
    ghost Kept: { Type 0 };

    /// What it tells of itself: the world that answers for classes, where it tells that and what it replies, what it keeps,
    /// the names that were asked, and its faults.
    ghost tells: { Self → Told Kept };

    /// What a function comes to at a node, or at no node, with these arguments: a sequence or a code, with the classes
    /// that it asks for.
    ghost reply: { Self → PmdFunction → Option Node → List (List ItemValue) → Asking (Result (List ItemValue) XCode) };

    /// What the function gives. `at` is the context node, and `None` where the context item is no node of the tree.
    ///
    /// Where the world is told the answer is the reply's, and to the names asked come just the reply's. `Ask(Failed)`
    /// comes only where the count of faults rose. All items that it answers are atomic values, and `typeIs` with one
    /// string answers one boolean and no code, whether the world is told or not.
    fn pmd(
        &mut self,
        alloc: Global,
        function: PmdFunction,
        at: Option<Node>,
        arguments: &Arguments<'_>,
    ) -> Result<Sequence<'static>, XFault>
        requires inside { ForSome at (λ n. n.0 < nodes self.old) }
        requires of_tree { ArgumentsOfTree (nodes self.old) (map values_of arguments.now) }
        requires count { IsTrue (pmd_takes function (length arguments.now)) }
        ensures same_nodes { nodes self.new ≡ nodes self.old }
        ensures same_reply { reply self.new ≡ reply self.old }
        ensures asks { Asks (reply self.old function at (map values_of arguments.now)) (tells self.old) (tells self.new) (outcome values_of result) }
        ensures kind { IsTrue (may_return function (map values_of arguments.now) (outcome values_of result)) };

    /// Where the world is told, the reply over it is of the same kind as the answers.
    ghost reply_kind: { (calls : Self) (function : PmdFunction) (at : Option Node) (arguments : List (List ItemValue)) → IsTrue (tells calls).is_told → ArgumentsOfTree (nodes calls) arguments → ForSome at (λ n. n.0 < nodes calls)
        → IsTrue (pmd_takes function (length arguments)) → (depth : ℕ) → longest ≤ depth → IsTrue (may_be function arguments (value_of depth ((tells calls).world depth).answer (reply calls function at arguments))) };
}
