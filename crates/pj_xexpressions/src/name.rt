//! The names of functions and axes.

ghost use Rattle.std.specs.Prelude.{◌≡◌};
ghost use Rattle.pj_base.specs.WordTable.{value_in};
ghost use Rattle.pj_xexpressions.specs.Names.{functions, pmd_functions, unprefixed, xpath_or_pmd, callee_of, axis_of};

use crate::axis::Axis;
use crate::function::Function;
use crate::pmd_function::PmdFunction;
use pj_base::value_in;

/// A function that a name calls.
#[derive(Clone, Copy)]
pub enum Callee {
    /// A function of XPath.
    XPath(Function),
    /// A function of PMD.
    Pmd(PmdFunction),
}

/// The functions of XPath by their names.
static FUNCTIONS: [(&str, Function); 38] = [
    ("position", Function::Position),
    ("last", Function::Last),
    ("count", Function::Count),
    ("exists", Function::Exists),
    ("empty", Function::Empty),
    ("not", Function::Not),
    ("true", Function::True),
    ("false", Function::False),
    ("boolean", Function::Boolean),
    ("string", Function::String),
    ("data", Function::Data),
    ("concat", Function::Concat),
    ("string-join", Function::StringJoin),
    ("contains", Function::Contains),
    ("starts-with", Function::StartsWith),
    ("ends-with", Function::EndsWith),
    ("substring", Function::Substring),
    ("substring-before", Function::SubstringBefore),
    ("substring-after", Function::SubstringAfter),
    ("string-length", Function::StringLength),
    ("normalize-space", Function::NormalizeSpace),
    ("upper-case", Function::UpperCase),
    ("lower-case", Function::LowerCase),
    ("translate", Function::Translate),
    ("matches", Function::Matches),
    ("replace", Function::Replace),
    ("tokenize", Function::Tokenize),
    ("name", Function::Name),
    ("local-name", Function::LocalName),
    ("distinct-values", Function::DistinctValues),
    ("sum", Function::Sum),
    ("min", Function::Min),
    ("max", Function::Max),
    ("abs", Function::Abs),
    ("reverse", Function::Reverse),
    ("index-of", Function::IndexOf),
    ("subsequence", Function::Subsequence),
    ("root", Function::Root),
];

/// The function of XPath that the name calls, without the prefix `fn:`.
pub fn xpath_function(name: &str) -> Option<Function>
    ensures { result ≡ value_in functions name.now }
{
    value_in(&FUNCTIONS, name)
}

/// The functions of PMD by their names.
static PMD_FUNCTIONS: [(&str, PmdFunction); 12] = [
    ("pmd:fileName", PmdFunction::FileName),
    ("pmd:startLine", PmdFunction::StartLine),
    ("pmd:startColumn", PmdFunction::StartColumn),
    ("pmd:endLine", PmdFunction::EndLine),
    ("pmd:endColumn", PmdFunction::EndColumn),
    ("pmd-java:typeIs", PmdFunction::TypeIs),
    ("pmd-java:typeIsExactly", PmdFunction::TypeIsExactly),
    ("pmd-java:hasAnnotation", PmdFunction::HasAnnotation),
    ("pmd-java:matchesSig", PmdFunction::MatchesSig),
    ("pmd-java:nodeIs", PmdFunction::NodeIs),
    ("pmd-java:modifiers", PmdFunction::Modifiers),
    ("pmd-java:explicitModifiers", PmdFunction::ExplicitModifiers),
];

/// The function of PMD that the name calls.
pub fn pmd_function(name: &str) -> Option<PmdFunction>
    ensures { result ≡ value_in pmd_functions name.now }
{
    value_in(&PMD_FUNCTIONS, name)
}

/// The axes of nodes by their names.
static AXES: [(&str, Axis); 11] = [
    ("child", Axis::Child),
    ("descendant", Axis::Descendant),
    ("self", Axis::SelfNode),
    ("descendant-or-self", Axis::DescendantOrSelf),
    ("following-sibling", Axis::FollowingSibling),
    ("following", Axis::Following),
    ("parent", Axis::Parent),
    ("ancestor", Axis::Ancestor),
    ("preceding-sibling", Axis::PrecedingSibling),
    ("preceding", Axis::Preceding),
    ("ancestor-or-self", Axis::AncestorOrSelf),
];

/// The axis of nodes with the name (XPath 2.0, 3.2.1.1), which `attribute` is not.
#[tactic(auto, unfolding(crate::specs::Names::axis_of))]
pub fn axis_named(name: &str) -> Option<Axis>
    ensures { result ≡ axis_of name.now }
{
    value_in(&AXES, name)
}

/// The name without the prefix `fn:`.
fn unprefixed(name: &str) -> &str
    ensures { result.now ≡ unprefixed name.now }
{
    match name.strip_prefix("fn:") {
        Some(rest) => rest,
        None => name,
    }
}

/// The function of XPath, else that of PMD.
fn either(function: Option<Function>, other: Option<PmdFunction>) -> Option<Callee>
    ensures { result ≡ xpath_or_pmd function other }
{
    match (function, other) {
        (Some(function), _) => Some(Callee::XPath(function)),
        (None, Some(function)) => Some(Callee::Pmd(function)),
        (None, None) => None,
    }
}

/// The function that the name calls, if there is one: of XPath, with or without the prefix `fn:`, or of PMD.
pub fn function_named(name: &str) -> Option<Callee>
    ensures { result ≡ callee_of name.now }
{
    let function = xpath_function(unprefixed(name));
    let other = pmd_function(name);
    either(function, other)
}
