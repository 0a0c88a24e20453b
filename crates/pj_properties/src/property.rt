//! The properties of nodes by which attributes are given.

use pj_symbols::{Nesting, VariableKind};
use pj_tree::Kind;
use pj_xvalue::Modifier;

/// What a node tells of itself, in three types.
#[derive(Clone, Copy, Debug, PartialEq, Eq)]
pub enum Property {
    /// A text.
    Text(TextProperty),
    /// A number.
    Number(NumberProperty),
    /// Whether something holds.
    Flag(FlagProperty),
}

/// A text that a node tells. Some nodes have none.
#[derive(Clone, Copy, Debug, PartialEq, Eq)]
pub enum TextProperty {
    /// The name of the package of the file.
    PackageName,
    /// The binary name of the class that the node declares.
    BinaryName,
    /// What the pool keeps of the node: the name of a package or an import, the package before a class, or the value of a
    /// literal.
    Kept,
    /// The last name of an import that is not on demand.
    ImportedSimpleName,
    /// What an import on demand names, or what stands before the last name of any other import.
    ImportedPackage,
    /// The first word of the node.
    FirstWord,
    /// The last word of the node.
    LastWord,
    /// The text of the node as it is written.
    Spelling,
    /// The name of the variable that the node declares.
    VariableName,
    /// The simple name of the type that the node names.
    TypeName,
    /// The name of an argument of an annotation.
    PairName,
    /// The label of a `break` or a `continue`.
    JumpLabel,
    /// The operator of an expression.
    Operator,
    /// Whether a variable is read or written.
    AccessType,
    /// The visibility of a class.
    ClassVisibility,
    /// The visibility of a member.
    MemberVisibility,
    /// The visibility of a variable.
    VariableVisibility,
}

/// A number that a node tells. Some nodes have none.
#[derive(Clone, Copy, Debug, PartialEq, Eq)]
pub enum NumberProperty {
    /// How many children the node has.
    ChildCount,
    /// How many formal parameters the node has as children.
    ParameterCount,
    /// How many formal parameters the method or constructor has.
    Arity,
    /// How many parameters the lambda expression has.
    LambdaArity,
    /// How many arguments the node has.
    ArgumentCount,
    /// How many dimensions the array has that the node makes.
    ArrayDepth,
    /// How many parentheses stand directly around the node.
    ParenthesisDepth,
    /// The radix of a number.
    Radix,
    /// The value of an integer.
    IntegerValue,
    /// How many characters the value of a literal has.
    ValueLength,
}

/// What holds of a node or does not.
#[derive(Clone, Copy, Debug, PartialEq, Eq)]
pub enum FlagProperty {
    /// The word is one of the node's.
    Word(Word),
    /// The modifier is one of the node's effective ones.
    Modifier(Modifier),
    /// The node is of the kind.
    Kind(Kind),
    /// A child of the node is of the kind.
    Child(Kind),
    /// No child of the node is of the kind.
    NoChild(Kind),
    /// The node has no children.
    Childless,
    /// The class is declared there.
    Nesting(Nesting),
    /// The node declares an interface.
    Interface,
    /// The node declares a class that is no enum, record or interface.
    RegularClass,
    /// The node declares an interface that is no annotation interface.
    RegularInterface,
    /// A parameter of the method or constructor is of variable arity.
    VarargsMethod,
    /// The parameter or component is of variable arity.
    VarargsParameter,
    /// No type is written.
    TypeInferred,
    /// No type is written of the local variable or lambda parameter that the node names.
    VariableInferred,
    /// The variable is an array by how it is written.
    ArrayVariable,
    /// The variable is that.
    Variable(VariableKind),
    /// An argument of an annotation has no name.
    Shorthand,
    /// A package stands before the class.
    FullyQualified,
    /// Parentheses stand directly around the node.
    Parenthesized,
    /// The number is an integer without a suffix.
    IntLiteral,
    /// The number is an integer with a suffix.
    LongLiteral,
    /// The number is a floating point one with the suffix of `float`.
    FloatLiteral,
    /// The number is any other floating point one.
    DoubleLiteral,
    /// The value of the literal has no characters.
    EmptyValue,
    /// The literal is a text block.
    TextBlock,
    /// The literal is `true`.
    True,
    /// The operator stands before its operand.
    Prefix,
    /// The assignment is one with an operator.
    Compound,
    /// The method reference names a constructor.
    ConstructorReference,
    /// The class that is made has a diamond.
    Diamond,
    /// A label of the `switch` is `default`.
    DefaultCase,
}

/// A keyword or sign that some nodes have and others have not.
#[derive(Clone, Copy, Debug, PartialEq, Eq)]
pub enum Word {
    /// `*`
    Star,
    /// `.`
    Dot,
    /// `...`
    Ellipsis,
    /// `default`
    Default,
    /// `else`
    Else,
    /// `extends`
    Extends,
    /// `static`
    Static,
    /// `super`
    Super,
    /// `this`
    This,
}
