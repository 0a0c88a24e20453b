//! The kinds of nodes.

ghost use Rattle.std.specs.Prelude.{◌≡◌};
ghost use Rattle.pj_tree.specs.Kind.{name_of};

/// What a node of a Java syntax tree is.
#[derive(Clone, Copy, Debug, PartialEq, Eq)]
pub enum Kind {
    /// A whole file (JLS 7.3).
    CompilationUnit,
    /// A package declaration (JLS 7.4).
    PackageDeclaration,
    /// An import, of each of the four forms (JLS 7.5).
    ImportDeclaration,
    /// A `;` that stands in the place of a declaration (JLS 7.6, 8.1.7).
    EmptyDeclaration,
    /// The modifiers and annotations of a declaration, or none of them (JLS 8.1.1).
    ModifierList,
    /// An annotation (JLS 9.7).
    Annotation,
    /// A class, an interface or a type variable that is written as a type (JLS 4.3).
    ClassType,
    /// The arguments of an annotation, in parentheses (JLS 9.7.1).
    AnnotationMemberList,
    /// An argument of an annotation, with or without its name (JLS 9.7.1, 9.7.3).
    MemberValuePair,
    /// A list in braces in an annotation (JLS 9.7.1).
    MemberValueArrayInitializer,
    /// A class or an interface that is declared (JLS 8.1, 9.1).
    ClassDeclaration,
    /// An enum class that is declared (JLS 8.9).
    EnumDeclaration,
    /// A record class that is declared (JLS 8.10).
    RecordDeclaration,
    /// An annotation interface that is declared (JLS 9.6).
    AnnotationTypeDeclaration,
    /// The superclass of a class, or the superinterfaces of an interface (JLS 8.1.4, 9.1.3).
    ExtendsList,
    /// The superinterfaces of a class (JLS 8.1.5).
    ImplementsList,
    /// The permitted subclasses of a sealed class or interface (JLS 8.1.6, 9.1.4).
    PermitsList,
    /// The exceptions that a method or a constructor declares (JLS 8.4.6).
    ThrowsList,
    /// The type parameters of a declaration, with their signs (JLS 8.1.2).
    TypeParameters,
    /// A type parameter (JLS 4.4).
    TypeParameter,
    /// Two or more types joined by `&`, as a bound or in a cast (JLS 4.4, 15.16).
    IntersectionType,
    /// The body of a class or an interface (JLS 8.1.7, 9.1.5).
    ClassBody,
    /// The body of an annotation interface (JLS 9.6.1).
    AnnotationTypeBody,
    /// The body of a record class (JLS 8.10.2).
    RecordBody,
    /// The body of an enum class (JLS 8.9.1).
    EnumBody,
    /// A constant of an enum class (JLS 8.9.1).
    EnumConstant,
    /// The class body of an instance creation or of an enum constant (JLS 15.9.5, 8.9.1).
    AnonymousClassDeclaration,
    /// The components of a record class, in parentheses (JLS 8.10.1).
    RecordComponentList,
    /// A component of a record class (JLS 8.10.1).
    RecordComponent,
    /// A constructor of a record class without parameters of its own (JLS 8.10.4.2).
    CompactConstructorDeclaration,
    /// An instance or static initializer (JLS 8.6, 8.7).
    Initializer,
    /// A constructor (JLS 8.8).
    ConstructorDeclaration,
    /// A block, or the body of a constructor (JLS 14.2, 8.8.7).
    Block,
    /// A call of another constructor, first in a constructor (JLS 8.8.7.1).
    ExplicitConstructorInvocation,
    /// A method, or an element of an annotation interface (JLS 8.4, 9.4, 9.6.1).
    MethodDeclaration,
    /// The default of an element of an annotation interface (JLS 9.6.2).
    DefaultValue,
    /// Fields that are declared (JLS 8.3, 9.3).
    FieldDeclaration,
    /// A declared variable with what it starts with (JLS 8.3, 14.4).
    VariableDeclarator,
    /// A list in braces that makes an array (JLS 10.6).
    ArrayInitializer,
    /// The name that a declaration gives to a variable (JLS 8.3).
    VariableId,
    /// The pairs of brackets of an array type, or of what is declared or made (JLS 4.3, 10.2).
    ArrayDimensions,
    /// One pair of brackets, or the `...` of a variable arity (JLS 4.3, 8.4.1).
    ArrayTypeDim,
    /// The parameters of a method or a constructor, in parentheses (JLS 8.4.1).
    FormalParameters,
    /// A parameter `this` (JLS 8.4).
    ReceiverParameter,
    /// A parameter of a method or a constructor (JLS 8.4.1).
    FormalParameter,
    /// An array type (JLS 4.3, 10.1).
    ArrayType,
    /// A primitive type (JLS 4.2).
    PrimitiveType,
    /// The word `void` (JLS 8.4.5, 15.8.2).
    VoidType,
    /// Type arguments with their signs, or a diamond (JLS 4.5.1, 15.9).
    TypeArguments,
    /// A wildcard among type arguments (JLS 4.5.1).
    WildcardType,
    /// A class or interface that is declared in a block (JLS 14.3).
    LocalClassStatement,
    /// Local variables that are declared (JLS 14.4, 14.14, 14.20.3).
    LocalVariableDeclaration,
    /// A statement with a label (JLS 14.7).
    LabeledStatement,
    /// An `if` (JLS 14.9).
    IfStatement,
    /// A `while` (JLS 14.12).
    WhileStatement,
    /// A `do` (JLS 14.13).
    DoStatement,
    /// An enhanced `for` (JLS 14.14.2).
    ForeachStatement,
    /// A basic `for` (JLS 14.14.1).
    ForStatement,
    /// What a basic `for` begins with (JLS 14.14.1).
    ForInit,
    /// What a basic `for` does after each turn (JLS 14.14.1).
    ForUpdate,
    /// The expressions at one place in the head of a basic `for` (JLS 14.14.1).
    StatementExpressionList,
    /// A `try` (JLS 14.20).
    TryStatement,
    /// The resources of a `try`, in parentheses (JLS 14.20.3).
    ResourceList,
    /// A resource of a `try` (JLS 14.20.3).
    Resource,
    /// A `catch` (JLS 14.20).
    CatchClause,
    /// The parameter of a `catch` (JLS 14.20).
    CatchParameter,
    /// Two or more types joined by `|` (JLS 14.20).
    UnionType,
    /// A `finally` (JLS 14.20).
    FinallyClause,
    /// A `switch` that is a statement (JLS 14.11).
    SwitchStatement,
    /// A `switch` that is an expression (JLS 15.28).
    SwitchExpression,
    /// A branch of a `switch` with an arrow (JLS 14.11.1).
    SwitchArrowBranch,
    /// A label of a `switch` with a colon, and the statements behind it (JLS 14.11.1).
    SwitchFallthroughBranch,
    /// A `case` or a `default` (JLS 14.11.1).
    SwitchLabel,
    /// A `synchronized` statement (JLS 14.19).
    SynchronizedStatement,
    /// A `return` (JLS 14.17).
    ReturnStatement,
    /// A `throw` (JLS 14.18).
    ThrowStatement,
    /// A `break` (JLS 14.15).
    BreakStatement,
    /// A `continue` (JLS 14.16).
    ContinueStatement,
    /// An `assert` (JLS 14.10).
    AssertStatement,
    /// A `yield` (JLS 14.21).
    YieldStatement,
    /// A `;` alone (JLS 14.6).
    EmptyStatement,
    /// An expression with a `;` (JLS 14.8).
    ExpressionStatement,
    /// A lambda expression (JLS 15.27).
    LambdaExpression,
    /// The parameters of a lambda expression (JLS 15.27.1).
    LambdaParameterList,
    /// A parameter of a lambda expression, with or without a type (JLS 15.27.1).
    LambdaParameter,
    /// An assignment, simple or compound (JLS 15.26).
    AssignmentExpression,
    /// A choice by `?` and `:` (JLS 15.25).
    ConditionalExpression,
    /// An operator between two operands, or an `instanceof` (JLS 15.17 to 15.24).
    InfixExpression,
    /// A pattern behind `instanceof` (JLS 15.20.2).
    PatternExpression,
    /// A pattern of a type and a name (JLS 14.30.1).
    TypePattern,
    /// A type in the place of an expression (JLS 15.20.2, 15.13, 6.5.2).
    TypeExpression,
    /// An operator before or behind its operand (JLS 15.14, 15.15).
    UnaryExpression,
    /// A cast (JLS 15.16).
    CastExpression,
    /// A call of a method (JLS 15.12).
    MethodCall,
    /// A name behind an expression and a dot (JLS 15.11, 6.5.6.2).
    FieldAccess,
    /// An instance creation by `new` (JLS 15.9).
    ConstructorCall,
    /// An element of an array (JLS 15.10.3).
    ArrayAccess,
    /// A method reference (JLS 15.13).
    MethodReference,
    /// An integer or floating point literal (JLS 3.10.1, 3.10.2).
    NumericLiteral,
    /// A string literal or a text block (JLS 3.10.5, 3.10.6).
    StringLiteral,
    /// A character literal (JLS 3.10.4).
    CharLiteral,
    /// `true` or `false` (JLS 3.10.3).
    BooleanLiteral,
    /// `null` (JLS 3.10.8).
    NullLiteral,
    /// A type, a dot and `class` (JLS 15.8.2).
    ClassLiteral,
    /// `this`, also with a class before it (JLS 15.8.3, 15.8.4).
    ThisExpression,
    /// `super` before a dot or a `::`, also with a class before it (JLS 15.11.2, 15.12, 15.13).
    SuperExpression,
    /// An array that `new` makes (JLS 15.10.1).
    ArrayAllocation,
    /// A pair of brackets with the length in it (JLS 15.10.1).
    ArrayDimExpr,
    /// A simple name in the place of an expression (JLS 6.5.6.1).
    VariableAccess,
    /// The arguments of a call, in parentheses (JLS 15.12).
    ArgumentList,
}

impl Kind {
    /// The kind's name as queries spell it.
    pub fn name(self) -> &'static str
        ensures value { result.now ≡ name_of self }
    {
        match self {
            Kind::CompilationUnit => "CompilationUnit",
            Kind::PackageDeclaration => "PackageDeclaration",
            Kind::ImportDeclaration => "ImportDeclaration",
            Kind::EmptyDeclaration => "EmptyDeclaration",
            Kind::ModifierList => "ModifierList",
            Kind::Annotation => "Annotation",
            Kind::ClassType => "ClassType",
            Kind::AnnotationMemberList => "AnnotationMemberList",
            Kind::MemberValuePair => "MemberValuePair",
            Kind::MemberValueArrayInitializer => "MemberValueArrayInitializer",
            Kind::ClassDeclaration => "ClassDeclaration",
            Kind::EnumDeclaration => "EnumDeclaration",
            Kind::RecordDeclaration => "RecordDeclaration",
            Kind::AnnotationTypeDeclaration => "AnnotationTypeDeclaration",
            Kind::ExtendsList => "ExtendsList",
            Kind::ImplementsList => "ImplementsList",
            Kind::PermitsList => "PermitsList",
            Kind::ThrowsList => "ThrowsList",
            Kind::TypeParameters => "TypeParameters",
            Kind::TypeParameter => "TypeParameter",
            Kind::IntersectionType => "IntersectionType",
            Kind::ClassBody => "ClassBody",
            Kind::AnnotationTypeBody => "AnnotationTypeBody",
            Kind::RecordBody => "RecordBody",
            Kind::EnumBody => "EnumBody",
            Kind::EnumConstant => "EnumConstant",
            Kind::AnonymousClassDeclaration => "AnonymousClassDeclaration",
            Kind::RecordComponentList => "RecordComponentList",
            Kind::RecordComponent => "RecordComponent",
            Kind::CompactConstructorDeclaration => "CompactConstructorDeclaration",
            Kind::Initializer => "Initializer",
            Kind::ConstructorDeclaration => "ConstructorDeclaration",
            Kind::Block => "Block",
            Kind::ExplicitConstructorInvocation => "ExplicitConstructorInvocation",
            Kind::MethodDeclaration => "MethodDeclaration",
            Kind::DefaultValue => "DefaultValue",
            Kind::FieldDeclaration => "FieldDeclaration",
            Kind::VariableDeclarator => "VariableDeclarator",
            Kind::ArrayInitializer => "ArrayInitializer",
            Kind::VariableId => "VariableId",
            Kind::ArrayDimensions => "ArrayDimensions",
            Kind::ArrayTypeDim => "ArrayTypeDim",
            Kind::FormalParameters => "FormalParameters",
            Kind::ReceiverParameter => "ReceiverParameter",
            Kind::FormalParameter => "FormalParameter",
            Kind::ArrayType => "ArrayType",
            Kind::PrimitiveType => "PrimitiveType",
            Kind::VoidType => "VoidType",
            Kind::TypeArguments => "TypeArguments",
            Kind::WildcardType => "WildcardType",
            Kind::LocalClassStatement => "LocalClassStatement",
            Kind::LocalVariableDeclaration => "LocalVariableDeclaration",
            Kind::LabeledStatement => "LabeledStatement",
            Kind::IfStatement => "IfStatement",
            Kind::WhileStatement => "WhileStatement",
            Kind::DoStatement => "DoStatement",
            Kind::ForeachStatement => "ForeachStatement",
            Kind::ForStatement => "ForStatement",
            Kind::ForInit => "ForInit",
            Kind::ForUpdate => "ForUpdate",
            Kind::StatementExpressionList => "StatementExpressionList",
            Kind::TryStatement => "TryStatement",
            Kind::ResourceList => "ResourceList",
            Kind::Resource => "Resource",
            Kind::CatchClause => "CatchClause",
            Kind::CatchParameter => "CatchParameter",
            Kind::UnionType => "UnionType",
            Kind::FinallyClause => "FinallyClause",
            Kind::SwitchStatement => "SwitchStatement",
            Kind::SwitchExpression => "SwitchExpression",
            Kind::SwitchArrowBranch => "SwitchArrowBranch",
            Kind::SwitchFallthroughBranch => "SwitchFallthroughBranch",
            Kind::SwitchLabel => "SwitchLabel",
            Kind::SynchronizedStatement => "SynchronizedStatement",
            Kind::ReturnStatement => "ReturnStatement",
            Kind::ThrowStatement => "ThrowStatement",
            Kind::BreakStatement => "BreakStatement",
            Kind::ContinueStatement => "ContinueStatement",
            Kind::AssertStatement => "AssertStatement",
            Kind::YieldStatement => "YieldStatement",
            Kind::EmptyStatement => "EmptyStatement",
            Kind::ExpressionStatement => "ExpressionStatement",
            Kind::LambdaExpression => "LambdaExpression",
            Kind::LambdaParameterList => "LambdaParameterList",
            Kind::LambdaParameter => "LambdaParameter",
            Kind::AssignmentExpression => "AssignmentExpression",
            Kind::ConditionalExpression => "ConditionalExpression",
            Kind::InfixExpression => "InfixExpression",
            Kind::PatternExpression => "PatternExpression",
            Kind::TypePattern => "TypePattern",
            Kind::TypeExpression => "TypeExpression",
            Kind::UnaryExpression => "UnaryExpression",
            Kind::CastExpression => "CastExpression",
            Kind::MethodCall => "MethodCall",
            Kind::FieldAccess => "FieldAccess",
            Kind::ConstructorCall => "ConstructorCall",
            Kind::ArrayAccess => "ArrayAccess",
            Kind::MethodReference => "MethodReference",
            Kind::NumericLiteral => "NumericLiteral",
            Kind::StringLiteral => "StringLiteral",
            Kind::CharLiteral => "CharLiteral",
            Kind::BooleanLiteral => "BooleanLiteral",
            Kind::NullLiteral => "NullLiteral",
            Kind::ClassLiteral => "ClassLiteral",
            Kind::ThisExpression => "ThisExpression",
            Kind::SuperExpression => "SuperExpression",
            Kind::ArrayAllocation => "ArrayAllocation",
            Kind::ArrayDimExpr => "ArrayDimExpr",
            Kind::VariableAccess => "VariableAccess",
            Kind::ArgumentList => "ArgumentList",
        }
    }
}
