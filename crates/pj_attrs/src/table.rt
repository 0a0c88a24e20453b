//! The attributes of each kind of node.

ghost use Rattle.std.specs.Prelude.{◌≡◌, map};
ghost use Rattle.pj_attrs.specs.Attribute.{attribute_names};
ghost use Rattle.pj_attrs.specs.Table.{attributes};

use pj_properties::Property::{Flag, Number, Text};
use pj_properties::{FlagProperty, NumberProperty, Property, TextProperty, Word};
use pj_symbols::{Nesting, VariableKind};
use pj_tree::Kind;
use pj_xvalue::Modifier;

/// The attributes of the nodes of a kind.
#[derive(Clone, Copy)]
pub struct AttributeTable {
    /// Their names, in order.
    pub names: &'static [&'static str],
    /// The same, each with the property that gives its value.
    pub rows: &'static [(&'static str, Property)],
}

// A table by its rows.
macro_rules! attributes {
    ($($name:literal => $property:expr),*) => {
        AttributeTable { names: &[$($name),*], rows: &[$(($name, $property)),*] }
    };
}

// The table of a kind of expressions, by the rows that it has besides those of every expression.
macro_rules! expression {
    ($($name:literal => $property:expr),*) => {
        attributes!(
            "Parenthesized" => Flag(FlagProperty::Parenthesized),
            "ParenthesisDepth" => Number(NumberProperty::ParenthesisDepth)
            $(, $name => $property)*
        )
    };
}

/// The attributes of the nodes of the kind.
#[tactic(auto, unfolding(crate::specs::Table::attributes))]
pub fn table_of(kind: Kind) -> AttributeTable
    ensures names { map (λ name. name.now) result.names.now ≡ attribute_names kind }
    ensures rows { map (λ row. (row.0.now, row.1)) result.rows.now ≡ attributes kind }
{
    match kind {
        Kind::CompilationUnit => attributes!("PackageName" => Text(TextProperty::PackageName)),
        Kind::PackageDeclaration => attributes!("Name" => Text(TextProperty::Kept)),
        Kind::EnumConstant => attributes!("Name" => Text(TextProperty::VariableName)),
        Kind::TypeParameter => attributes!("Name" => Text(TextProperty::FirstWord)),
        Kind::ImportDeclaration => attributes!(
            "ImportOnDemand" => Flag(FlagProperty::Word(Word::Star)),
            "ImportedName" => Text(TextProperty::Kept),
            "ImportedSimpleName" => Text(TextProperty::ImportedSimpleName),
            "PackageName" => Text(TextProperty::ImportedPackage),
            "Static" => Flag(FlagProperty::Word(Word::Static))
        ),
        Kind::ClassDeclaration
        | Kind::EnumDeclaration
        | Kind::RecordDeclaration
        | Kind::AnnotationTypeDeclaration
        | Kind::AnonymousClassDeclaration => attributes!(
            "Abstract" => Flag(FlagProperty::Modifier(Modifier::Abstract)),
            "Annotation" => Flag(FlagProperty::Kind(Kind::AnnotationTypeDeclaration)),
            "Anonymous" => Flag(FlagProperty::Nesting(Nesting::Anonymous)),
            "BinaryName" => Text(TextProperty::BinaryName),
            "Enum" => Flag(FlagProperty::Kind(Kind::EnumDeclaration)),
            "Final" => Flag(FlagProperty::Modifier(Modifier::Final)),
            "Interface" => Flag(FlagProperty::Interface),
            "Local" => Flag(FlagProperty::Nesting(Nesting::Local)),
            "Nested" => Flag(FlagProperty::Nesting(Nesting::Nested)),
            "PackageName" => Text(TextProperty::PackageName),
            "Record" => Flag(FlagProperty::Kind(Kind::RecordDeclaration)),
            "RegularClass" => Flag(FlagProperty::RegularClass),
            "RegularInterface" => Flag(FlagProperty::RegularInterface),
            "SimpleName" => Text(TextProperty::LastWord),
            "Static" => Flag(FlagProperty::Modifier(Modifier::Static)),
            "TopLevel" => Flag(FlagProperty::Nesting(Nesting::TopLevel)),
            "Visibility" => Text(TextProperty::ClassVisibility)
        ),
        Kind::MethodDeclaration => attributes!(
            "Abstract" => Flag(FlagProperty::Modifier(Modifier::Abstract)),
            "Arity" => Number(NumberProperty::Arity),
            "Final" => Flag(FlagProperty::Modifier(Modifier::Final)),
            "Name" => Text(TextProperty::FirstWord),
            "Static" => Flag(FlagProperty::Modifier(Modifier::Static)),
            "Varargs" => Flag(FlagProperty::VarargsMethod),
            "Visibility" => Text(TextProperty::MemberVisibility),
            "Void" => Flag(FlagProperty::Child(Kind::VoidType))
        ),
        Kind::ConstructorDeclaration => attributes!(
            "Arity" => Number(NumberProperty::Arity),
            "Name" => Text(TextProperty::FirstWord),
            "Varargs" => Flag(FlagProperty::VarargsMethod),
            "Visibility" => Text(TextProperty::MemberVisibility)
        ),
        Kind::CompactConstructorDeclaration => attributes!(
            "Name" => Text(TextProperty::FirstWord),
            "Visibility" => Text(TextProperty::MemberVisibility)
        ),
        Kind::FieldDeclaration => attributes!(
            "Final" => Flag(FlagProperty::Modifier(Modifier::Final)),
            "Static" => Flag(FlagProperty::Modifier(Modifier::Static)),
            "Visibility" => Text(TextProperty::MemberVisibility)
        ),
        Kind::LocalVariableDeclaration | Kind::LambdaParameter => attributes!(
            "Final" => Flag(FlagProperty::Modifier(Modifier::Final)),
            "TypeInferred" => Flag(FlagProperty::TypeInferred)
        ),
        Kind::FormalParameter => attributes!(
            "Final" => Flag(FlagProperty::Modifier(Modifier::Final)),
            "Varargs" => Flag(FlagProperty::VarargsParameter)
        ),
        Kind::CatchParameter => attributes!(
            "Final" => Flag(FlagProperty::Modifier(Modifier::Final)),
            "Multicatch" => Flag(FlagProperty::Child(Kind::UnionType))
        ),
        Kind::RecordComponent => attributes!("Varargs" => Flag(FlagProperty::VarargsParameter)),
        Kind::ArrayTypeDim => attributes!("Varargs" => Flag(FlagProperty::Word(Word::Ellipsis))),
        Kind::FormalParameters => attributes!("Size" => Number(NumberProperty::ParameterCount)),
        Kind::ArgumentList | Kind::ArrayDimensions =>
            attributes!("Size" => Number(NumberProperty::ChildCount)),
        Kind::VariableId => attributes!(
            "ArrayType" => Flag(FlagProperty::ArrayVariable),
            "EnumConstant" => Flag(FlagProperty::Variable(VariableKind::EnumConstant)),
            "ExceptionBlockParameter" => Flag(FlagProperty::Variable(VariableKind::ExceptionParameter)),
            "Field" => Flag(FlagProperty::Variable(VariableKind::Field)),
            "Final" => Flag(FlagProperty::Modifier(Modifier::Final)),
            "ForLoopVariable" => Flag(FlagProperty::Variable(VariableKind::ForLoopVariable)),
            "ForeachVariable" => Flag(FlagProperty::Variable(VariableKind::ForeachVariable)),
            "FormalParameter" => Flag(FlagProperty::Variable(VariableKind::FormalParameter)),
            "LambdaParameter" => Flag(FlagProperty::Variable(VariableKind::LambdaParameter)),
            "LocalVariable" => Flag(FlagProperty::Variable(VariableKind::LocalVariable)),
            "Name" => Text(TextProperty::FirstWord),
            "PatternBinding" => Flag(FlagProperty::Variable(VariableKind::PatternBinding)),
            "RecordComponent" => Flag(FlagProperty::Variable(VariableKind::RecordComponent)),
            "ResourceDeclaration" => Flag(FlagProperty::Variable(VariableKind::Resource)),
            "TypeInferred" => Flag(FlagProperty::VariableInferred),
            "Visibility" => Text(TextProperty::VariableVisibility)
        ),
        Kind::Initializer => attributes!("Static" => Flag(FlagProperty::Word(Word::Static))),
        Kind::Annotation => attributes!("SimpleName" => Text(TextProperty::TypeName)),
        Kind::MemberValuePair => attributes!(
            "Name" => Text(TextProperty::PairName),
            "Shorthand" => Flag(FlagProperty::Shorthand)
        ),
        Kind::ClassType => attributes!(
            "FullyQualified" => Flag(FlagProperty::FullyQualified),
            "PackageQualifier" => Text(TextProperty::Kept),
            "SimpleName" => Text(TextProperty::LastWord)
        ),
        Kind::TypeArguments => attributes!(
            "Diamond" => Flag(FlagProperty::Childless),
            "Size" => Number(NumberProperty::ChildCount)
        ),
        Kind::PrimitiveType => attributes!("Kind" => Text(TextProperty::LastWord)),
        Kind::WildcardType => attributes!(
            "LowerBound" => Flag(FlagProperty::Word(Word::Super)),
            "UpperBound" => Flag(FlagProperty::Word(Word::Extends))
        ),
        Kind::NumericLiteral => expression!(
            "Base" => Number(NumberProperty::Radix),
            "ConstValue" => Number(NumberProperty::IntegerValue),
            "DoubleLiteral" => Flag(FlagProperty::DoubleLiteral),
            "FloatLiteral" => Flag(FlagProperty::FloatLiteral),
            "Image" => Text(TextProperty::Spelling),
            "IntLiteral" => Flag(FlagProperty::IntLiteral),
            "LongLiteral" => Flag(FlagProperty::LongLiteral)
        ),
        Kind::StringLiteral => expression!(
            "ConstValue" => Text(TextProperty::Kept),
            "Empty" => Flag(FlagProperty::EmptyValue),
            "Image" => Text(TextProperty::Spelling),
            "Length" => Number(NumberProperty::ValueLength),
            "TextBlock" => Flag(FlagProperty::TextBlock)
        ),
        Kind::CharLiteral => expression!(
            "ConstValue" => Text(TextProperty::Kept),
            "Image" => Text(TextProperty::Spelling)
        ),
        Kind::BooleanLiteral => expression!(
            "ConstValue" => Flag(FlagProperty::True),
            "True" => Flag(FlagProperty::True)
        ),
        Kind::InfixExpression => expression!("Operator" => Text(TextProperty::Operator)),
        Kind::UnaryExpression => expression!(
            "Operator" => Text(TextProperty::Operator),
            "Prefix" => Flag(FlagProperty::Prefix)
        ),
        Kind::AssignmentExpression => expression!(
            "Compound" => Flag(FlagProperty::Compound),
            "Operator" => Text(TextProperty::Operator)
        ),
        Kind::MethodCall => expression!("MethodName" => Text(TextProperty::LastWord)),
        Kind::MethodReference => expression!(
            "ConstructorReference" => Flag(FlagProperty::ConstructorReference),
            "MethodName" => Text(TextProperty::LastWord)
        ),
        Kind::ConstructorCall => expression!(
            "AnonymousClass" => Flag(FlagProperty::Child(Kind::AnonymousClassDeclaration)),
            "DiamondTypeArgs" => Flag(FlagProperty::Diamond)
        ),
        Kind::FieldAccess | Kind::VariableAccess => expression!(
            "AccessType" => Text(TextProperty::AccessType),
            "Name" => Text(TextProperty::LastWord)
        ),
        Kind::LambdaExpression => expression!(
            "Arity" => Number(NumberProperty::LambdaArity),
            "BlockBody" => Flag(FlagProperty::Child(Kind::Block)),
            "ExpressionBody" => Flag(FlagProperty::NoChild(Kind::Block))
        ),
        Kind::ExplicitConstructorInvocation => attributes!(
            "ArgumentCount" => Number(NumberProperty::ArgumentCount),
            "Qualified" => Flag(FlagProperty::Word(Word::Dot)),
            "Super" => Flag(FlagProperty::Word(Word::Super)),
            "This" => Flag(FlagProperty::Word(Word::This))
        ),
        Kind::ArrayAllocation => expression!("ArrayDepth" => Number(NumberProperty::ArrayDepth)),
        Kind::IfStatement => attributes!("Else" => Flag(FlagProperty::Word(Word::Else))),
        Kind::LabeledStatement => attributes!("Label" => Text(TextProperty::FirstWord)),
        Kind::BreakStatement | Kind::ContinueStatement =>
            attributes!("Label" => Text(TextProperty::JumpLabel)),
        Kind::SwitchLabel => attributes!("Default" => Flag(FlagProperty::Word(Word::Default))),
        Kind::SwitchStatement => attributes!(
            "DefaultCase" => Flag(FlagProperty::DefaultCase),
            "FallthroughSwitch" => Flag(FlagProperty::Child(Kind::SwitchFallthroughBranch))
        ),
        Kind::SwitchExpression => expression!(
            "DefaultCase" => Flag(FlagProperty::DefaultCase),
            "FallthroughSwitch" => Flag(FlagProperty::Child(Kind::SwitchFallthroughBranch))
        ),
        Kind::TryStatement =>
            attributes!("TryWithResources" => Flag(FlagProperty::Child(Kind::ResourceList))),
        Kind::Block => attributes!(
            "Empty" => Flag(FlagProperty::Childless),
            "Size" => Number(NumberProperty::ChildCount)
        ),
        Kind::Resource => attributes!(
            "ConciseResource" => Flag(FlagProperty::NoChild(Kind::LocalVariableDeclaration))
        ),
        Kind::NullLiteral
        | Kind::ClassLiteral
        | Kind::ThisExpression
        | Kind::SuperExpression
        | Kind::TypeExpression
        | Kind::PatternExpression
        | Kind::ArrayAccess
        | Kind::ArrayInitializer
        | Kind::ConditionalExpression
        | Kind::CastExpression => expression!(),
        _ => attributes!(),
    }
}
