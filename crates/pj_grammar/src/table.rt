//! The grammar of Java 17 as tables, which are proved to be that of `specs/Java17.antt`.

use crate::piece::Piece;
use crate::piece::Piece::{And, Any, Choice, Maybe, Not, Rule, Seq, Star, Token};
use crate::rule::Rule as R;
use crate::terminal::{ContextualWord as W, WORDS};
use pj_lex::TokenKind as T;
use pj_shape::Shape;
use pj_shape::Shape::{Joined, Node, Pass, Segment, Turn};
use pj_tree::Kind as K;

/// The items of the rules by their numbers, each before its parts.
#[rattlefmt::skip]
pub(crate) static PIECES: [Piece; 1348] = [
    // Unit
    Seq(4), Maybe, Rule(R::Package as u16), Star, Choice(2), Rule(R::Import as u16), Rule(R::EmptyD as u16), Star,
    Choice(2), Rule(R::TypeD as u16), Rule(R::EmptyD as u16), Not, Any,
    // Package
    Seq(4), Rule(R::AMods as u16), Token(T::Package as u16), Rule(R::Name as u16), Token(T::Semicolon as u16),
    // Name
    Seq(2), Choice(7), Token(T::Identifier as u16), Token(WORDS + W::Non as u16), Token(WORDS + W::Sealed as u16),
    Token(WORDS + W::Record as u16), Token(WORDS + W::Permits as u16), Token(WORDS + W::Var as u16),
    Token(WORDS + W::Yield as u16), Star, Seq(2), Token(T::Dot as u16), Choice(7), Token(T::Identifier as u16),
    Token(WORDS + W::Non as u16), Token(WORDS + W::Sealed as u16), Token(WORDS + W::Record as u16),
    Token(WORDS + W::Permits as u16), Token(WORDS + W::Var as u16), Token(WORDS + W::Yield as u16),
    // Import
    Seq(5), Token(T::Import as u16), Maybe, Token(T::Static as u16), Rule(R::Name as u16), Maybe, Seq(2),
    Token(T::Dot as u16), Token(T::Star as u16), Token(T::Semicolon as u16),
    // EmptyD
    Token(T::Semicolon as u16),
    // AMods
    Star, Rule(R::Ann as u16),
    // LMods
    Star, Choice(2), Rule(R::Ann as u16), Token(T::Final as u16),
    // NoMods
    Seq(0),
    // Mods
    Star, Choice(2), Rule(R::Ann as u16), Rule(R::Mod as u16),
    // Mod
    Choice(14), Token(T::Public as u16), Token(T::Protected as u16), Token(T::Private as u16), Token(T::Static as u16),
    Token(T::Abstract as u16), Token(T::Final as u16), Token(T::Native as u16), Token(T::Synchronized as u16),
    Token(T::Transient as u16), Token(T::Volatile as u16), Token(T::Strictfp as u16), Seq(2), Token(T::Default as u16),
    Not, Choice(2), Token(T::Colon as u16), Token(T::Arrow as u16), Seq(3), Token(WORDS + W::Non as u16),
    Token(T::Minus as u16), Token(WORDS + W::Sealed as u16), Seq(2), Token(WORDS + W::Sealed as u16), And, Choice(9),
    Token(T::At as u16), Token(T::Class as u16), Token(T::Interface as u16), Token(T::Public as u16),
    Token(T::Protected as u16), Token(T::Private as u16), Token(T::Abstract as u16), Token(T::Static as u16),
    Token(T::Strictfp as u16),
    // Ann
    Seq(4), Token(T::At as u16), Not, Token(T::Interface as u16), Rule(R::AName as u16), Maybe, Rule(R::AnnArgs as u16),
    // AName
    Seq(2), Rule(R::ASeg as u16), Star, Seq(2), Token(T::Dot as u16), Rule(R::ASeg as u16),
    // ASeg
    Choice(7), Token(T::Identifier as u16), Token(WORDS + W::Non as u16), Token(WORDS + W::Sealed as u16),
    Token(WORDS + W::Record as u16), Token(WORDS + W::Permits as u16), Token(WORDS + W::Var as u16),
    Token(WORDS + W::Yield as u16),
    // AnnArgs
    Seq(3), Token(T::LeftParenthesis as u16), Maybe, Choice(2), Seq(2), Rule(R::Pair as u16), Star, Seq(2),
    Token(T::Comma as u16), Rule(R::Pair as u16), Rule(R::Short as u16), Token(T::RightParenthesis as u16),
    // Pair
    Seq(3), Choice(7), Token(T::Identifier as u16), Token(WORDS + W::Non as u16), Token(WORDS + W::Sealed as u16),
    Token(WORDS + W::Record as u16), Token(WORDS + W::Permits as u16), Token(WORDS + W::Var as u16),
    Token(WORDS + W::Yield as u16), Token(T::Assign as u16), Rule(R::MVal as u16),
    // Short
    Rule(R::MVal as u16),
    // MVal
    Choice(3), Rule(R::Ann as u16), Rule(R::MArr as u16), Rule(R::Cond as u16),
    // MArr
    Seq(4), Token(T::LeftBrace as u16), Maybe, Seq(2), Rule(R::MVal as u16), Star, Seq(2), Token(T::Comma as u16),
    Rule(R::MVal as u16), Maybe, Token(T::Comma as u16), Token(T::RightBrace as u16),
    // TypeD
    Choice(5), Rule(R::ClassD as u16), Rule(R::InterfaceD as u16), Rule(R::EnumD as u16), Rule(R::RecordD as u16),
    Rule(R::AnnD as u16),
    // ClassD
    Seq(8), Rule(R::Mods as u16), Token(T::Class as u16), Choice(7), Token(T::Identifier as u16),
    Token(WORDS + W::Non as u16), Token(WORDS + W::Sealed as u16), Token(WORDS + W::Record as u16),
    Token(WORDS + W::Permits as u16), Token(WORDS + W::Var as u16), Token(WORDS + W::Yield as u16), Maybe,
    Rule(R::TParams as u16), Maybe, Rule(R::Ext1 as u16), Maybe, Rule(R::Impl as u16), Maybe, Rule(R::Permits as u16),
    Rule(R::ClassB as u16),
    // InterfaceD
    Seq(7), Rule(R::Mods as u16), Token(T::Interface as u16), Choice(7), Token(T::Identifier as u16),
    Token(WORDS + W::Non as u16), Token(WORDS + W::Sealed as u16), Token(WORDS + W::Record as u16),
    Token(WORDS + W::Permits as u16), Token(WORDS + W::Var as u16), Token(WORDS + W::Yield as u16), Maybe,
    Rule(R::TParams as u16), Maybe, Rule(R::ExtN as u16), Maybe, Rule(R::Permits as u16), Rule(R::ClassB as u16),
    // EnumD
    Seq(5), Rule(R::Mods as u16), Token(T::Enum as u16), Choice(7), Token(T::Identifier as u16),
    Token(WORDS + W::Non as u16), Token(WORDS + W::Sealed as u16), Token(WORDS + W::Record as u16),
    Token(WORDS + W::Permits as u16), Token(WORDS + W::Var as u16), Token(WORDS + W::Yield as u16), Maybe,
    Rule(R::Impl as u16), Rule(R::EnumB as u16),
    // RecordD
    Seq(7), Rule(R::Mods as u16), Token(WORDS + W::Record as u16), Choice(7), Token(T::Identifier as u16),
    Token(WORDS + W::Non as u16), Token(WORDS + W::Sealed as u16), Token(WORDS + W::Record as u16),
    Token(WORDS + W::Permits as u16), Token(WORDS + W::Var as u16), Token(WORDS + W::Yield as u16), Maybe,
    Rule(R::TParams as u16), Rule(R::Comps as u16), Maybe, Rule(R::Impl as u16), Rule(R::RecordB as u16),
    // AnnD
    Seq(5), Rule(R::Mods as u16), Token(T::At as u16), Token(T::Interface as u16), Choice(7),
    Token(T::Identifier as u16), Token(WORDS + W::Non as u16), Token(WORDS + W::Sealed as u16),
    Token(WORDS + W::Record as u16), Token(WORDS + W::Permits as u16), Token(WORDS + W::Var as u16),
    Token(WORDS + W::Yield as u16), Rule(R::AnnB as u16),
    // Ext1
    Seq(2), Token(T::Extends as u16), Rule(R::CType as u16),
    // ExtN
    Seq(2), Token(T::Extends as u16), Seq(2), Rule(R::CType as u16), Star, Seq(2), Token(T::Comma as u16),
    Rule(R::CType as u16),
    // Impl
    Seq(2), Token(T::Implements as u16), Seq(2), Rule(R::CType as u16), Star, Seq(2), Token(T::Comma as u16),
    Rule(R::CType as u16),
    // Permits
    Seq(2), Token(WORDS + W::Permits as u16), Seq(2), Rule(R::CType as u16), Star, Seq(2), Token(T::Comma as u16),
    Rule(R::CType as u16),
    // Throws
    Seq(2), Token(T::Throws as u16), Seq(2), Rule(R::CType as u16), Star, Seq(2), Token(T::Comma as u16),
    Rule(R::CType as u16),
    // TParams
    Seq(3), Token(T::Less as u16), Seq(2), Rule(R::TParam as u16), Star, Seq(2), Token(T::Comma as u16),
    Rule(R::TParam as u16), Rule(R::GT as u16),
    // TParam
    Seq(3), Star, Rule(R::Ann as u16), Choice(7), Token(T::Identifier as u16), Token(WORDS + W::Non as u16),
    Token(WORDS + W::Sealed as u16), Token(WORDS + W::Record as u16), Token(WORDS + W::Permits as u16),
    Token(WORDS + W::Var as u16), Token(WORDS + W::Yield as u16), Maybe, Seq(2), Token(T::Extends as u16),
    Rule(R::Bound as u16),
    // Bound
    Seq(2), Rule(R::CType as u16), Star, Seq(2), Token(T::Ampersand as u16), Rule(R::CType as u16),
    // GT
    Choice(2), Token(T::Greater as u16), Token(T::GreaterJoined as u16),
    // ClassB
    Seq(3), Token(T::LeftBrace as u16), Star, Rule(R::Member as u16), Token(T::RightBrace as u16),
    // AnnB
    Seq(3), Token(T::LeftBrace as u16), Star, Rule(R::Member as u16), Token(T::RightBrace as u16),
    // RecordB
    Seq(3), Token(T::LeftBrace as u16), Star, Choice(2), Rule(R::Compact as u16), Rule(R::Member as u16),
    Token(T::RightBrace as u16),
    // EnumB
    Seq(5), Token(T::LeftBrace as u16), Maybe, Seq(2), Rule(R::EConst as u16), Star, Seq(2), Token(T::Comma as u16),
    Rule(R::EConst as u16), Maybe, Token(T::Comma as u16), Maybe, Seq(2), Token(T::Semicolon as u16), Star,
    Rule(R::Member as u16), Token(T::RightBrace as u16),
    // EConst
    Seq(4), Rule(R::AMods as u16), Rule(R::VarP as u16), Maybe, Rule(R::Args as u16), Maybe, Rule(R::Anon as u16),
    // Anon
    Seq(2), Rule(R::NoMods as u16), Rule(R::ClassB as u16),
    // Comps
    Seq(3), Token(T::LeftParenthesis as u16), Maybe, Seq(2), Rule(R::Comp as u16), Star, Seq(2), Token(T::Comma as u16),
    Rule(R::Comp as u16), Token(T::RightParenthesis as u16),
    // Comp
    Seq(3), Rule(R::AMods as u16), Rule(R::PType as u16), Rule(R::VarP as u16),
    // Compact
    Seq(3), Rule(R::Mods as u16), Choice(7), Token(T::Identifier as u16), Token(WORDS + W::Non as u16),
    Token(WORDS + W::Sealed as u16), Token(WORDS + W::Record as u16), Token(WORDS + W::Permits as u16),
    Token(WORDS + W::Var as u16), Token(WORDS + W::Yield as u16), Rule(R::Block as u16),
    // Member
    Choice(6), Rule(R::Init as u16), Rule(R::EmptyD as u16), Rule(R::TypeD as u16), Rule(R::Ctor as u16),
    Rule(R::Method as u16), Rule(R::Field as u16),
    // Init
    Seq(2), Maybe, Token(T::Static as u16), Rule(R::Block as u16),
    // Ctor
    Seq(6), Rule(R::Mods as u16), Maybe, Rule(R::TParams as u16), Choice(7), Token(T::Identifier as u16),
    Token(WORDS + W::Non as u16), Token(WORDS + W::Sealed as u16), Token(WORDS + W::Record as u16),
    Token(WORDS + W::Permits as u16), Token(WORDS + W::Var as u16), Token(WORDS + W::Yield as u16),
    Rule(R::Params as u16), Maybe, Rule(R::Throws as u16), Rule(R::CBlock as u16),
    // CBlock
    Seq(4), Token(T::LeftBrace as u16), Maybe, Rule(R::Explicit as u16), Star, Rule(R::BStmt as u16),
    Token(T::RightBrace as u16),
    // Explicit
    Seq(3), Choice(3), Seq(2), Maybe, Rule(R::TArgs as u16), Token(T::This as u16), Seq(2), Maybe,
    Rule(R::TArgs as u16), Token(T::Super as u16), Seq(4), Rule(R::Primary as u16), Token(T::Dot as u16), Maybe,
    Rule(R::TArgs as u16), Token(T::Super as u16), Rule(R::Args as u16), Token(T::Semicolon as u16),
    // Method
    Seq(9), Rule(R::Mods as u16), Maybe, Rule(R::TParams as u16), Choice(2), Rule(R::VoidT as u16),
    Rule(R::Type as u16), Choice(7), Token(T::Identifier as u16), Token(WORDS + W::Non as u16),
    Token(WORDS + W::Sealed as u16), Token(WORDS + W::Record as u16), Token(WORDS + W::Permits as u16),
    Token(WORDS + W::Var as u16), Token(WORDS + W::Yield as u16), Rule(R::Params as u16), Maybe, Rule(R::Dims as u16),
    Maybe, Rule(R::Throws as u16), Maybe, Rule(R::Default as u16), Choice(2), Rule(R::Block as u16),
    Token(T::Semicolon as u16),
    // Default
    Seq(2), Token(T::Default as u16), Rule(R::MVal as u16),
    // Field
    Seq(4), Rule(R::Mods as u16), Rule(R::Type as u16), Seq(2), Rule(R::Declr as u16), Star, Seq(2),
    Token(T::Comma as u16), Rule(R::Declr as u16), Token(T::Semicolon as u16),
    // Declr
    Seq(2), Rule(R::VarId as u16), Maybe, Seq(2), Token(T::Assign as u16), Rule(R::Init1 as u16),
    // Init1
    Choice(2), Rule(R::ArrInit as u16), Rule(R::Expr as u16),
    // ArrInit
    Seq(4), Token(T::LeftBrace as u16), Maybe, Seq(2), Rule(R::Init1 as u16), Star, Seq(2), Token(T::Comma as u16),
    Rule(R::Init1 as u16), Maybe, Token(T::Comma as u16), Token(T::RightBrace as u16),
    // VarId
    Seq(2), Choice(7), Token(T::Identifier as u16), Token(WORDS + W::Non as u16), Token(WORDS + W::Sealed as u16),
    Token(WORDS + W::Record as u16), Token(WORDS + W::Permits as u16), Token(WORDS + W::Var as u16),
    Token(WORDS + W::Yield as u16), Maybe, Rule(R::Dims as u16),
    // VarP
    Choice(7), Token(T::Identifier as u16), Token(WORDS + W::Non as u16), Token(WORDS + W::Sealed as u16),
    Token(WORDS + W::Record as u16), Token(WORDS + W::Permits as u16), Token(WORDS + W::Var as u16),
    Token(WORDS + W::Yield as u16),
    // Dims
    Seq(2), Rule(R::Dim as u16), Star, Rule(R::Dim as u16),
    // Dim
    Seq(3), Star, Rule(R::Ann as u16), Token(T::LeftBracket as u16), Token(T::RightBracket as u16),
    // Params
    Seq(3), Token(T::LeftParenthesis as u16), Maybe, Choice(2), Seq(2), Rule(R::Recv as u16), Star, Seq(2),
    Token(T::Comma as u16), Rule(R::Param as u16), Seq(2), Rule(R::Param as u16), Star, Seq(2), Token(T::Comma as u16),
    Rule(R::Param as u16), Token(T::RightParenthesis as u16),
    // Recv
    Seq(3), Rule(R::Type as u16), Star, Seq(2), Choice(7), Token(T::Identifier as u16), Token(WORDS + W::Non as u16),
    Token(WORDS + W::Sealed as u16), Token(WORDS + W::Record as u16), Token(WORDS + W::Permits as u16),
    Token(WORDS + W::Var as u16), Token(WORDS + W::Yield as u16), Token(T::Dot as u16), Token(T::This as u16),
    // Param
    Seq(3), Rule(R::LMods as u16), Rule(R::PType as u16), Rule(R::VarId as u16),
    // PType
    Choice(2), Rule(R::VArr as u16), Rule(R::Type as u16),
    // VArr
    Seq(2), Rule(R::Type as u16), Rule(R::VDims as u16),
    // VDims
    Rule(R::VDim as u16),
    // VDim
    Seq(2), Star, Rule(R::Ann as u16), Token(T::Ellipsis as u16),
    // Type
    Choice(2), Rule(R::ArrT as u16), Rule(R::Base as u16),
    // ArrT
    Seq(2), Rule(R::Base as u16), Rule(R::Dims as u16),
    // Base
    Choice(2), Rule(R::PrimT as u16), Rule(R::CType as u16),
    // PrimT
    Seq(2), Star, Rule(R::Ann as u16), Rule(R::Prim as u16),
    // Prim
    Choice(8), Token(T::Boolean as u16), Token(T::Byte as u16), Token(T::Short as u16), Token(T::Int as u16),
    Token(T::Long as u16), Token(T::Char as u16), Token(T::Float as u16), Token(T::Double as u16),
    // VoidT
    Token(T::Void as u16),
    // CType
    Seq(2), Rule(R::Seg as u16), Star, Seq(2), Token(T::Dot as u16), Rule(R::Seg as u16),
    // Seg
    Seq(3), Star, Rule(R::Ann as u16), Choice(7), Token(T::Identifier as u16), Token(WORDS + W::Non as u16),
    Token(WORDS + W::Sealed as u16), Token(WORDS + W::Record as u16), Token(WORDS + W::Permits as u16),
    Token(WORDS + W::Var as u16), Token(WORDS + W::Yield as u16), Maybe, Rule(R::TArgs as u16),
    // TArgs
    Seq(3), Token(T::Less as u16), Maybe, Seq(2), Rule(R::TArg as u16), Star, Seq(2), Token(T::Comma as u16),
    Rule(R::TArg as u16), Rule(R::GT as u16),
    // TArg
    Choice(2), Rule(R::Wild as u16), Rule(R::Type as u16),
    // Wild
    Seq(3), Star, Rule(R::Ann as u16), Token(T::Question as u16), Maybe, Seq(2), Choice(2), Token(T::Extends as u16),
    Token(T::Super as u16), Rule(R::Type as u16),
    // Block
    Seq(3), Token(T::LeftBrace as u16), Star, Rule(R::BStmt as u16), Token(T::RightBrace as u16),
    // BStmt
    Choice(4), Rule(R::LClass as u16), Rule(R::Yield as u16), Seq(2), Rule(R::LVar as u16), Token(T::Semicolon as u16),
    Rule(R::Stmt as u16),
    // LClass
    Choice(4), Rule(R::ClassD as u16), Rule(R::InterfaceD as u16), Rule(R::EnumD as u16), Rule(R::RecordD as u16),
    // LVar
    Seq(3), Rule(R::LMods as u16), Rule(R::VType as u16), Seq(2), Rule(R::Declr as u16), Star, Seq(2),
    Token(T::Comma as u16), Rule(R::Declr as u16),
    // VType
    Choice(2), Seq(2), Token(WORDS + W::Var as u16), And, Choice(7), Token(T::Identifier as u16),
    Token(WORDS + W::Non as u16), Token(WORDS + W::Sealed as u16), Token(WORDS + W::Record as u16),
    Token(WORDS + W::Permits as u16), Token(WORDS + W::Var as u16), Token(WORDS + W::Yield as u16),
    Rule(R::Type as u16),
    // Stmt
    Choice(18), Rule(R::Block as u16), Rule(R::Label as u16), Rule(R::If as u16), Rule(R::While as u16),
    Rule(R::Each as u16), Rule(R::For as u16), Rule(R::Do as u16), Rule(R::Try as u16), Rule(R::Switch as u16),
    Rule(R::Sync as u16), Rule(R::Return as u16), Rule(R::Throw as u16), Rule(R::Break as u16),
    Rule(R::Continue as u16), Rule(R::Assert as u16), Rule(R::EmptyS as u16), Rule(R::Yield as u16),
    Rule(R::ExprS as u16),
    // Label
    Seq(3), Choice(7), Token(T::Identifier as u16), Token(WORDS + W::Non as u16), Token(WORDS + W::Sealed as u16),
    Token(WORDS + W::Record as u16), Token(WORDS + W::Permits as u16), Token(WORDS + W::Var as u16),
    Token(WORDS + W::Yield as u16), Token(T::Colon as u16), Rule(R::Stmt as u16),
    // If
    Seq(6), Token(T::If as u16), Token(T::LeftParenthesis as u16), Rule(R::Expr as u16),
    Token(T::RightParenthesis as u16), Rule(R::Stmt as u16), Maybe, Seq(2), Token(T::Else as u16), Rule(R::Stmt as u16),
    // While
    Seq(5), Token(T::While as u16), Token(T::LeftParenthesis as u16), Rule(R::Expr as u16),
    Token(T::RightParenthesis as u16), Rule(R::Stmt as u16),
    // Do
    Seq(7), Token(T::Do as u16), Rule(R::Stmt as u16), Token(T::While as u16), Token(T::LeftParenthesis as u16),
    Rule(R::Expr as u16), Token(T::RightParenthesis as u16), Token(T::Semicolon as u16),
    // Each
    Seq(7), Token(T::For as u16), Token(T::LeftParenthesis as u16), Rule(R::EVar as u16), Token(T::Colon as u16),
    Rule(R::Expr as u16), Token(T::RightParenthesis as u16), Rule(R::Stmt as u16),
    // EVar
    Seq(3), Rule(R::LMods as u16), Rule(R::VType as u16), Rule(R::EDecl as u16),
    // EDecl
    Rule(R::VarId as u16),
    // For
    Seq(9), Token(T::For as u16), Token(T::LeftParenthesis as u16), Maybe, Rule(R::FInit as u16),
    Token(T::Semicolon as u16), Maybe, Rule(R::Expr as u16), Token(T::Semicolon as u16), Maybe, Rule(R::FUpd as u16),
    Token(T::RightParenthesis as u16), Rule(R::Stmt as u16),
    // FInit
    Choice(2), Rule(R::LVar as u16), Rule(R::ExprL as u16),
    // FUpd
    Rule(R::ExprL as u16),
    // ExprL
    Seq(2), Rule(R::Expr as u16), Star, Seq(2), Token(T::Comma as u16), Rule(R::Expr as u16),
    // Try
    Choice(2), Seq(5), Token(T::Try as u16), Rule(R::Ress as u16), Rule(R::Block as u16), Star, Rule(R::Catch as u16),
    Maybe, Rule(R::Finally as u16), Seq(3), Token(T::Try as u16), Rule(R::Block as u16), Choice(2), Seq(2), Seq(2),
    Rule(R::Catch as u16), Star, Rule(R::Catch as u16), Maybe, Rule(R::Finally as u16), Rule(R::Finally as u16),
    // Ress
    Seq(5), Token(T::LeftParenthesis as u16), Rule(R::Res as u16), Star, Seq(2), Token(T::Semicolon as u16),
    Rule(R::Res as u16), Maybe, Token(T::Semicolon as u16), Token(T::RightParenthesis as u16),
    // Res
    Choice(2), Rule(R::RVar as u16), Rule(R::Expr as u16),
    // RVar
    Seq(3), Rule(R::LMods as u16), Rule(R::VType as u16), Rule(R::RDecl as u16),
    // RDecl
    Seq(3), Rule(R::VarP as u16), Token(T::Assign as u16), Rule(R::Expr as u16),
    // Catch
    Seq(5), Token(T::Catch as u16), Token(T::LeftParenthesis as u16), Rule(R::CPar as u16),
    Token(T::RightParenthesis as u16), Rule(R::Block as u16),
    // CPar
    Seq(3), Rule(R::LMods as u16), Rule(R::CTypes as u16), Rule(R::VarId as u16),
    // CTypes
    Seq(2), Rule(R::CType as u16), Star, Seq(2), Token(T::Bar as u16), Rule(R::CType as u16),
    // Finally
    Seq(2), Token(T::Finally as u16), Rule(R::Block as u16),
    // Switch
    Rule(R::SwB as u16),
    // SwE
    Rule(R::SwB as u16),
    // SwB
    Seq(7), Token(T::Switch as u16), Token(T::LeftParenthesis as u16), Rule(R::Expr as u16),
    Token(T::RightParenthesis as u16), Token(T::LeftBrace as u16), Choice(2), Seq(2), Rule(R::Arrow as u16), Star,
    Rule(R::Arrow as u16), Star, Rule(R::Group as u16), Token(T::RightBrace as u16),
    // Arrow
    Seq(3), Rule(R::SLabel as u16), Token(T::Arrow as u16), Choice(3), Rule(R::Block as u16), Rule(R::Throw as u16),
    Seq(2), Rule(R::Expr as u16), Token(T::Semicolon as u16),
    // Group
    Seq(3), Rule(R::SLabel as u16), Token(T::Colon as u16), Star, Rule(R::BStmt as u16),
    // SLabel
    Choice(2), Seq(2), Token(T::Case as u16), Seq(2), Rule(R::OrOr as u16), Star, Seq(2), Token(T::Comma as u16),
    Rule(R::OrOr as u16), Token(T::Default as u16),
    // Sync
    Seq(5), Token(T::Synchronized as u16), Token(T::LeftParenthesis as u16), Rule(R::Expr as u16),
    Token(T::RightParenthesis as u16), Rule(R::Block as u16),
    // Return
    Seq(3), Token(T::Return as u16), Maybe, Rule(R::Expr as u16), Token(T::Semicolon as u16),
    // Throw
    Seq(3), Token(T::Throw as u16), Rule(R::Expr as u16), Token(T::Semicolon as u16),
    // Break
    Seq(3), Token(T::Break as u16), Maybe, Choice(7), Token(T::Identifier as u16), Token(WORDS + W::Non as u16),
    Token(WORDS + W::Sealed as u16), Token(WORDS + W::Record as u16), Token(WORDS + W::Permits as u16),
    Token(WORDS + W::Var as u16), Token(WORDS + W::Yield as u16), Token(T::Semicolon as u16),
    // Continue
    Seq(3), Token(T::Continue as u16), Maybe, Choice(7), Token(T::Identifier as u16), Token(WORDS + W::Non as u16),
    Token(WORDS + W::Sealed as u16), Token(WORDS + W::Record as u16), Token(WORDS + W::Permits as u16),
    Token(WORDS + W::Var as u16), Token(WORDS + W::Yield as u16), Token(T::Semicolon as u16),
    // Assert
    Seq(4), Token(T::Assert as u16), Rule(R::Expr as u16), Maybe, Seq(2), Token(T::Colon as u16), Rule(R::Expr as u16),
    Token(T::Semicolon as u16),
    // Yield
    Seq(3), Token(WORDS + W::Yield as u16), Rule(R::Expr as u16), Token(T::Semicolon as u16),
    // EmptyS
    Token(T::Semicolon as u16),
    // ExprS
    Seq(2), Rule(R::Expr as u16), Token(T::Semicolon as u16),
    // Expr
    Choice(3), Rule(R::Lambda as u16), Rule(R::Assign as u16), Rule(R::Cond as u16),
    // Lambda
    Seq(3), Rule(R::LPars as u16), Token(T::Arrow as u16), Choice(2), Rule(R::Block as u16), Rule(R::Expr as u16),
    // LPars
    Choice(2), Rule(R::LId as u16), Seq(3), Token(T::LeftParenthesis as u16), Maybe, Choice(2), Seq(2),
    Rule(R::LTyped as u16), Star, Seq(2), Token(T::Comma as u16), Rule(R::LTyped as u16), Seq(2), Rule(R::LId as u16),
    Star, Seq(2), Token(T::Comma as u16), Rule(R::LId as u16), Token(T::RightParenthesis as u16),
    // LTyped
    Seq(3), Rule(R::LMods as u16), Choice(2), Seq(2), Token(WORDS + W::Var as u16), And, Choice(7),
    Token(T::Identifier as u16), Token(WORDS + W::Non as u16), Token(WORDS + W::Sealed as u16),
    Token(WORDS + W::Record as u16), Token(WORDS + W::Permits as u16), Token(WORDS + W::Var as u16),
    Token(WORDS + W::Yield as u16), Rule(R::PType as u16), Rule(R::VarId as u16),
    // LId
    Seq(2), Rule(R::NoMods as u16), Rule(R::VarP as u16),
    // Assign
    Seq(3), Rule(R::Primary as u16), Rule(R::AOp as u16), Rule(R::Expr as u16),
    // AOp
    Choice(12), Token(T::Assign as u16), Token(T::PlusAssign as u16), Token(T::MinusAssign as u16),
    Token(T::StarAssign as u16), Token(T::SlashAssign as u16), Token(T::PercentAssign as u16),
    Token(T::AmpersandAssign as u16), Token(T::BarAssign as u16), Token(T::CaretAssign as u16),
    Token(T::LessLessAssign as u16), Seq(4), Token(T::GreaterJoined as u16), Token(T::GreaterJoined as u16),
    Token(T::GreaterJoined as u16), Token(T::Assign as u16), Seq(3), Token(T::GreaterJoined as u16),
    Token(T::GreaterJoined as u16), Token(T::Assign as u16),
    // Cond
    Choice(2), Rule(R::Tern as u16), Rule(R::OrOr as u16),
    // Tern
    Seq(5), Rule(R::OrOr as u16), Token(T::Question as u16), Rule(R::Expr as u16), Token(T::Colon as u16), Choice(2),
    Rule(R::Lambda as u16), Rule(R::Cond as u16),
    // OrOr
    Seq(2), Rule(R::AndAnd as u16), Star, Choice(1), Rule(R::OrOrTurn as u16),
    // OrOrTurn
    Seq(2), Token(T::OrOr as u16), Rule(R::AndAnd as u16),
    // AndAnd
    Seq(2), Rule(R::BOr as u16), Star, Choice(1), Rule(R::AndAndTurn as u16),
    // AndAndTurn
    Seq(2), Token(T::AndAnd as u16), Rule(R::BOr as u16),
    // BOr
    Seq(2), Rule(R::BXor as u16), Star, Choice(1), Rule(R::BOrTurn as u16),
    // BOrTurn
    Seq(2), Token(T::Bar as u16), Rule(R::BXor as u16),
    // BXor
    Seq(2), Rule(R::BAnd as u16), Star, Choice(1), Rule(R::BXorTurn as u16),
    // BXorTurn
    Seq(2), Token(T::Caret as u16), Rule(R::BAnd as u16),
    // BAnd
    Seq(2), Rule(R::Eq as u16), Star, Choice(1), Rule(R::BAndTurn as u16),
    // BAndTurn
    Seq(2), Token(T::Ampersand as u16), Rule(R::Eq as u16),
    // Eq
    Seq(2), Rule(R::Rel as u16), Star, Choice(1), Rule(R::EqTurn as u16),
    // EqTurn
    Seq(2), Choice(2), Token(T::EqualEqual as u16), Token(T::BangEqual as u16), Rule(R::Rel as u16),
    // Rel
    Seq(2), Rule(R::Shift as u16), Star, Choice(1), Rule(R::RelTurn as u16),
    // RelTurn
    Choice(2), Seq(2), Choice(4), Token(T::LessEqual as u16), Token(T::Less as u16), Seq(2),
    Token(T::GreaterJoined as u16), Token(T::Assign as u16), Token(T::Greater as u16), Rule(R::Shift as u16), Seq(2),
    Token(T::Instanceof as u16), Choice(2), Rule(R::PatE as u16), Rule(R::TypeE as u16),
    // PatE
    Rule(R::TPat as u16),
    // TPat
    Seq(3), Rule(R::LMods as u16), Rule(R::Type as u16), Rule(R::VarP as u16),
    // TypeE
    Rule(R::Type as u16),
    // Shift
    Seq(2), Rule(R::Add as u16), Star, Choice(1), Rule(R::ShiftTurn as u16),
    // ShiftTurn
    Seq(2), Choice(3), Token(T::LessLess as u16), Seq(3), Token(T::GreaterJoined as u16),
    Token(T::GreaterJoined as u16), Token(T::Greater as u16), Seq(2), Token(T::GreaterJoined as u16),
    Token(T::Greater as u16), Rule(R::Add as u16),
    // Add
    Seq(2), Rule(R::Mul as u16), Star, Choice(1), Rule(R::AddTurn as u16),
    // AddTurn
    Seq(2), Choice(2), Token(T::Plus as u16), Token(T::Minus as u16), Rule(R::Mul as u16),
    // Mul
    Seq(2), Rule(R::Unary as u16), Star, Choice(1), Rule(R::MulTurn as u16),
    // MulTurn
    Seq(2), Choice(3), Token(T::Star as u16), Token(T::Slash as u16), Token(T::Percent as u16), Rule(R::Unary as u16),
    // Unary
    Choice(4), Rule(R::Pre as u16), Rule(R::CastP as u16), Rule(R::CastR as u16), Rule(R::Post as u16),
    // Pre
    Seq(2), Choice(6), Token(T::PlusPlus as u16), Token(T::MinusMinus as u16), Token(T::Plus as u16),
    Token(T::Minus as u16), Token(T::Bang as u16), Token(T::Tilde as u16), Rule(R::Unary as u16),
    // CastP
    Seq(4), Token(T::LeftParenthesis as u16), Rule(R::PrimT as u16), Token(T::RightParenthesis as u16),
    Rule(R::Unary as u16),
    // CastR
    Seq(4), Token(T::LeftParenthesis as u16), Rule(R::CastT as u16), Token(T::RightParenthesis as u16), Choice(2),
    Rule(R::Lambda as u16), Seq(2), Not, Choice(4), Token(T::Plus as u16), Token(T::Minus as u16),
    Token(T::PlusPlus as u16), Token(T::MinusMinus as u16), Rule(R::Unary as u16),
    // CastT
    Seq(2), Rule(R::Type as u16), Star, Seq(2), Token(T::Ampersand as u16), Rule(R::CType as u16),
    // Post
    Seq(2), Rule(R::Primary as u16), Star, Choice(1), Rule(R::PostTurn as u16),
    // PostTurn
    Choice(2), Token(T::PlusPlus as u16), Token(T::MinusMinus as u16),
    // Primary
    Seq(2), Rule(R::Head as u16), Star, Choice(5), Rule(R::PrimaryMethodCall as u16),
    Rule(R::PrimaryFieldAccess as u16), Rule(R::PrimaryConstructorCall as u16), Rule(R::PrimaryArrayAccess as u16),
    Rule(R::PrimaryMethodReference as u16),
    // PrimaryMethodCall
    Seq(4), Token(T::Dot as u16), Maybe, Rule(R::TArgs as u16), Choice(7), Token(T::Identifier as u16),
    Token(WORDS + W::Non as u16), Token(WORDS + W::Sealed as u16), Token(WORDS + W::Record as u16),
    Token(WORDS + W::Permits as u16), Token(WORDS + W::Var as u16), Token(WORDS + W::Yield as u16),
    Rule(R::Args as u16),
    // PrimaryFieldAccess
    Seq(2), Token(T::Dot as u16), Choice(7), Token(T::Identifier as u16), Token(WORDS + W::Non as u16),
    Token(WORDS + W::Sealed as u16), Token(WORDS + W::Record as u16), Token(WORDS + W::Permits as u16),
    Token(WORDS + W::Var as u16), Token(WORDS + W::Yield as u16),
    // PrimaryConstructorCall
    Seq(6), Token(T::Dot as u16), Token(T::New as u16), Maybe, Rule(R::TArgs as u16), Rule(R::CType as u16),
    Rule(R::Args as u16), Maybe, Rule(R::Anon as u16),
    // PrimaryArrayAccess
    Seq(3), Token(T::LeftBracket as u16), Rule(R::Expr as u16), Token(T::RightBracket as u16),
    // PrimaryMethodReference
    Seq(3), Token(T::ColonColon as u16), Maybe, Rule(R::TArgs as u16), Choice(2), Choice(7),
    Token(T::Identifier as u16), Token(WORDS + W::Non as u16), Token(WORDS + W::Sealed as u16),
    Token(WORDS + W::Record as u16), Token(WORDS + W::Permits as u16), Token(WORDS + W::Var as u16),
    Token(WORDS + W::Yield as u16), Token(T::New as u16),
    // Head
    Choice(15), Rule(R::Num as u16), Rule(R::Str as u16), Rule(R::Chr as u16), Rule(R::Bool as u16),
    Rule(R::Null as u16), Seq(3), Token(T::LeftParenthesis as u16), Rule(R::Expr as u16),
    Token(T::RightParenthesis as u16), Rule(R::SwE as u16), Rule(R::ClassL as u16), Rule(R::This as u16),
    Rule(R::Super as u16), Rule(R::NewA as u16), Rule(R::New as u16), Rule(R::MRef as u16), Rule(R::Call as u16),
    Rule(R::Var as u16),
    // Num
    Choice(2), Token(T::IntLiteral as u16), Token(T::FloatLiteral as u16),
    // Str
    Choice(2), Token(T::StringLiteral as u16), Token(T::TextBlock as u16),
    // Chr
    Token(T::CharLiteral as u16),
    // Bool
    Choice(2), Token(T::True as u16), Token(T::False as u16),
    // Null
    Token(T::Null as u16),
    // ClassL
    Seq(3), Choice(2), Rule(R::Type as u16), Rule(R::VoidT as u16), Token(T::Dot as u16), Token(T::Class as u16),
    // This
    Seq(2), Maybe, Seq(2), Rule(R::CType as u16), Token(T::Dot as u16), Token(T::This as u16),
    // Super
    Seq(3), Maybe, Seq(2), Rule(R::CType as u16), Token(T::Dot as u16), Token(T::Super as u16), And, Choice(2),
    Token(T::Dot as u16), Token(T::ColonColon as u16),
    // NewA
    Seq(2), Token(T::New as u16), Choice(2), Seq(2), Rule(R::ArrT as u16), Rule(R::ArrInit as u16),
    Rule(R::NArr as u16),
    // NArr
    Seq(2), Rule(R::Base as u16), Rule(R::NDims as u16),
    // NDims
    Seq(2), Seq(2), Rule(R::DimE as u16), Star, Rule(R::DimE as u16), Star, Rule(R::Dim as u16),
    // DimE
    Seq(4), Star, Rule(R::Ann as u16), Token(T::LeftBracket as u16), Rule(R::Expr as u16),
    Token(T::RightBracket as u16),
    // New
    Seq(5), Token(T::New as u16), Maybe, Rule(R::TArgs as u16), Rule(R::CType as u16), Rule(R::Args as u16), Maybe,
    Rule(R::Anon as u16),
    // MRef
    Seq(5), Not, Seq(2), Rule(R::Name as u16), Token(T::ColonColon as u16), Rule(R::TypeE as u16),
    Token(T::ColonColon as u16), Maybe, Rule(R::TArgs as u16), Choice(2), Choice(7), Token(T::Identifier as u16),
    Token(WORDS + W::Non as u16), Token(WORDS + W::Sealed as u16), Token(WORDS + W::Record as u16),
    Token(WORDS + W::Permits as u16), Token(WORDS + W::Var as u16), Token(WORDS + W::Yield as u16),
    Token(T::New as u16),
    // Call
    Seq(2), Choice(7), Token(T::Identifier as u16), Token(WORDS + W::Non as u16), Token(WORDS + W::Sealed as u16),
    Token(WORDS + W::Record as u16), Token(WORDS + W::Permits as u16), Token(WORDS + W::Var as u16),
    Token(WORDS + W::Yield as u16), Rule(R::Args as u16),
    // Var
    Choice(7), Token(T::Identifier as u16), Token(WORDS + W::Non as u16), Token(WORDS + W::Sealed as u16),
    Token(WORDS + W::Record as u16), Token(WORDS + W::Permits as u16), Token(WORDS + W::Var as u16),
    Token(WORDS + W::Yield as u16),
    // Args
    Seq(3), Token(T::LeftParenthesis as u16), Maybe, Seq(2), Rule(R::Expr as u16), Star, Seq(2), Token(T::Comma as u16),
    Rule(R::Expr as u16), Token(T::RightParenthesis as u16),
];

/// What each rule makes, by its number.
#[rattlefmt::skip]
pub(crate) static SHAPES: [Shape; 179] = [
    Node(K::CompilationUnit), // Unit
    Node(K::PackageDeclaration), // Package
    Pass, // Name
    Node(K::ImportDeclaration), // Import
    Node(K::EmptyDeclaration), // EmptyD
    Node(K::ModifierList), // AMods
    Node(K::ModifierList), // LMods
    Node(K::ModifierList), // NoMods
    Node(K::ModifierList), // Mods
    Pass, // Mod
    Node(K::Annotation), // Ann
    Pass, // AName
    Segment(K::ClassType), // ASeg
    Node(K::AnnotationMemberList), // AnnArgs
    Node(K::MemberValuePair), // Pair
    Node(K::MemberValuePair), // Short
    Pass, // MVal
    Node(K::MemberValueArrayInitializer), // MArr
    Pass, // TypeD
    Node(K::ClassDeclaration), // ClassD
    Node(K::ClassDeclaration), // InterfaceD
    Node(K::EnumDeclaration), // EnumD
    Node(K::RecordDeclaration), // RecordD
    Node(K::AnnotationTypeDeclaration), // AnnD
    Node(K::ExtendsList), // Ext1
    Node(K::ExtendsList), // ExtN
    Node(K::ImplementsList), // Impl
    Node(K::PermitsList), // Permits
    Node(K::ThrowsList), // Throws
    Node(K::TypeParameters), // TParams
    Node(K::TypeParameter), // TParam
    Joined(K::IntersectionType), // Bound
    Pass, // GT
    Node(K::ClassBody), // ClassB
    Node(K::AnnotationTypeBody), // AnnB
    Node(K::RecordBody), // RecordB
    Node(K::EnumBody), // EnumB
    Node(K::EnumConstant), // EConst
    Node(K::AnonymousClassDeclaration), // Anon
    Node(K::RecordComponentList), // Comps
    Node(K::RecordComponent), // Comp
    Node(K::CompactConstructorDeclaration), // Compact
    Pass, // Member
    Node(K::Initializer), // Init
    Node(K::ConstructorDeclaration), // Ctor
    Node(K::Block), // CBlock
    Node(K::ExplicitConstructorInvocation), // Explicit
    Node(K::MethodDeclaration), // Method
    Node(K::DefaultValue), // Default
    Node(K::FieldDeclaration), // Field
    Node(K::VariableDeclarator), // Declr
    Pass, // Init1
    Node(K::ArrayInitializer), // ArrInit
    Node(K::VariableId), // VarId
    Node(K::VariableId), // VarP
    Node(K::ArrayDimensions), // Dims
    Node(K::ArrayTypeDim), // Dim
    Node(K::FormalParameters), // Params
    Node(K::ReceiverParameter), // Recv
    Node(K::FormalParameter), // Param
    Pass, // PType
    Node(K::ArrayType), // VArr
    Node(K::ArrayDimensions), // VDims
    Node(K::ArrayTypeDim), // VDim
    Pass, // Type
    Node(K::ArrayType), // ArrT
    Pass, // Base
    Node(K::PrimitiveType), // PrimT
    Pass, // Prim
    Node(K::VoidType), // VoidT
    Pass, // CType
    Segment(K::ClassType), // Seg
    Node(K::TypeArguments), // TArgs
    Pass, // TArg
    Node(K::WildcardType), // Wild
    Node(K::Block), // Block
    Pass, // BStmt
    Node(K::LocalClassStatement), // LClass
    Node(K::LocalVariableDeclaration), // LVar
    Pass, // VType
    Pass, // Stmt
    Node(K::LabeledStatement), // Label
    Node(K::IfStatement), // If
    Node(K::WhileStatement), // While
    Node(K::DoStatement), // Do
    Node(K::ForeachStatement), // Each
    Node(K::LocalVariableDeclaration), // EVar
    Node(K::VariableDeclarator), // EDecl
    Node(K::ForStatement), // For
    Node(K::ForInit), // FInit
    Node(K::ForUpdate), // FUpd
    Node(K::StatementExpressionList), // ExprL
    Node(K::TryStatement), // Try
    Node(K::ResourceList), // Ress
    Node(K::Resource), // Res
    Node(K::LocalVariableDeclaration), // RVar
    Node(K::VariableDeclarator), // RDecl
    Node(K::CatchClause), // Catch
    Node(K::CatchParameter), // CPar
    Joined(K::UnionType), // CTypes
    Node(K::FinallyClause), // Finally
    Node(K::SwitchStatement), // Switch
    Node(K::SwitchExpression), // SwE
    Pass, // SwB
    Node(K::SwitchArrowBranch), // Arrow
    Node(K::SwitchFallthroughBranch), // Group
    Node(K::SwitchLabel), // SLabel
    Node(K::SynchronizedStatement), // Sync
    Node(K::ReturnStatement), // Return
    Node(K::ThrowStatement), // Throw
    Node(K::BreakStatement), // Break
    Node(K::ContinueStatement), // Continue
    Node(K::AssertStatement), // Assert
    Node(K::YieldStatement), // Yield
    Node(K::EmptyStatement), // EmptyS
    Node(K::ExpressionStatement), // ExprS
    Pass, // Expr
    Node(K::LambdaExpression), // Lambda
    Node(K::LambdaParameterList), // LPars
    Node(K::LambdaParameter), // LTyped
    Node(K::LambdaParameter), // LId
    Node(K::AssignmentExpression), // Assign
    Pass, // AOp
    Pass, // Cond
    Node(K::ConditionalExpression), // Tern
    Pass, // OrOr
    Turn(K::InfixExpression), // OrOrTurn
    Pass, // AndAnd
    Turn(K::InfixExpression), // AndAndTurn
    Pass, // BOr
    Turn(K::InfixExpression), // BOrTurn
    Pass, // BXor
    Turn(K::InfixExpression), // BXorTurn
    Pass, // BAnd
    Turn(K::InfixExpression), // BAndTurn
    Pass, // Eq
    Turn(K::InfixExpression), // EqTurn
    Pass, // Rel
    Turn(K::InfixExpression), // RelTurn
    Node(K::PatternExpression), // PatE
    Node(K::TypePattern), // TPat
    Node(K::TypeExpression), // TypeE
    Pass, // Shift
    Turn(K::InfixExpression), // ShiftTurn
    Pass, // Add
    Turn(K::InfixExpression), // AddTurn
    Pass, // Mul
    Turn(K::InfixExpression), // MulTurn
    Pass, // Unary
    Node(K::UnaryExpression), // Pre
    Node(K::CastExpression), // CastP
    Node(K::CastExpression), // CastR
    Joined(K::IntersectionType), // CastT
    Pass, // Post
    Turn(K::UnaryExpression), // PostTurn
    Pass, // Primary
    Turn(K::MethodCall), // PrimaryMethodCall
    Turn(K::FieldAccess), // PrimaryFieldAccess
    Turn(K::ConstructorCall), // PrimaryConstructorCall
    Turn(K::ArrayAccess), // PrimaryArrayAccess
    Turn(K::MethodReference), // PrimaryMethodReference
    Pass, // Head
    Node(K::NumericLiteral), // Num
    Node(K::StringLiteral), // Str
    Node(K::CharLiteral), // Chr
    Node(K::BooleanLiteral), // Bool
    Node(K::NullLiteral), // Null
    Node(K::ClassLiteral), // ClassL
    Node(K::ThisExpression), // This
    Node(K::SuperExpression), // Super
    Node(K::ArrayAllocation), // NewA
    Node(K::ArrayType), // NArr
    Node(K::ArrayDimensions), // NDims
    Node(K::ArrayDimExpr), // DimE
    Node(K::ConstructorCall), // New
    Node(K::MethodReference), // MRef
    Node(K::MethodCall), // Call
    Node(K::VariableAccess), // Var
    Node(K::ArgumentList), // Args
];
