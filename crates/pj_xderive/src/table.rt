//! The grammar as a table with its select sets, which is proved to be that of `XPath` of `pj_xgrammar`.

use pj_ll::Piece;
use pj_ll::Piece::{AtEnd, Close, LeftOut, On, Production, Rule, Terminal};
use pj_xgrammar::{
    DECIMAL, DOUBLE, INTEGER, KEYWORDS, Keyword as K, LONE_SLASH, NAME, PHRASES, Phrase as P,
    Rule as R, SIGNS, STRING,
};
use pj_xtokens::Sign as S;

/// The numbers of the terminals.
const LEFT_PARENTHESIS: u16 = SIGNS + S::LeftParenthesis as u16;

const RIGHT_PARENTHESIS: u16 = SIGNS + S::RightParenthesis as u16;

const LEFT_BRACKET: u16 = SIGNS + S::LeftBracket as u16;

const RIGHT_BRACKET: u16 = SIGNS + S::RightBracket as u16;

const COMMA: u16 = SIGNS + S::Comma as u16;

const DOT: u16 = SIGNS + S::Dot as u16;

const DOT_DOT: u16 = SIGNS + S::DotDot as u16;

const SLASH: u16 = SIGNS + S::Slash as u16;

const SLASH_SLASH: u16 = SIGNS + S::SlashSlash as u16;

const COLON_COLON: u16 = SIGNS + S::ColonColon as u16;

const COLON_EQUAL: u16 = SIGNS + S::ColonEqual as u16;

const BANG: u16 = SIGNS + S::Bang as u16;

const BANG_EQUAL: u16 = SIGNS + S::BangEqual as u16;

const DOLLAR: u16 = SIGNS + S::Dollar as u16;

const STAR: u16 = SIGNS + S::Star as u16;

const PLUS: u16 = SIGNS + S::Plus as u16;

const MINUS: u16 = SIGNS + S::Minus as u16;

const LESS: u16 = SIGNS + S::Less as u16;

const LESS_LESS: u16 = SIGNS + S::LessLess as u16;

const LESS_EQUAL: u16 = SIGNS + S::LessEqual as u16;

const EQUAL: u16 = SIGNS + S::Equal as u16;

const ARROW: u16 = SIGNS + S::Arrow as u16;

const GREATER: u16 = SIGNS + S::Greater as u16;

const GREATER_GREATER: u16 = SIGNS + S::GreaterGreater as u16;

const GREATER_EQUAL: u16 = SIGNS + S::GreaterEqual as u16;

const QUESTION: u16 = SIGNS + S::Question as u16;

const AT: u16 = SIGNS + S::At as u16;

const BAR: u16 = SIGNS + S::Bar as u16;

const BAR_BAR: u16 = SIGNS + S::BarBar as u16;

const AND: u16 = KEYWORDS + K::And as u16;

const DIV: u16 = KEYWORDS + K::Div as u16;

const ELSE: u16 = KEYWORDS + K::Else as u16;

const EQ: u16 = KEYWORDS + K::Eq as u16;

const EXCEPT: u16 = KEYWORDS + K::Except as u16;

const GE: u16 = KEYWORDS + K::Ge as u16;

const GT: u16 = KEYWORDS + K::Gt as u16;

const IDIV: u16 = KEYWORDS + K::Idiv as u16;

const IN: u16 = KEYWORDS + K::In as u16;

const INTERSECT: u16 = KEYWORDS + K::Intersect as u16;

const IS: u16 = KEYWORDS + K::Is as u16;

const LE: u16 = KEYWORDS + K::Le as u16;

const LT: u16 = KEYWORDS + K::Lt as u16;

const MOD: u16 = KEYWORDS + K::Mod as u16;

const NE: u16 = KEYWORDS + K::Ne as u16;

const OR: u16 = KEYWORDS + K::Or as u16;

const RETURN: u16 = KEYWORDS + K::Return as u16;

const SATISFIES: u16 = KEYWORDS + K::Satisfies as u16;

const THEN: u16 = KEYWORDS + K::Then as u16;

const TO: u16 = KEYWORDS + K::To as u16;

const UNION: u16 = KEYWORDS + K::Union as u16;

const AXIS: u16 = KEYWORDS + K::Axis as u16;

const ELEMENT: u16 = KEYWORDS + K::Element as u16;

const NODE: u16 = KEYWORDS + K::Node as u16;

const ARRAY: u16 = PHRASES + P::Array as u16;

const CASTABLE_AS: u16 = PHRASES + P::CastableAs as u16;

const CAST_AS: u16 = PHRASES + P::CastAs as u16;

const EVERY: u16 = PHRASES + P::Every as u16;

const FOR: u16 = PHRASES + P::For as u16;

const FUNCTION: u16 = PHRASES + P::Function as u16;

const IF: u16 = PHRASES + P::If as u16;

const INSTANCE_OF: u16 = PHRASES + P::InstanceOf as u16;

const LET: u16 = PHRASES + P::Let as u16;

const MAP: u16 = PHRASES + P::Map as u16;

const SOME: u16 = PHRASES + P::Some as u16;

const TREAT_AS: u16 = PHRASES + P::TreatAs as u16;

/// The productions by their numbers, those of each rule together: the rule, the symbols, and behind them the terminals at which
/// the production is chosen, and whether it is chosen at the end.
#[rattlefmt::skip]
pub(crate) static PIECES: [Piece; 1856] = [
    // Expr
    Production(R::Expr as u16), Rule(R::ExprSingle as u16), Rule(R::ExprTail as u16),
        On(NAME), On(INTEGER), On(DECIMAL), On(DOUBLE), On(STRING), On(LONE_SLASH), On(LEFT_PARENTHESIS),
        On(LEFT_BRACKET), On(DOT), On(DOT_DOT), On(SLASH), On(SLASH_SLASH), On(DOLLAR), On(STAR), On(PLUS), On(MINUS),
        On(QUESTION), On(AT), On(AND), On(DIV), On(ELSE), On(EQ), On(EXCEPT), On(GE), On(GT), On(IDIV), On(IN),
        On(INTERSECT), On(IS), On(LE), On(LT), On(MOD), On(NE), On(OR), On(RETURN), On(SATISFIES), On(THEN), On(TO),
        On(UNION), On(AXIS), On(ELEMENT), On(NODE), On(ARRAY), On(EVERY), On(FOR), On(FUNCTION), On(IF), On(LET),
        On(MAP), On(SOME),
    // ExprTail
    Production(R::ExprTail as u16), Terminal(COMMA), Rule(R::ExprSingle as u16), Rule(R::ExprTail as u16), On(COMMA),
    Production(R::ExprTail as u16), On(RIGHT_PARENTHESIS), On(RIGHT_BRACKET), AtEnd,
    // ExprSingle
    Production(R::ExprSingle as u16), Terminal(FOR), Rule(R::InBindings as u16), Rule(R::ReturnClause as u16), On(FOR),
    Production(R::ExprSingle as u16), Terminal(LET), Rule(R::LetBindings as u16), Rule(R::ReturnClause as u16), On(LET),
    Production(R::ExprSingle as u16), Terminal(SOME), Rule(R::InBindings as u16), Rule(R::SatisfiesClause as u16),
        On(SOME),
    Production(R::ExprSingle as u16), Terminal(EVERY), Rule(R::InBindings as u16), Rule(R::SatisfiesClause as u16),
        On(EVERY),
    Production(R::ExprSingle as u16), Terminal(IF), Rule(R::TestClause as u16), Rule(R::ThenClause as u16),
    Rule(R::ElseClause as u16),
        On(IF),
    Production(R::ExprSingle as u16), Rule(R::OrExpr as u16),
        On(NAME), On(INTEGER), On(DECIMAL), On(DOUBLE), On(STRING), On(LONE_SLASH), On(LEFT_PARENTHESIS),
        On(LEFT_BRACKET), On(DOT), On(DOT_DOT), On(SLASH), On(SLASH_SLASH), On(DOLLAR), On(STAR), On(PLUS), On(MINUS),
        On(QUESTION), On(AT), On(AND), On(DIV), On(ELSE), On(EQ), On(EXCEPT), On(GE), On(GT), On(IDIV), On(IN),
        On(INTERSECT), On(IS), On(LE), On(LT), On(MOD), On(NE), On(OR), On(RETURN), On(SATISFIES), On(THEN), On(TO),
        On(UNION), On(AXIS), On(ELEMENT), On(NODE), On(ARRAY), On(FUNCTION), On(MAP),
    // InBindings
    Production(R::InBindings as u16), Terminal(DOLLAR), Rule(R::VarName as u16), Rule(R::InClause as u16),
    Rule(R::InBindingsTail as u16),
        On(DOLLAR),
    // InBindingsTail
    Production(R::InBindingsTail as u16), Terminal(COMMA), Rule(R::InBindings as u16), On(COMMA),
    Production(R::InBindingsTail as u16), On(RETURN), On(SATISFIES),
    // LetBindings
    Production(R::LetBindings as u16), Terminal(DOLLAR), Rule(R::VarName as u16), Rule(R::AssignClause as u16),
    Rule(R::LetBindingsTail as u16),
        On(DOLLAR),
    // LetBindingsTail
    Production(R::LetBindingsTail as u16), Terminal(COMMA), Rule(R::LetBindings as u16), On(COMMA),
    Production(R::LetBindingsTail as u16), On(RETURN),
    // InClause
    Production(R::InClause as u16), Terminal(IN), Rule(R::ExprSingle as u16), Close, On(IN),
    // AssignClause
    Production(R::AssignClause as u16), Terminal(COLON_EQUAL), Rule(R::ExprSingle as u16), Close, On(COLON_EQUAL),
    // ReturnClause
    Production(R::ReturnClause as u16), Terminal(RETURN), Rule(R::ExprSingle as u16), Close, On(RETURN),
    // SatisfiesClause
    Production(R::SatisfiesClause as u16), Terminal(SATISFIES), Rule(R::ExprSingle as u16), Close, On(SATISFIES),
    // TestClause
    Production(R::TestClause as u16), Terminal(LEFT_PARENTHESIS), Rule(R::Expr as u16), Close,
    Terminal(RIGHT_PARENTHESIS),
        On(LEFT_PARENTHESIS),
    // ThenClause
    Production(R::ThenClause as u16), Terminal(THEN), Rule(R::ExprSingle as u16), Close, On(THEN),
    // ElseClause
    Production(R::ElseClause as u16), Terminal(ELSE), Rule(R::ExprSingle as u16), Close, On(ELSE),
    // OrExpr
    Production(R::OrExpr as u16), Rule(R::AndExpr as u16), Rule(R::OrTail as u16),
        On(NAME), On(INTEGER), On(DECIMAL), On(DOUBLE), On(STRING), On(LONE_SLASH), On(LEFT_PARENTHESIS),
        On(LEFT_BRACKET), On(DOT), On(DOT_DOT), On(SLASH), On(SLASH_SLASH), On(DOLLAR), On(STAR), On(PLUS), On(MINUS),
        On(QUESTION), On(AT), On(AND), On(DIV), On(ELSE), On(EQ), On(EXCEPT), On(GE), On(GT), On(IDIV), On(IN),
        On(INTERSECT), On(IS), On(LE), On(LT), On(MOD), On(NE), On(OR), On(RETURN), On(SATISFIES), On(THEN), On(TO),
        On(UNION), On(AXIS), On(ELEMENT), On(NODE), On(ARRAY), On(FUNCTION), On(MAP),
    // OrTail
    Production(R::OrTail as u16), Terminal(OR), Rule(R::AndExpr as u16), Rule(R::OrTail as u16), On(OR),
    Production(R::OrTail as u16),
        On(RIGHT_PARENTHESIS), On(RIGHT_BRACKET), On(COMMA), On(ELSE), On(RETURN), On(SATISFIES), AtEnd,
    // AndExpr
    Production(R::AndExpr as u16), Rule(R::ComparisonExpr as u16), Rule(R::AndTail as u16),
        On(NAME), On(INTEGER), On(DECIMAL), On(DOUBLE), On(STRING), On(LONE_SLASH), On(LEFT_PARENTHESIS),
        On(LEFT_BRACKET), On(DOT), On(DOT_DOT), On(SLASH), On(SLASH_SLASH), On(DOLLAR), On(STAR), On(PLUS), On(MINUS),
        On(QUESTION), On(AT), On(AND), On(DIV), On(ELSE), On(EQ), On(EXCEPT), On(GE), On(GT), On(IDIV), On(IN),
        On(INTERSECT), On(IS), On(LE), On(LT), On(MOD), On(NE), On(OR), On(RETURN), On(SATISFIES), On(THEN), On(TO),
        On(UNION), On(AXIS), On(ELEMENT), On(NODE), On(ARRAY), On(FUNCTION), On(MAP),
    // AndTail
    Production(R::AndTail as u16), Terminal(AND), Rule(R::ComparisonExpr as u16), Rule(R::AndTail as u16), On(AND),
    Production(R::AndTail as u16),
        On(RIGHT_PARENTHESIS), On(RIGHT_BRACKET), On(COMMA), On(ELSE), On(OR), On(RETURN), On(SATISFIES), AtEnd,
    // ComparisonExpr
    Production(R::ComparisonExpr as u16), Rule(R::StringConcatExpr as u16), Rule(R::ComparisonTail as u16),
        On(NAME), On(INTEGER), On(DECIMAL), On(DOUBLE), On(STRING), On(LONE_SLASH), On(LEFT_PARENTHESIS),
        On(LEFT_BRACKET), On(DOT), On(DOT_DOT), On(SLASH), On(SLASH_SLASH), On(DOLLAR), On(STAR), On(PLUS), On(MINUS),
        On(QUESTION), On(AT), On(AND), On(DIV), On(ELSE), On(EQ), On(EXCEPT), On(GE), On(GT), On(IDIV), On(IN),
        On(INTERSECT), On(IS), On(LE), On(LT), On(MOD), On(NE), On(OR), On(RETURN), On(SATISFIES), On(THEN), On(TO),
        On(UNION), On(AXIS), On(ELEMENT), On(NODE), On(ARRAY), On(FUNCTION), On(MAP),
    // ComparisonTail
    Production(R::ComparisonTail as u16), Terminal(EQUAL), Rule(R::StringConcatExpr as u16), On(EQUAL),
    Production(R::ComparisonTail as u16), Terminal(BANG_EQUAL), Rule(R::StringConcatExpr as u16), On(BANG_EQUAL),
    Production(R::ComparisonTail as u16), Terminal(LESS), Rule(R::StringConcatExpr as u16), On(LESS),
    Production(R::ComparisonTail as u16), Terminal(LESS_EQUAL), Rule(R::StringConcatExpr as u16), On(LESS_EQUAL),
    Production(R::ComparisonTail as u16), Terminal(GREATER), Rule(R::StringConcatExpr as u16), On(GREATER),
    Production(R::ComparisonTail as u16), Terminal(GREATER_EQUAL), Rule(R::StringConcatExpr as u16), On(GREATER_EQUAL),
    Production(R::ComparisonTail as u16),
        On(RIGHT_PARENTHESIS), On(RIGHT_BRACKET), On(COMMA), On(AND), On(ELSE), On(OR), On(RETURN), On(SATISFIES),
        AtEnd,
    // StringConcatExpr
    Production(R::StringConcatExpr as u16), Rule(R::RangeExpr as u16), Rule(R::StringConcatTail as u16),
        On(NAME), On(INTEGER), On(DECIMAL), On(DOUBLE), On(STRING), On(LONE_SLASH), On(LEFT_PARENTHESIS),
        On(LEFT_BRACKET), On(DOT), On(DOT_DOT), On(SLASH), On(SLASH_SLASH), On(DOLLAR), On(STAR), On(PLUS), On(MINUS),
        On(QUESTION), On(AT), On(AND), On(DIV), On(ELSE), On(EQ), On(EXCEPT), On(GE), On(GT), On(IDIV), On(IN),
        On(INTERSECT), On(IS), On(LE), On(LT), On(MOD), On(NE), On(OR), On(RETURN), On(SATISFIES), On(THEN), On(TO),
        On(UNION), On(AXIS), On(ELEMENT), On(NODE), On(ARRAY), On(FUNCTION), On(MAP),
    // StringConcatTail
    Production(R::StringConcatTail as u16), Terminal(BAR_BAR), Rule(R::RangeExpr as u16),
    Rule(R::StringConcatTail as u16),
        On(BAR_BAR),
    Production(R::StringConcatTail as u16),
        On(RIGHT_PARENTHESIS), On(RIGHT_BRACKET), On(COMMA), On(BANG_EQUAL), On(LESS), On(LESS_EQUAL), On(EQUAL),
        On(GREATER), On(GREATER_EQUAL), On(AND), On(ELSE), On(OR), On(RETURN), On(SATISFIES), AtEnd,
    // RangeExpr
    Production(R::RangeExpr as u16), Rule(R::AdditiveExpr as u16), Rule(R::RangeTail as u16),
        On(NAME), On(INTEGER), On(DECIMAL), On(DOUBLE), On(STRING), On(LONE_SLASH), On(LEFT_PARENTHESIS),
        On(LEFT_BRACKET), On(DOT), On(DOT_DOT), On(SLASH), On(SLASH_SLASH), On(DOLLAR), On(STAR), On(PLUS), On(MINUS),
        On(QUESTION), On(AT), On(AND), On(DIV), On(ELSE), On(EQ), On(EXCEPT), On(GE), On(GT), On(IDIV), On(IN),
        On(INTERSECT), On(IS), On(LE), On(LT), On(MOD), On(NE), On(OR), On(RETURN), On(SATISFIES), On(THEN), On(TO),
        On(UNION), On(AXIS), On(ELEMENT), On(NODE), On(ARRAY), On(FUNCTION), On(MAP),
    // RangeTail
    Production(R::RangeTail as u16), Terminal(TO), Rule(R::AdditiveExpr as u16), On(TO),
    Production(R::RangeTail as u16),
        On(RIGHT_PARENTHESIS), On(RIGHT_BRACKET), On(COMMA), On(BANG_EQUAL), On(LESS), On(LESS_EQUAL), On(EQUAL),
        On(GREATER), On(GREATER_EQUAL), On(BAR_BAR), On(AND), On(ELSE), On(OR), On(RETURN), On(SATISFIES), AtEnd,
    // AdditiveExpr
    Production(R::AdditiveExpr as u16), Rule(R::MultiplicativeExpr as u16), Rule(R::AdditiveTail as u16),
        On(NAME), On(INTEGER), On(DECIMAL), On(DOUBLE), On(STRING), On(LONE_SLASH), On(LEFT_PARENTHESIS),
        On(LEFT_BRACKET), On(DOT), On(DOT_DOT), On(SLASH), On(SLASH_SLASH), On(DOLLAR), On(STAR), On(PLUS), On(MINUS),
        On(QUESTION), On(AT), On(AND), On(DIV), On(ELSE), On(EQ), On(EXCEPT), On(GE), On(GT), On(IDIV), On(IN),
        On(INTERSECT), On(IS), On(LE), On(LT), On(MOD), On(NE), On(OR), On(RETURN), On(SATISFIES), On(THEN), On(TO),
        On(UNION), On(AXIS), On(ELEMENT), On(NODE), On(ARRAY), On(FUNCTION), On(MAP),
    // AdditiveTail
    Production(R::AdditiveTail as u16), Terminal(PLUS), Rule(R::MultiplicativeExpr as u16),
    Rule(R::AdditiveTail as u16),
        On(PLUS),
    Production(R::AdditiveTail as u16), Terminal(MINUS), Rule(R::MultiplicativeExpr as u16),
    Rule(R::AdditiveTail as u16),
        On(MINUS),
    Production(R::AdditiveTail as u16),
        On(RIGHT_PARENTHESIS), On(RIGHT_BRACKET), On(COMMA), On(BANG_EQUAL), On(LESS), On(LESS_EQUAL), On(EQUAL),
        On(GREATER), On(GREATER_EQUAL), On(BAR_BAR), On(AND), On(ELSE), On(OR), On(RETURN), On(SATISFIES), On(TO),
        AtEnd,
    // MultiplicativeExpr
    Production(R::MultiplicativeExpr as u16), Rule(R::UnionExpr as u16), Rule(R::MultiplicativeTail as u16),
        On(NAME), On(INTEGER), On(DECIMAL), On(DOUBLE), On(STRING), On(LONE_SLASH), On(LEFT_PARENTHESIS),
        On(LEFT_BRACKET), On(DOT), On(DOT_DOT), On(SLASH), On(SLASH_SLASH), On(DOLLAR), On(STAR), On(PLUS), On(MINUS),
        On(QUESTION), On(AT), On(AND), On(DIV), On(ELSE), On(EQ), On(EXCEPT), On(GE), On(GT), On(IDIV), On(IN),
        On(INTERSECT), On(IS), On(LE), On(LT), On(MOD), On(NE), On(OR), On(RETURN), On(SATISFIES), On(THEN), On(TO),
        On(UNION), On(AXIS), On(ELEMENT), On(NODE), On(ARRAY), On(FUNCTION), On(MAP),
    // MultiplicativeTail
    Production(R::MultiplicativeTail as u16), Terminal(STAR), Rule(R::UnionExpr as u16),
    Rule(R::MultiplicativeTail as u16),
        On(STAR),
    Production(R::MultiplicativeTail as u16), Terminal(IDIV), Rule(R::UnionExpr as u16),
    Rule(R::MultiplicativeTail as u16),
        On(IDIV),
    Production(R::MultiplicativeTail as u16), Terminal(MOD), Rule(R::UnionExpr as u16),
    Rule(R::MultiplicativeTail as u16),
        On(MOD),
    Production(R::MultiplicativeTail as u16),
        On(RIGHT_PARENTHESIS), On(RIGHT_BRACKET), On(COMMA), On(BANG_EQUAL), On(PLUS), On(MINUS), On(LESS),
        On(LESS_EQUAL), On(EQUAL), On(GREATER), On(GREATER_EQUAL), On(BAR_BAR), On(AND), On(ELSE), On(OR), On(RETURN),
        On(SATISFIES), On(TO), AtEnd,
    // UnionExpr
    Production(R::UnionExpr as u16), Rule(R::IntersectExceptExpr as u16), Rule(R::UnionTail as u16),
        On(NAME), On(INTEGER), On(DECIMAL), On(DOUBLE), On(STRING), On(LONE_SLASH), On(LEFT_PARENTHESIS),
        On(LEFT_BRACKET), On(DOT), On(DOT_DOT), On(SLASH), On(SLASH_SLASH), On(DOLLAR), On(STAR), On(PLUS), On(MINUS),
        On(QUESTION), On(AT), On(AND), On(DIV), On(ELSE), On(EQ), On(EXCEPT), On(GE), On(GT), On(IDIV), On(IN),
        On(INTERSECT), On(IS), On(LE), On(LT), On(MOD), On(NE), On(OR), On(RETURN), On(SATISFIES), On(THEN), On(TO),
        On(UNION), On(AXIS), On(ELEMENT), On(NODE), On(ARRAY), On(FUNCTION), On(MAP),
    // UnionTail
    Production(R::UnionTail as u16), Terminal(UNION), Rule(R::IntersectExceptExpr as u16), Rule(R::UnionTail as u16),
        On(UNION),
    Production(R::UnionTail as u16), Terminal(BAR), Rule(R::IntersectExceptExpr as u16), Rule(R::UnionTail as u16),
        On(BAR),
    Production(R::UnionTail as u16),
        On(RIGHT_PARENTHESIS), On(RIGHT_BRACKET), On(COMMA), On(BANG_EQUAL), On(STAR), On(PLUS), On(MINUS), On(LESS),
        On(LESS_EQUAL), On(EQUAL), On(GREATER), On(GREATER_EQUAL), On(BAR_BAR), On(AND), On(ELSE), On(IDIV), On(MOD),
        On(OR), On(RETURN), On(SATISFIES), On(TO), AtEnd,
    // IntersectExceptExpr
    Production(R::IntersectExceptExpr as u16), Rule(R::UnaryExpr as u16), Rule(R::IntersectExceptTail as u16),
        On(NAME), On(INTEGER), On(DECIMAL), On(DOUBLE), On(STRING), On(LONE_SLASH), On(LEFT_PARENTHESIS),
        On(LEFT_BRACKET), On(DOT), On(DOT_DOT), On(SLASH), On(SLASH_SLASH), On(DOLLAR), On(STAR), On(PLUS), On(MINUS),
        On(QUESTION), On(AT), On(AND), On(DIV), On(ELSE), On(EQ), On(EXCEPT), On(GE), On(GT), On(IDIV), On(IN),
        On(INTERSECT), On(IS), On(LE), On(LT), On(MOD), On(NE), On(OR), On(RETURN), On(SATISFIES), On(THEN), On(TO),
        On(UNION), On(AXIS), On(ELEMENT), On(NODE), On(ARRAY), On(FUNCTION), On(MAP),
    // IntersectExceptTail
    Production(R::IntersectExceptTail as u16), Terminal(INTERSECT), Rule(R::UnaryExpr as u16),
    Rule(R::IntersectExceptTail as u16),
        On(INTERSECT),
    Production(R::IntersectExceptTail as u16), Terminal(EXCEPT), Rule(R::UnaryExpr as u16),
    Rule(R::IntersectExceptTail as u16),
        On(EXCEPT),
    Production(R::IntersectExceptTail as u16),
        On(RIGHT_PARENTHESIS), On(RIGHT_BRACKET), On(COMMA), On(BANG_EQUAL), On(STAR), On(PLUS), On(MINUS), On(LESS),
        On(LESS_EQUAL), On(EQUAL), On(GREATER), On(GREATER_EQUAL), On(BAR), On(BAR_BAR), On(AND), On(ELSE), On(IDIV),
        On(MOD), On(OR), On(RETURN), On(SATISFIES), On(TO), On(UNION), AtEnd,
    // UnaryExpr
    Production(R::UnaryExpr as u16), Terminal(MINUS), Rule(R::UnaryExpr as u16), Close, On(MINUS),
    Production(R::UnaryExpr as u16), Terminal(PLUS), Rule(R::UnaryExpr as u16), Close, On(PLUS),
    Production(R::UnaryExpr as u16), Rule(R::SimpleMapExpr as u16),
        On(NAME), On(INTEGER), On(DECIMAL), On(DOUBLE), On(STRING), On(LONE_SLASH), On(LEFT_PARENTHESIS),
        On(LEFT_BRACKET), On(DOT), On(DOT_DOT), On(SLASH), On(SLASH_SLASH), On(DOLLAR), On(STAR), On(QUESTION), On(AT),
        On(AND), On(DIV), On(ELSE), On(EQ), On(EXCEPT), On(GE), On(GT), On(IDIV), On(IN), On(INTERSECT), On(IS), On(LE),
        On(LT), On(MOD), On(NE), On(OR), On(RETURN), On(SATISFIES), On(THEN), On(TO), On(UNION), On(AXIS), On(ELEMENT),
        On(NODE), On(ARRAY), On(FUNCTION), On(MAP),
    // SimpleMapExpr
    Production(R::SimpleMapExpr as u16), Rule(R::Operand as u16), Rule(R::SimpleMapTail as u16),
        On(NAME), On(INTEGER), On(DECIMAL), On(DOUBLE), On(STRING), On(LONE_SLASH), On(LEFT_PARENTHESIS),
        On(LEFT_BRACKET), On(DOT), On(DOT_DOT), On(SLASH), On(SLASH_SLASH), On(DOLLAR), On(STAR), On(QUESTION), On(AT),
        On(AND), On(DIV), On(ELSE), On(EQ), On(EXCEPT), On(GE), On(GT), On(IDIV), On(IN), On(INTERSECT), On(IS), On(LE),
        On(LT), On(MOD), On(NE), On(OR), On(RETURN), On(SATISFIES), On(THEN), On(TO), On(UNION), On(AXIS), On(ELEMENT),
        On(NODE), On(ARRAY), On(FUNCTION), On(MAP),
    // SimpleMapTail
    Production(R::SimpleMapTail as u16), Terminal(BANG), Rule(R::Operand as u16), Rule(R::SimpleMapTail as u16),
        On(BANG),
    Production(R::SimpleMapTail as u16),
        On(RIGHT_PARENTHESIS), On(RIGHT_BRACKET), On(COMMA), On(BANG_EQUAL), On(STAR), On(PLUS), On(MINUS), On(LESS),
        On(LESS_EQUAL), On(EQUAL), On(GREATER), On(GREATER_EQUAL), On(BAR), On(BAR_BAR), On(AND), On(ELSE), On(EXCEPT),
        On(IDIV), On(INTERSECT), On(MOD), On(OR), On(RETURN), On(SATISFIES), On(TO), On(UNION), AtEnd,
    // Operand
    Production(R::Operand as u16), Rule(R::PathExpr as u16), Rule(R::LeftOutOperator as u16),
        On(NAME), On(INTEGER), On(DECIMAL), On(DOUBLE), On(STRING), On(LONE_SLASH), On(LEFT_PARENTHESIS),
        On(LEFT_BRACKET), On(DOT), On(DOT_DOT), On(SLASH), On(SLASH_SLASH), On(DOLLAR), On(STAR), On(QUESTION), On(AT),
        On(AND), On(DIV), On(ELSE), On(EQ), On(EXCEPT), On(GE), On(GT), On(IDIV), On(IN), On(INTERSECT), On(IS), On(LE),
        On(LT), On(MOD), On(NE), On(OR), On(RETURN), On(SATISFIES), On(THEN), On(TO), On(UNION), On(AXIS), On(ELEMENT),
        On(NODE), On(ARRAY), On(FUNCTION), On(MAP),
    // LeftOutOperator
    Production(R::LeftOutOperator as u16), LeftOut(EQ), On(EQ),
    Production(R::LeftOutOperator as u16), LeftOut(NE), On(NE),
    Production(R::LeftOutOperator as u16), LeftOut(LT), On(LT),
    Production(R::LeftOutOperator as u16), LeftOut(LE), On(LE),
    Production(R::LeftOutOperator as u16), LeftOut(GT), On(GT),
    Production(R::LeftOutOperator as u16), LeftOut(GE), On(GE),
    Production(R::LeftOutOperator as u16), LeftOut(IS), On(IS),
    Production(R::LeftOutOperator as u16), LeftOut(LESS_LESS), On(LESS_LESS),
    Production(R::LeftOutOperator as u16), LeftOut(GREATER_GREATER), On(GREATER_GREATER),
    Production(R::LeftOutOperator as u16), LeftOut(DIV), On(DIV),
    Production(R::LeftOutOperator as u16), LeftOut(INSTANCE_OF), On(INSTANCE_OF),
    Production(R::LeftOutOperator as u16), LeftOut(TREAT_AS), On(TREAT_AS),
    Production(R::LeftOutOperator as u16), LeftOut(CASTABLE_AS), On(CASTABLE_AS),
    Production(R::LeftOutOperator as u16), LeftOut(CAST_AS), On(CAST_AS),
    Production(R::LeftOutOperator as u16), LeftOut(ARROW), On(ARROW),
    Production(R::LeftOutOperator as u16), LeftOut(QUESTION), On(QUESTION),
    Production(R::LeftOutOperator as u16), LeftOut(DECIMAL), On(DECIMAL),
    Production(R::LeftOutOperator as u16), LeftOut(DOUBLE), On(DOUBLE),
    Production(R::LeftOutOperator as u16),
        On(RIGHT_PARENTHESIS), On(RIGHT_BRACKET), On(COMMA), On(BANG), On(BANG_EQUAL), On(STAR), On(PLUS), On(MINUS),
        On(LESS), On(LESS_EQUAL), On(EQUAL), On(GREATER), On(GREATER_EQUAL), On(BAR), On(BAR_BAR), On(AND), On(ELSE),
        On(EXCEPT), On(IDIV), On(INTERSECT), On(MOD), On(OR), On(RETURN), On(SATISFIES), On(TO), On(UNION), AtEnd,
    // PathExpr
    Production(R::PathExpr as u16), Terminal(LONE_SLASH), On(LONE_SLASH),
    Production(R::PathExpr as u16), Terminal(SLASH), Rule(R::RelativePathExpr as u16), On(SLASH),
    Production(R::PathExpr as u16), Terminal(SLASH_SLASH), Rule(R::RelativePathExpr as u16), On(SLASH_SLASH),
    Production(R::PathExpr as u16), Rule(R::RelativePathExpr as u16),
        On(NAME), On(INTEGER), On(DECIMAL), On(DOUBLE), On(STRING), On(LEFT_PARENTHESIS), On(LEFT_BRACKET), On(DOT),
        On(DOT_DOT), On(DOLLAR), On(STAR), On(QUESTION), On(AT), On(AND), On(DIV), On(ELSE), On(EQ), On(EXCEPT), On(GE),
        On(GT), On(IDIV), On(IN), On(INTERSECT), On(IS), On(LE), On(LT), On(MOD), On(NE), On(OR), On(RETURN),
        On(SATISFIES), On(THEN), On(TO), On(UNION), On(AXIS), On(ELEMENT), On(NODE), On(ARRAY), On(FUNCTION), On(MAP),
    // RelativePathExpr
    Production(R::RelativePathExpr as u16), Rule(R::StepExpr as u16), Rule(R::RelativePathTail as u16),
        On(NAME), On(INTEGER), On(DECIMAL), On(DOUBLE), On(STRING), On(LEFT_PARENTHESIS), On(LEFT_BRACKET), On(DOT),
        On(DOT_DOT), On(DOLLAR), On(STAR), On(QUESTION), On(AT), On(AND), On(DIV), On(ELSE), On(EQ), On(EXCEPT), On(GE),
        On(GT), On(IDIV), On(IN), On(INTERSECT), On(IS), On(LE), On(LT), On(MOD), On(NE), On(OR), On(RETURN),
        On(SATISFIES), On(THEN), On(TO), On(UNION), On(AXIS), On(ELEMENT), On(NODE), On(ARRAY), On(FUNCTION), On(MAP),
    // RelativePathTail
    Production(R::RelativePathTail as u16), Terminal(SLASH), Rule(R::StepExpr as u16), Rule(R::RelativePathTail as u16),
        On(SLASH),
    Production(R::RelativePathTail as u16), Terminal(SLASH_SLASH), Rule(R::StepExpr as u16),
    Rule(R::RelativePathTail as u16),
        On(SLASH_SLASH),
    Production(R::RelativePathTail as u16),
        On(DECIMAL), On(DOUBLE), On(RIGHT_PARENTHESIS), On(RIGHT_BRACKET), On(COMMA), On(BANG), On(BANG_EQUAL),
        On(STAR), On(PLUS), On(MINUS), On(LESS), On(LESS_LESS), On(LESS_EQUAL), On(EQUAL), On(ARROW), On(GREATER),
        On(GREATER_GREATER), On(GREATER_EQUAL), On(QUESTION), On(BAR), On(BAR_BAR), On(AND), On(DIV), On(ELSE), On(EQ),
        On(EXCEPT), On(GE), On(GT), On(IDIV), On(INTERSECT), On(IS), On(LE), On(LT), On(MOD), On(NE), On(OR),
        On(RETURN), On(SATISFIES), On(TO), On(UNION), On(CASTABLE_AS), On(CAST_AS), On(INSTANCE_OF), On(TREAT_AS),
        AtEnd,
    // StepExpr
    Production(R::StepExpr as u16), Terminal(DOT), Rule(R::PredicateList as u16), On(DOT),
    Production(R::StepExpr as u16), Rule(R::PrimaryExpr as u16), Rule(R::PredicateList as u16),
        On(INTEGER), On(STRING), On(LEFT_PARENTHESIS), On(DOLLAR),
    Production(R::StepExpr as u16), Terminal(DOT_DOT), Rule(R::PredicateList as u16), On(DOT_DOT),
    Production(R::StepExpr as u16), Terminal(AT), Rule(R::NodeTest as u16), Rule(R::PredicateList as u16), On(AT),
    Production(R::StepExpr as u16), Terminal(AXIS), Rule(R::AxisTail as u16), On(AXIS),
    Production(R::StepExpr as u16), Terminal(STAR), Rule(R::PredicateList as u16), On(STAR),
    Production(R::StepExpr as u16), Terminal(NODE), Rule(R::KindTail as u16), Rule(R::PredicateList as u16), On(NODE),
    Production(R::StepExpr as u16), Terminal(ELEMENT), Rule(R::KindTail as u16), Rule(R::PredicateList as u16),
        On(ELEMENT),
    Production(R::StepExpr as u16), Rule(R::PlainName as u16), Rule(R::NameTail as u16),
        On(NAME), On(AND), On(DIV), On(ELSE), On(EQ), On(EXCEPT), On(GE), On(GT), On(IDIV), On(IN), On(INTERSECT),
        On(IS), On(LE), On(LT), On(MOD), On(NE), On(OR), On(RETURN), On(SATISFIES), On(THEN), On(TO), On(UNION),
    Production(R::StepExpr as u16), LeftOut(DECIMAL), On(DECIMAL),
    Production(R::StepExpr as u16), LeftOut(DOUBLE), On(DOUBLE),
    Production(R::StepExpr as u16), LeftOut(MAP), On(MAP),
    Production(R::StepExpr as u16), LeftOut(ARRAY), On(ARRAY),
    Production(R::StepExpr as u16), LeftOut(LEFT_BRACKET), On(LEFT_BRACKET),
    Production(R::StepExpr as u16), LeftOut(FUNCTION), On(FUNCTION),
    Production(R::StepExpr as u16), LeftOut(QUESTION), On(QUESTION),
    // AxisTail
    Production(R::AxisTail as u16), Terminal(COLON_COLON), Rule(R::NodeTest as u16), Rule(R::PredicateList as u16),
        On(COLON_COLON),
    Production(R::AxisTail as u16), Terminal(LEFT_PARENTHESIS), Rule(R::Arguments as u16), Close,
    Terminal(RIGHT_PARENTHESIS), Rule(R::PredicateList as u16),
        On(LEFT_PARENTHESIS),
    Production(R::AxisTail as u16), Rule(R::PredicateList as u16),
        On(DECIMAL), On(DOUBLE), On(RIGHT_PARENTHESIS), On(LEFT_BRACKET), On(RIGHT_BRACKET), On(COMMA), On(SLASH),
        On(SLASH_SLASH), On(BANG), On(BANG_EQUAL), On(STAR), On(PLUS), On(MINUS), On(LESS), On(LESS_LESS),
        On(LESS_EQUAL), On(EQUAL), On(ARROW), On(GREATER), On(GREATER_GREATER), On(GREATER_EQUAL), On(QUESTION),
        On(BAR), On(BAR_BAR), On(AND), On(DIV), On(ELSE), On(EQ), On(EXCEPT), On(GE), On(GT), On(IDIV), On(INTERSECT),
        On(IS), On(LE), On(LT), On(MOD), On(NE), On(OR), On(RETURN), On(SATISFIES), On(TO), On(UNION), On(CASTABLE_AS),
        On(CAST_AS), On(INSTANCE_OF), On(TREAT_AS), AtEnd,
    // NameTail
    Production(R::NameTail as u16), Terminal(LEFT_PARENTHESIS), Rule(R::Arguments as u16), Close,
    Terminal(RIGHT_PARENTHESIS), Rule(R::PredicateList as u16),
        On(LEFT_PARENTHESIS),
    Production(R::NameTail as u16), Rule(R::PredicateList as u16),
        On(DECIMAL), On(DOUBLE), On(RIGHT_PARENTHESIS), On(LEFT_BRACKET), On(RIGHT_BRACKET), On(COMMA), On(SLASH),
        On(SLASH_SLASH), On(BANG), On(BANG_EQUAL), On(STAR), On(PLUS), On(MINUS), On(LESS), On(LESS_LESS),
        On(LESS_EQUAL), On(EQUAL), On(ARROW), On(GREATER), On(GREATER_GREATER), On(GREATER_EQUAL), On(QUESTION),
        On(BAR), On(BAR_BAR), On(AND), On(DIV), On(ELSE), On(EQ), On(EXCEPT), On(GE), On(GT), On(IDIV), On(INTERSECT),
        On(IS), On(LE), On(LT), On(MOD), On(NE), On(OR), On(RETURN), On(SATISFIES), On(TO), On(UNION), On(CASTABLE_AS),
        On(CAST_AS), On(INSTANCE_OF), On(TREAT_AS), AtEnd,
    // NodeTest
    Production(R::NodeTest as u16), Rule(R::PlainName as u16),
        On(NAME), On(AND), On(DIV), On(ELSE), On(EQ), On(EXCEPT), On(GE), On(GT), On(IDIV), On(IN), On(INTERSECT),
        On(IS), On(LE), On(LT), On(MOD), On(NE), On(OR), On(RETURN), On(SATISFIES), On(THEN), On(TO), On(UNION),
    Production(R::NodeTest as u16), Terminal(AXIS), On(AXIS),
    Production(R::NodeTest as u16), Terminal(STAR), On(STAR),
    Production(R::NodeTest as u16), Terminal(NODE), Rule(R::KindTail as u16), On(NODE),
    Production(R::NodeTest as u16), Terminal(ELEMENT), Rule(R::KindTail as u16), On(ELEMENT),
    // KindTail
    Production(R::KindTail as u16), Terminal(LEFT_PARENTHESIS), Close, Terminal(RIGHT_PARENTHESIS),
        On(LEFT_PARENTHESIS),
    Production(R::KindTail as u16),
        On(DECIMAL), On(DOUBLE), On(RIGHT_PARENTHESIS), On(LEFT_BRACKET), On(RIGHT_BRACKET), On(COMMA), On(SLASH),
        On(SLASH_SLASH), On(BANG), On(BANG_EQUAL), On(STAR), On(PLUS), On(MINUS), On(LESS), On(LESS_LESS),
        On(LESS_EQUAL), On(EQUAL), On(ARROW), On(GREATER), On(GREATER_GREATER), On(GREATER_EQUAL), On(QUESTION),
        On(BAR), On(BAR_BAR), On(AND), On(DIV), On(ELSE), On(EQ), On(EXCEPT), On(GE), On(GT), On(IDIV), On(INTERSECT),
        On(IS), On(LE), On(LT), On(MOD), On(NE), On(OR), On(RETURN), On(SATISFIES), On(TO), On(UNION), On(CASTABLE_AS),
        On(CAST_AS), On(INSTANCE_OF), On(TREAT_AS), AtEnd,
    // PredicateList
    Production(R::PredicateList as u16), Terminal(LEFT_BRACKET), Rule(R::Expr as u16), Close, Terminal(RIGHT_BRACKET),
    Rule(R::PredicateList as u16),
        On(LEFT_BRACKET),
    Production(R::PredicateList as u16),
        On(DECIMAL), On(DOUBLE), On(RIGHT_PARENTHESIS), On(RIGHT_BRACKET), On(COMMA), On(SLASH), On(SLASH_SLASH),
        On(BANG), On(BANG_EQUAL), On(STAR), On(PLUS), On(MINUS), On(LESS), On(LESS_LESS), On(LESS_EQUAL), On(EQUAL),
        On(ARROW), On(GREATER), On(GREATER_GREATER), On(GREATER_EQUAL), On(QUESTION), On(BAR), On(BAR_BAR), On(AND),
        On(DIV), On(ELSE), On(EQ), On(EXCEPT), On(GE), On(GT), On(IDIV), On(INTERSECT), On(IS), On(LE), On(LT), On(MOD),
        On(NE), On(OR), On(RETURN), On(SATISFIES), On(TO), On(UNION), On(CASTABLE_AS), On(CAST_AS), On(INSTANCE_OF),
        On(TREAT_AS), AtEnd,
    // PrimaryExpr
    Production(R::PrimaryExpr as u16), Terminal(INTEGER), On(INTEGER),
    Production(R::PrimaryExpr as u16), Terminal(STRING), On(STRING),
    Production(R::PrimaryExpr as u16), Terminal(DOLLAR), Rule(R::VarName as u16), On(DOLLAR),
    Production(R::PrimaryExpr as u16), Terminal(LEFT_PARENTHESIS), Rule(R::Parenthesized as u16), Close,
    Terminal(RIGHT_PARENTHESIS),
        On(LEFT_PARENTHESIS),
    // Parenthesized
    Production(R::Parenthesized as u16), Rule(R::Expr as u16),
        On(NAME), On(INTEGER), On(DECIMAL), On(DOUBLE), On(STRING), On(LONE_SLASH), On(LEFT_PARENTHESIS),
        On(LEFT_BRACKET), On(DOT), On(DOT_DOT), On(SLASH), On(SLASH_SLASH), On(DOLLAR), On(STAR), On(PLUS), On(MINUS),
        On(QUESTION), On(AT), On(AND), On(DIV), On(ELSE), On(EQ), On(EXCEPT), On(GE), On(GT), On(IDIV), On(IN),
        On(INTERSECT), On(IS), On(LE), On(LT), On(MOD), On(NE), On(OR), On(RETURN), On(SATISFIES), On(THEN), On(TO),
        On(UNION), On(AXIS), On(ELEMENT), On(NODE), On(ARRAY), On(EVERY), On(FOR), On(FUNCTION), On(IF), On(LET),
        On(MAP), On(SOME),
    Production(R::Parenthesized as u16), On(RIGHT_PARENTHESIS),
    // Arguments
    Production(R::Arguments as u16), Rule(R::ExprSingle as u16), Rule(R::ArgumentsTail as u16),
        On(NAME), On(INTEGER), On(DECIMAL), On(DOUBLE), On(STRING), On(LONE_SLASH), On(LEFT_PARENTHESIS),
        On(LEFT_BRACKET), On(DOT), On(DOT_DOT), On(SLASH), On(SLASH_SLASH), On(DOLLAR), On(STAR), On(PLUS), On(MINUS),
        On(QUESTION), On(AT), On(AND), On(DIV), On(ELSE), On(EQ), On(EXCEPT), On(GE), On(GT), On(IDIV), On(IN),
        On(INTERSECT), On(IS), On(LE), On(LT), On(MOD), On(NE), On(OR), On(RETURN), On(SATISFIES), On(THEN), On(TO),
        On(UNION), On(AXIS), On(ELEMENT), On(NODE), On(ARRAY), On(EVERY), On(FOR), On(FUNCTION), On(IF), On(LET),
        On(MAP), On(SOME),
    Production(R::Arguments as u16), On(RIGHT_PARENTHESIS),
    // ArgumentsTail
    Production(R::ArgumentsTail as u16), Terminal(COMMA), Rule(R::ExprSingle as u16), Rule(R::ArgumentsTail as u16),
        On(COMMA),
    Production(R::ArgumentsTail as u16), On(RIGHT_PARENTHESIS),
    // VarName
    Production(R::VarName as u16), Rule(R::PlainName as u16),
        On(NAME), On(AND), On(DIV), On(ELSE), On(EQ), On(EXCEPT), On(GE), On(GT), On(IDIV), On(IN), On(INTERSECT),
        On(IS), On(LE), On(LT), On(MOD), On(NE), On(OR), On(RETURN), On(SATISFIES), On(THEN), On(TO), On(UNION),
    Production(R::VarName as u16), Terminal(AXIS), On(AXIS),
    Production(R::VarName as u16), Terminal(NODE), On(NODE),
    Production(R::VarName as u16), Terminal(ELEMENT), On(ELEMENT),
    // PlainName
    Production(R::PlainName as u16), Terminal(NAME), On(NAME),
    Production(R::PlainName as u16), Terminal(AND), On(AND),
    Production(R::PlainName as u16), Terminal(DIV), On(DIV),
    Production(R::PlainName as u16), Terminal(ELSE), On(ELSE),
    Production(R::PlainName as u16), Terminal(EQ), On(EQ),
    Production(R::PlainName as u16), Terminal(EXCEPT), On(EXCEPT),
    Production(R::PlainName as u16), Terminal(GE), On(GE),
    Production(R::PlainName as u16), Terminal(GT), On(GT),
    Production(R::PlainName as u16), Terminal(IDIV), On(IDIV),
    Production(R::PlainName as u16), Terminal(IN), On(IN),
    Production(R::PlainName as u16), Terminal(INTERSECT), On(INTERSECT),
    Production(R::PlainName as u16), Terminal(IS), On(IS),
    Production(R::PlainName as u16), Terminal(LE), On(LE),
    Production(R::PlainName as u16), Terminal(LT), On(LT),
    Production(R::PlainName as u16), Terminal(MOD), On(MOD),
    Production(R::PlainName as u16), Terminal(NE), On(NE),
    Production(R::PlainName as u16), Terminal(OR), On(OR),
    Production(R::PlainName as u16), Terminal(RETURN), On(RETURN),
    Production(R::PlainName as u16), Terminal(SATISFIES), On(SATISFIES),
    Production(R::PlainName as u16), Terminal(THEN), On(THEN),
    Production(R::PlainName as u16), Terminal(TO), On(TO),
    Production(R::PlainName as u16), Terminal(UNION), On(UNION),
];
