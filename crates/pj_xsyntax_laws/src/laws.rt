//! Laws of the syntax of XPath. The functions do nothing, and their contracts are the laws.

ghost use Rattle.pj_xtokens.specs.Rules as lexical;
ghost use Rattle.std.specs.Prelude.{All, Bool, Contains, IsTrue, List, None, Some, [], codes, false, suc, true, ℕ, ◌+◌, ◌++◌, ◌<◌, ◌∷◌, ◌^◌, ◌≡◌, ◌≢◌, ◌≤◌, ◌⊎◌};
ghost use Rattle.std.specs.Fmt.{decimal};
ghost use Rattle.pj_xtokens.specs.Characters.{is_digit, is_white};
ghost use Rattle.pj_xtokens.specs.Signs.{Entry, signs};
ghost use Rattle.pj_xtokens.specs.Size.{size};
ghost use Rattle.pj_xtokens.specs.First.{begins_with_parenthesis};
ghost use Rattle.pj_xtokens.specs.Tokens.{Lexed, Tokens, lexed};
ghost use Rattle.pj_xtokens.specs.declared.token.End.TheVariants as ends;
ghost use Rattle.pj_xtokens.specs.declared.token.Sign.TheVariants as s;
ghost use Rattle.pj_xtokens.specs.declared.token.TokenKind.{TokenKind};
ghost use Rattle.pj_xtokens.specs.declared.token.TokenKind.TheVariants as kinds;
ghost use Rattle.pj_xsyntax_laws.specs.Spaced.{AreSpelled, Word, literal, placed, spaced, words_of};
ghost use Rattle.pj_ll.specs.declared.parser.End as outcome;
ghost use Rattle.pj_xtokens.specs.declared.token.End.{End};
ghost use Rattle.pj_xderive.specs.Expressions.{place_of};
ghost use Rattle.pj_xparse.specs.NameFaults.{Fault, first_fault};
ghost use Rattle.pj_xreadings.specs.Mentions.{Mention};
ghost use Rattle.pj_xsyntax_laws.specs.Every.{HasFault, given, position_of};
ghost use Rattle.pj_xsyntax_laws.specs.Order.{AreBelow, Ascend, IsBefore, offset_at, positions};
ghost use Rattle.std.specs.Str.{all_scalars};
ghost use Rattle.pj_xexpressions.specs.declared.expr.NodeTest.{NodeTest};
ghost use Rattle.pj_xexpressions.specs.declared.function.Function.{Function};
ghost use Rattle.pj_xgrammar.specs.Notation.{t};
ghost use Rattle.pj_xgrammar.specs.declared.rule.Rule.{Rule};
ghost use Rattle.pj_xgrammar.specs.declared.rule.Rule.TheVariants as r;
ghost use Rattle.pj_xexpressions.specs.Names.{callee_of};
ghost use Rattle.pj_xexpressions.specs.Trees.{Tree};
ghost use Rattle.pj_xexpressions.specs.declared.name.Callee.TheVariants as callee;
ghost use Rattle.pj_xreadings.specs.Operands.{Operand, child_step, other};
ghost use Rattle.pj_xmeaning.specs.Reach as reach;
ghost use Rattle.pj_xmeaning.specs.Reads.{AreRead, Reads, Takes};
ghost use Rattle.pj_xparse.specs.Outcomes.{IsOutcome, SaySoFar};
ghost use Rattle.pj_xparse.specs.Spells.{Spells};
ghost use Rattle.pj_xreadings.specs.Nesting.{nesting_of_tree};
ghost use Rattle.pj_xreadings.specs.Shapes.{part_of_tree};
ghost use Rattle.pj_xreadings.specs.Spelled.{IsSpelled};
ghost use Rattle.pj_xsyntax_laws.specs.Abbreviations.{WrittenOut, along_child, sign};
ghost use Rattle.pj_xsyntax_laws.specs.Gapped.{ArePieces, IsGap, Piece, gapped, located, moved, words_in};
ghost use Rattle.pj_xsyntax_laws.specs.Levels.{LevelReads, is_level};
ghost use Rattle.pj_xsyntax_laws.specs.Printed.{function_name, printed};

use pj_xderive::runs_end_before_faults;
use pj_xparse::{
    outcomes_are_read, read_expressions_fit, sayings_end_with_runs, tokens_are_well_spelled,
};
use pj_xtokens::{
    gaps_stand_in_front, scanner_follows_the_rules, tokens_are_not_empty, tokens_are_one,
};

/// The text of words that each spell a token, with a space behind each, has just these tokens, up to its end.
pub fn spaced_words_are_tokens()
    ensures { (words : List Word) → AreSpelled words → Tokens (size (spaced words)) (spaced words) (placed 0 words) (ends.Text (size (spaced words))) }
{
    scanner_follows_the_rules();
}

/// Signs and literals spell tokens of their kinds: each sign as it stands in the table of signs, one or more digits, what is written of
/// a number in decimal, and the literal in quotation marks of any characters.
pub fn signs_and_literals_spell()
    ensures each_sign { (entry : Entry) → Contains signs entry → lexical.Spells (kinds.Sign entry.sign) entry.text }
    ensures digits { (text : List ℕ) → All (λ c. IsTrue (is_digit c)) text → text ≢ [] → lexical.Spells kinds.Integer text }
    ensures each_number { (n : ℕ) → n < 2 ^ 64 → lexical.Spells kinds.Integer (decimal n) }
    ensures each_string { (characters : List ℕ) → lexical.Spells kinds.String (literal characters) }
{
    scanner_follows_the_rules();
}

/// No token but a string has white space in it: a space, a tab, a line feed or a carriage return (XML 1.0, 2.3). So no name has any.
pub fn strings_alone_have_white_space()
    ensures { (kind : TokenKind) (text : List ℕ) → lexical.Spells kind text → kind ≢ kinds.String → All (λ c. is_white c ≡ false) text }
{}

/// What the tokens of a text name, as far as they are read, stands in strictly ascending order: by offset, and at one offset an argument before what
/// it names. By these names a fault of the text is told.
pub fn mentions_ascend()
    ensures { (total : ℕ) (text : List ℕ) (tokens : List Lexed) (end : End) (a : Operand) → Tokens total text tokens end → SaySoFar tokens a → Ascend (positions a.names) }
{
    gaps_stand_in_front();
    sayings_end_with_runs();
    tokens_are_not_empty();
}

/// What the tokens of a text name stands before the place where the tokens have their fault, and where they have none before the end. So do the
/// faults of it.
pub fn names_come_first()
    ensures names { (total : ℕ) (text : List ℕ) (tokens : List Lexed) (end : End) (a : Operand) (fault : outcome.End) → Tokens total text tokens end →
        SaySoFar tokens a → IsOutcome tokens fault → AreBelow (offset_at tokens end (place_of tokens fault)) (positions a.names) }
    ensures faults { (total : ℕ) (text : List ℕ) (tokens : List Lexed) (end : End) (a : Operand) (fault : outcome.End) (variables : List (List ℕ)) (named : Fault) →
        Tokens total text tokens end → SaySoFar tokens a → IsOutcome tokens fault → HasFault (given variables) a.names named →
        (position_of named).from < offset_at tokens end (place_of tokens fault) }
{
    gaps_stand_in_front();
    outcomes_are_read();
    runs_end_before_faults();
    sayings_end_with_runs();
    tokens_are_not_empty();
}

/// The first fault of what the tokens of a text name is the first by offset, and at one offset a form before a function or a variable.
pub fn first_fault_is_first()
    ensures is_fault { (variables : List (List ℕ)) (mentions : List Mention) (fault : Fault) → first_fault variables mentions ≡ Some fault → HasFault (given variables) mentions fault }
    ensures none { (variables : List (List ℕ)) (mentions : List Mention) (fault : Fault) → first_fault variables mentions ≡ None → ¬ HasFault (given variables) mentions fault }
    ensures first { (total : ℕ) (text : List ℕ) (tokens : List Lexed) (end : End) (a : Operand) (variables : List (List ℕ)) (fault other : Fault) →
        Tokens total text tokens end → SaySoFar tokens a → first_fault variables a.names ≡ Some fault → HasFault (given variables) a.names other →
        (other ≡ fault) ⊎ IsBefore (position_of fault) (position_of other) }
{
    gaps_stand_in_front();
    sayings_end_with_runs();
    tokens_are_not_empty();
}

/// What is printed of an expression is read as that expression: the text spells it, where it may stand with these variables, its text
/// nests no deeper than it may, and its names, strings and integers have a spelling.
pub fn printed_expressions_are_read()
    ensures { (variables : List (List ℕ)) (t : Tree) → IsTrue ((part_of_tree t).fits (record { given = variables; bound = [] })) → nesting_of_tree t ≤ 200 → IsSpelled t → Spells variables (printed t) t }
{
    scanner_follows_the_rules();
}

/// What any text spells is read again from its printed form: the text of Unicode scalar values, which the characters of every text
/// are, spells an expression only where the printed form of that expression spells it too, with the same variables.
pub fn spelled_expressions_are_printed()
    ensures { (variables : List (List ℕ)) (text : List ℕ) (t : Tree) → IsTrue (all_scalars text) → Spells variables text t → Spells variables (printed t) t }
{
    read_expressions_fit();
    scanner_follows_the_rules();
    tokens_are_well_spelled();
}

/// Abbreviations stand for their longer forms: a text that spells an expression spells the same one where `@` and `|` are written out, but a `|` behind a
/// `/` that stands alone, and literals of one string and names of one function before its arguments, as `count` and `fn:count`, are put for each other;
/// `//` and `..` are written out too, where one more thing may be open, since the parentheses of a kind test nest (XPath 2.0, 3.2.4, 3.3.3, 3.1.1 and 3.1.5).
pub fn abbreviations_stand_for_longer_forms()
    ensures as_deep { (variables : List (List ℕ)) (text other : List ℕ) (tokens others : List Lexed) (tree : Tree) → Tokens (size text) text tokens (ends.Text (size text)) →
        Tokens (size other) other others (ends.Text (size other)) → WrittenOut false [] tokens others → Spells variables text tree → Spells variables other tree }
    ensures with_kind_tests { (variables : List (List ℕ)) (other : List ℕ) (tokens others : List Lexed) (a : Operand) → Tokens (size other) other others (ends.Text (size other)) →
        WrittenOut true [] tokens others → Reads reach.All r.Expr 1 tokens [] a → first_fault variables a.names ≡ None → Spells variables other a.tree }
{
    tokens_are_one();
}

/// A step without an axis is one along `child`: a test with its predicates is read as the same step with `child::` before it and without (XPath 2.0, 3.2.4).
pub fn steps_without_axis_are_children()
    ensures without_axis { (depth : ℕ) (xs ys zs : List Lexed) (test : NodeTest) (predicates : List Operand) → Reads reach.All r.NodeTest depth xs ys test → Reads reach.All r.PredicateList depth ys zs predicates →
        Reads reach.All r.StepExpr depth xs zs (child_step test predicates) }
    ensures with_axis { (depth from to : ℕ) (xs ys zs : List Lexed) (test : NodeTest) (predicates : List Operand) → Reads reach.All r.NodeTest depth xs ys test → Reads reach.All r.PredicateList depth ys zs predicates →
        Reads reach.All r.StepExpr depth (along_child from to xs) zs (child_step test predicates) }
{}

/// Comments change nothing, and neither does white space: of words that each spell a token, with a gap of white space and comments before the first one
/// and behind each, which is not empty between two words, the tokens are these words, and a text of them spells what it spells with one space behind each
/// (XPath 2.0, 2.6 and A.2.4.1). Two texts that have tokens up to their ends, with a gap that is not empty between them, have the tokens of both, the second
/// ones moved. Two texts whose tokens are the same words spell the same, also where nothing stands between some of them.
pub fn comments_change_nothing()
    ensures tokens { (front : List ℕ) (pieces : List Piece) → IsGap front → ArePieces pieces →
        Tokens (size (front ++ gapped pieces)) (front ++ gapped pieces) (located (size front) pieces) (ends.Text (size (front ++ gapped pieces))) }
    ensures without_gaps { (variables : List (List ℕ)) (front : List ℕ) (pieces : List Piece) (tree : Tree) → IsGap front → ArePieces pieces →
        Spells variables (front ++ gapped pieces) tree → Spells variables (spaced (words_in pieces)) tree }
    ensures with_gaps { (variables : List (List ℕ)) (front : List ℕ) (pieces : List Piece) (tree : Tree) → IsGap front → ArePieces pieces →
        Spells variables (spaced (words_in pieces)) tree → Spells variables (front ++ gapped pieces) tree }
    ensures joined { (before gap after : List ℕ) (firsts others : List Lexed) → IsGap gap → gap ≢ [] → Tokens (size before) before firsts (ends.Text (size before)) →
        Tokens (size after) after others (ends.Text (size after)) →
        Tokens (size (before ++ gap ++ after)) (before ++ gap ++ after) (firsts ++ moved (size before + size gap) others) (ends.Text (size (before ++ gap ++ after))) }
    ensures same_words { (variables : List (List ℕ)) (text other : List ℕ) (tokens others : List Lexed) (tree : Tree) → Tokens (size text) text tokens (ends.Text (size text)) →
        Tokens (size other) other others (ends.Text (size other)) → words_of tokens ≡ words_of others → Spells variables text tree → Spells variables other tree }
{
    scanner_follows_the_rules();
    tokens_are_one();
}

/// Each function of XPath is called by its name, with the prefix `fn:` and without it. So the prefix may be added to the name before the arguments of a
/// call, and dropped, which leaves the expression as it is (`abbreviations_stand_for_longer_forms`).
pub fn prefix_of_functions_is_optional()
    ensures with_prefix { (f : Function) → callee_of (codes "fn:" ++ function_name f) ≡ Some (callee.XPath f) }
    ensures without_prefix { (f : Function) → callee_of (function_name f) ≡ Some (callee.XPath f) }
    ensures prefix_added { (nests : Bool) (behind xs ys : List Lexed) (f : Function) (from to : ℕ) → begins_with_parenthesis xs ≡ true → WrittenOut nests behind xs ys →
        WrittenOut nests behind (lexed kinds.Name (function_name f) from ∷ xs) (lexed kinds.Name (codes "fn:" ++ function_name f) to ∷ ys) }
    ensures prefix_dropped { (nests : Bool) (behind xs ys : List Lexed) (f : Function) (from to : ℕ) → begins_with_parenthesis xs ≡ true → WrittenOut nests behind xs ys →
        WrittenOut nests behind (lexed kinds.Name (codes "fn:" ++ function_name f) from ∷ xs) (lexed kinds.Name (function_name f) to ∷ ys) }
{}

/// Parentheses leave no trace: an expression in parentheses, where one more thing may be open, is read as the expression, but that it is no literal and
/// no variable alone. What any level of operators reads, each level reads in parentheses, the same one too. What stands around them is another matter:
/// `(/) * 2` is an expression and `/ * 2` is none. And a text whose tokens say an expression where one more thing may be open spells that in parentheses, too.
pub fn parentheses_leave_no_trace()
    ensures operands { (depth : ℕ) (xs ys zs us : List Lexed) (a : Operand) → Takes reach.All (suc depth) (t "(") xs ys → Reads reach.All r.Expr (suc depth) ys zs a → Takes reach.All depth (t ")") zs us →
        Reads reach.All r.PrimaryExpr depth xs us (other a.tree a.names) }
    ensures levels { (inner outer : Rule) (depth : ℕ) (xs ys zs us : List Lexed) (a : Operand) → IsTrue (is_level outer) → Takes reach.All (suc depth) (t "(") xs ys → LevelReads inner (suc depth) ys zs a →
        Takes reach.All depth (t ")") zs us → LevelReads outer depth xs us (other a.tree a.names) }
    ensures texts { (variables : List (List ℕ)) (text : List ℕ) (tokens others : List Lexed) (from to : ℕ) (a : Operand) →
        Tokens (size text) text (sign s.LeftParenthesis "(" from ∷ others) (ends.Text (size text)) → WrittenOut false (sign s.RightParenthesis ")" to ∷ []) tokens others →
        Reads reach.All r.Expr 1 tokens [] a → first_fault variables a.names ≡ None → Spells variables text a.tree }
{}
