//! What holds of the values of all literals. Each call does nothing: its contract is the law.

ghost use Rattle.std.specs.Prelude.{◌≡◌, ◌≢◌, ◌==◌, ◌∷◌, ◌++◌, ℕ, List, pos, IsTrue, IsFalse, All};
ghost use Rattle.std.specs.List.{list_any};
ghost use Rattle.std.specs.Str.{chars};
ghost use Rattle.pj_lex.specs.Characters.{is_escape_letter};
ghost use Rattle.pj_lex.specs.Numbers.{decimal_numeral, hex_numeral, octal_numeral, binary_numeral};
ghost use Rattle.pj_lex.specs.Pattern.{Matches};
ghost use Rattle.pj_lex.specs.Quoted.{octal_escape};
ghost use Rattle.pj_lex.specs.Tokens.{Lexed, Tokens};
ghost use Rattle.pj_literals.specs.Digits.{number, number_in};
ghost use Rattle.pj_literals.specs.Escapes.{letter_value, interpreted};
ghost use Rattle.pj_literals.specs.IntegerValue.{integer_value};
ghost use Rattle.pj_literals.specs.Spellings.{IsNumeral, CountsBy, IsWholeEscape, IsSpelled};
ghost use Rattle.pj_literals.specs.TextBlock.{without_incidental};

/// The value of an integer literal by the rule of JLS 3.10.1 that spells its numeral.
pub fn integers_count_by_their_rules(text: &str)
    ensures decimal { (n s : List ℕ) → IsNumeral decimal_numeral (chars text.now) n s → integer_value (chars text.now) ≡ pos (number_in 10 n) }
    ensures hexadecimal { CountsBy hex_numeral 16 (chars text.now) }
    ensures octal { CountsBy octal_numeral 8 (chars text.now) }
    ensures binary { CountsBy binary_numeral 2 (chars text.now) }
{
    let _ = text;
}

/// What stands before a text, a character or an escape by the cases of JLS 3.10.7; and a text without a backslash, which is its own meaning.
pub fn escapes_by_case(behind: &str)
    ensures plain { (c : ℕ) → c ≢ 92 → interpreted (c ∷ chars behind.now) ≡ c ∷ interpreted (chars behind.now) }
    ensures letter { (c : ℕ) → IsTrue (is_escape_letter c) → interpreted (92 ∷ c ∷ chars behind.now) ≡ letter_value c ∷ interpreted (chars behind.now) }
    ensures octal { (digits : List ℕ) → Matches octal_escape digits → IsWholeEscape digits (chars behind.now)
        → interpreted (92 ∷ (digits ++ chars behind.now)) ≡ number 8 digits ∷ interpreted (chars behind.now) }
    ensures continued { interpreted (92 ∷ 10 ∷ chars behind.now) ≡ interpreted (chars behind.now) }
    ensures unescaped { IsFalse (list_any (λ c. c == 92) (chars behind.now)) → interpreted (chars behind.now) ≡ chars behind.now }
{
    let _ = behind;
}

/// Lines without incidental white space have none that could be removed.
pub fn stripping_is_done_once()
    ensures { (lines : List (List ℕ)) → without_incidental (without_incidental lines) ≡ without_incidental lines }
{}

/// The tokens of a text that are literals are spelled as `integer_value` and `string_value` want them.
pub fn tokens_are_spelled(text: &str)
    ensures { (at : ℕ) (ls : List Lexed) → Tokens at (chars text.now) ls → All IsSpelled ls }
{
    let _ = text;
}
