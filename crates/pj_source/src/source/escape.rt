//! Unicode escapes.

ghost use Rattle.std.specs.Prelude.{ℕ, List, ◌≡◌, ◌+◌, ◌<◌, ◌≤◌, ◌∷◌, ◌++◌, length, replicate, MatchOption, IfSome, false};
ghost use Rattle.std.specs.Char.{digit_value};
ghost use Rattle.std.specs.Str.{chars};
ghost use Rattle.pj_base.specs.Front.{starts_with};
ghost use Rattle.pj_source.specs.Escapes.{AreDigits, IsEscape, BeginsWithNoEscape};
ghost use Rattle.pj_source.specs.Translating.{BeginsWithNoDigit, BeginsWithNoDigits};

use pj_base::{split_first, strip};

/// An escape at the front of a text.
#[derive(Clone, Copy)]
pub struct Escape<'s> {
    /// The unit of UTF-16 that it stands for.
    pub unit: u32,
    /// How many characters it has.
    pub length: u32,
    /// The text behind it.
    pub behind: &'s str,
}

/// The value of the hexadecimal digit at the front, and the text behind it.
fn split_digit<'s>(text: &'s str) -> Option<(u32, &'s str)>
    ensures digit { MatchOption result (BeginsWithNoDigit (chars text.now)) (λ p. (c : ℕ) × ((chars text.now ≡ c ∷ chars p.1.now) × (p.0 ≡ digit_value c))) }
    ensures small { IfSome result (λ p. p.0 < 16) }
    ensures len { IfSome result (λ p. length text.now ≡ 1 + length p.1.now) }
{
    let (c, behind) = split_first(text)?;
    let digit = c.to_digit(16)?;
    Some((digit, behind))
}

/// The number that the four hexadecimal digits at the front write, and the text behind them.
fn split_digits<'s>(text: &'s str) -> Option<(u32, &'s str)>
    ensures digits { MatchOption result (BeginsWithNoDigits (chars text.now)) (λ p. (w : List ℕ) × ((chars text.now ≡ w ++ chars p.1.now) × AreDigits w p.0)) }
    ensures small { IfSome result (λ p. p.0 < 65536) }
    ensures len { IfSome result (λ p. length text.now ≡ 4 + length p.1.now) }
{
    let (a, behind) = split_digit(text)?;
    let (b, behind) = split_digit(behind)?;
    let (c, behind) = split_digit(behind)?;
    let (d, behind) = split_digit(behind)?;
    Some((((a * 16 + b) * 16 + c) * 16 + d, behind))
}

/// How many `u` stand at the front, and the text behind them.
fn split_markers<'s>(text: &'s str) -> (u32, &'s str)
    requires { length text.now ≤ 4294967294 }
    ensures chars { chars text.now ≡ replicate result.0 117 ++ chars result.1.now }
    ensures behind { starts_with 117 (chars result.1.now) ≡ false }
    ensures len { length text.now ≡ result.0 + length result.1.now }
{
    let mut count = 0;
    let mut rest = text;
    while let Some(behind) = strip(rest, 'u') {
        count += 1;
        rest = behind;
    }
    (count, rest)
}

/// The escape at the front: a backslash, one `u` or more, and four hexadecimal digits.
pub fn split_escape<'s>(text: &'s str) -> Option<Escape<'s>>
    requires { length text.now ≤ 4294967294 }
    ensures escape { MatchOption result (BeginsWithNoEscape (chars text.now)) (λ e. (w : List ℕ) × ((chars text.now ≡ w ++ chars e.behind.now) × (IsEscape w e.unit × (e.length ≡ length w)))) }
    ensures small { IfSome result (λ e. e.unit < 65536) }
    ensures len { IfSome result (λ e. length text.now ≡ e.length + length e.behind.now) }
    ensures long { IfSome result (λ e. 6 ≤ e.length) }
{
    let behind = strip(text, '\\')?;
    let behind = strip(behind, 'u')?;
    let (more, behind) = split_markers(behind);
    let (unit, behind) = split_digits(behind)?;
    Some(Escape {
        unit,
        length: more + 6,
        behind,
    })
}
