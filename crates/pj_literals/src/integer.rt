//! The values of integer literals.

ghost use Rattle.std.specs.Prelude.{◌≡◌, ◌+◌, ◌*◌, ◌%◌, ◌^◌, ◌<◌, ◌≤◌, [], ◌∷◌, None, FitsSigned, MatchOption};
ghost use Rattle.std.specs.Int.{w64};
ghost use Rattle.std.specs.Option.{SomeIff};
ghost use Rattle.std.specs.Str.{chars};
ghost use Rattle.pj_literals.specs.Digits.{number_in};
ghost use Rattle.pj_literals.specs.IntegerValue.{IsInteger, radix_behind_zero, radix_of, is_long, integer_value};

use pj_base::split_first;

/// The value of an integer literal (JLS 3.10.1): a decimal literal has its number, one of another radix is the bits of an `int`, or of a `long` with
/// the suffix `L`, and further bits are lost. `None` comes exactly where the value does not fit 64 bits, so of decimal literals alone.
/// No memory is taken.
pub fn integer_value(text: &str) -> Option<i64>
    requires spelling { IsInteger (chars text.now) }
    ensures value { SomeIff result (FitsSigned w64 (integer_value (chars text.now))) (integer_value (chars text.now)) }
{
    value(text)
}

/// The same, of any text, read as an integer literal.
pub fn value(text: &str) -> Option<i64>
    ensures value { SomeIff result (FitsSigned w64 (integer_value (chars text.now))) (integer_value (chars text.now)) }
{
    let radix = radix(text);
    if radix == 10 {
        i64::try_from(decimal(text)?).ok()
    } else if is_long(text) {
        Some(low_bits(text, radix).cast_signed())
    } else {
        let bits = low_bits(text, radix) % (1 << 32);
        Some(i64::from((bits as u32).cast_signed()))
    }
}

/// The radix, by the first two characters.
fn radix(text: &str) -> u32
    ensures value { result ≡ radix_of (chars text.now) }
{
    match split_first(text) {
        Some(('0', behind)) => match split_first(behind) {
            Some((c, _)) => radix_behind_zero(c),
            None => 10,
        },
        _ => 10,
    }
}

/// The radix of a literal that begins with `0` and this character.
fn radix_behind_zero(c: char) -> u32
    ensures { result ≡ radix_behind_zero c }
{
    match c {
        'x' | 'X' => 16,
        'b' | 'B' => 2,
        '0'..='7' | '_' => 8,
        _ => 10,
    }
}

/// Whether the suffix is there.
fn is_long(text: &str) -> bool
    ensures value { result ≡ is_long (chars text.now) }
{
    text.chars().any(|c| c == 'l' || c == 'L')
}

/// The number of decimal digits, where it is below 2^64.
fn decimal(text: &str) -> Option<u64>
    ensures value { SomeIff result (number_in 10 (chars text.now) < 2 ^ 64) (number_in 10 (chars text.now)) }
{
    let mut value: Option<u64> = Some(0);
    for c in text.chars() {
        if let Some(digit) = c.to_digit(10) {
            value = behind_digit(value, digit);
        }
    }
    value
}

/// The number with one more decimal digit behind it, where it is below 2^64.
fn behind_digit(value: Option<u64>, digit: u32) -> Option<u64>
    ensures { MatchOption value (result ≡ None) (λ before. SomeIff result (before * 10 + digit < 2 ^ 64) (before * 10 + digit)) }
{
    value?.checked_mul(10)?.checked_add(u64::from(digit))
}

/// The last 64 bits of the number that digits of the radix spell.
fn low_bits(text: &str, radix: u32) -> u64
    requires lower_bound { 2 ≤ radix }
    requires upper_bound { radix ≤ 36 }
    ensures value { result ≡ number_in radix (chars text.now) % 2 ^ 64 }
{
    let mut value: u64 = 0;
    for c in text.chars() {
        if let Some(digit) = c.to_digit(radix) {
            value = value
                .wrapping_mul(u64::from(radix))
                .wrapping_add(u64::from(digit));
        }
    }
    value
}
