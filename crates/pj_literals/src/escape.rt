//! Escape sequences (JLS 3.10.7).

ghost use Rattle.std.specs.Prelude.{◌≡◌, ◌==◌, if◌then◌else◌, false, [], ◌∷◌, ◌++◌, IfOk, OnOk, string_bytes, MatchOption, option_to_list, take, drop};
ghost use Rattle.std.specs.Str.{encode_utf8_all};
ghost use Rattle.pj_lex.specs.Characters.{OctalDigit};
ghost use Rattle.pj_literals.specs.Digits.{number};
ghost use Rattle.pj_literals.specs.Escapes.{stands_at, octal_length, escape_length, escape_value, letter_value, interpreted};
ghost use Rattle.pj_literals.specs.Reading.{IsOctalDigitAt, Takes};

use pj_base::{NoMemory, Text};
use std::alloc::Global;

/// What the characters stand for: each escape for its character, any other character for itself.
pub fn interpreted(alloc: Global, content: &[char]) -> Result<Text, NoMemory>
    ensures { IfOk result (λ made. made ≡ encode_utf8_all (interpreted content.now)) }
{
    let mut made = String::new(alloc);
    let mut rest = content;
    while let Some(front) = front(rest) {
        append(&mut made, front.value)?;
        rest = front.behind;
    }
    Ok(Text::from_string(made))
}

/// The front of a text, which is a character or an escape: the character that it stands for, if it stands for one, and what is behind it.
#[derive(Clone, Copy)]
struct Taken<'t> {
    value: Option<char>,
    behind: &'t [char],
}

/// The front of a text that is not empty.
fn front<'t>(text: &'t [char]) -> Option<Taken<'t>>
    ensures { MatchOption result (text.now ≡ []) (λ front. Takes text.now (option_to_list front.value) front.behind.now) }
{
    match text.split_first() {
        None => None,
        Some(('\\', behind)) => Some(escape(behind)),
        Some((c, behind)) => Some(Taken {
            value: Some(*c),
            behind,
        }),
    }
}

/// Puts the character at the end, if there is one.
fn append(made: &mut String, value: Option<char>) -> Result<(), NoMemory>
    ensures { OnOk result (string_bytes made.new ≡ string_bytes made.old ++ encode_utf8_all (option_to_list value)) }
{
    if let Some(c) = value {
        made.push(c)?;
    }
    Ok(())
}

/// The escape whose backslash stands before these characters.
fn escape<'t>(text: &'t [char]) -> Taken<'t>
    ensures value { option_to_list result.value ≡ escape_value text.now }
    ensures behind { result.behind.now ≡ drop (escape_length text.now) text.now }
{
    match text.split_first() {
        None => Taken {
            value: None,
            behind: text,
        },
        Some((first, behind)) => match octal_digit(text, 0) {
            Some(digit) => octal(text, digit),
            None => Taken {
                value: letter(*first),
                behind,
            },
        },
    }
}

/// What the letter of an escape stands for, or the line feed of one.
fn letter(c: char) -> Option<char>
    ensures { option_to_list result ≡ (if c == 10 then [] else letter_value c ∷ []) }
{
    match c {
        'b' => Some('\x08'),
        's' => Some(' '),
        't' => Some('\t'),
        'n' => Some('\n'),
        'f' => Some('\x0c'),
        'r' => Some('\r'),
        '\n' => None,
        _ => Some(c),
    }
}

/// The octal escape that begins with this digit.
fn octal<'t>(text: &'t [char], first: u8) -> Taken<'t>
    requires { IsOctalDigitAt text.now 0 first }
    ensures value { option_to_list result.value ≡ number 8 (take (octal_length text.now) text.now) ∷ [] }
    ensures behind { result.behind.now ≡ drop (octal_length text.now) text.now }
{
    let Some(second) = octal_digit(text, 1) else {
        return Taken {
            value: Some(char::from(first)),
            behind: &text[1..],
        };
    };
    let two = first * 8 + second;
    match octal_digit(text, 2) {
        Some(third) if first < 4 => Taken {
            value: Some(char::from(two * 8 + third)),
            behind: &text[3..],
        },
        _ => Taken {
            value: Some(char::from(two)),
            behind: &text[2..],
        },
    }
}

/// The octal digit at this place, if one stands there.
fn octal_digit(text: &[char], place: usize) -> Option<u8>
    ensures { MatchOption result (stands_at OctalDigit place text.now ≡ false) (IsOctalDigitAt text.now place) }
{
    match text.get(place) {
        Some(c) if '0' <= *c && *c <= '7' => Some(*c as u8 - b'0'),
        _ => None,
    }
}
