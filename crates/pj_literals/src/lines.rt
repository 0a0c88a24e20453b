//! The lines of a text (JLS 3.4 and 3.10.6).

ghost use Rattle.std.specs.Prelude.{◌≡◌, ◌==◌, List, [], ◌∷◌, ℕ, length, drop, MatchOption};
ghost use Rattle.pj_literals.specs.Lines.{lines_of, behind_return};

use std::marker::Model;

/// The lines that are still to be given. Contracts see them as their list.
#[derive(Drop)]
pub struct Lines<'t> {
    rest: Option<&'t [char]>,
}

impl<'t> Model for Lines<'t> {
    ghost use Rattle.std.specs.Prelude.{List, ℕ};
    ghost use Rattle.std.specs.Option.{option_copied};
    ghost use Rattle.pj_literals.specs.Lines.{lines_left};

    ghost Value = { List (List ℕ) };

    ghost view = { λ l. lines_left (option_copied l.rest) };
}

impl<'t> Lines<'t> {
    /// The lines of a text.
    pub fn of(text: &'t [char]) -> Lines<'t>
        ensures { result ≡ lines_of text.now }
    {
        Lines { rest: Some(text) }
    }

    /// Whether no line is left.
    pub fn is_empty(&self) -> bool
        ensures { result ≡ (length self.now == 0) }
    {
        self.rest.is_none()
    }

    /// The next line.
    pub fn next_line(&mut self) -> Option<&'t [char]>
        ensures first { MatchOption result (self.old ≡ []) (λ line. self.old ≡ line.now ∷ self.new) }
        ensures rest { self.new ≡ drop 1 self.old }
    {
        let text = self.rest?;
        let (line, behind) = split_line(text);
        self.rest = behind;
        Some(line)
    }
}

/// The first line, and what stands behind its terminator, if it has one.
fn split_line<'t>(text: &'t [char]) -> (&'t [char], Option<&'t [char]>)
    ensures { MatchOption result.1 (lines_of text.now ≡ result.0.now ∷ []) (λ behind. lines_of text.now ≡ result.0.now ∷ lines_of behind.now) }
{
    for i in 0..text.len() {
        let c = text[i];
        if c == '\n' {
            return (&text[..i], Some(&text[i + 1..]));
        }
        if c == '\r' {
            return (&text[..i], Some(behind_return(&text[i + 1..])));
        }
    }
    (text, None)
}

/// What stands behind a carriage return, and behind the line feed that belongs to it.
fn behind_return<'t>(text: &'t [char]) -> &'t [char]
    ensures { result.now ≡ behind_return text.now }
{
    match text.split_first() {
        Some(('\n', behind)) => behind,
        _ => text,
    }
}
