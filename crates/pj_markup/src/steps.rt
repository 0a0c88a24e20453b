//! How a character goes on with what was read.

ghost use Rattle.std.specs.Prelude.{◌≡◌, ◌+◌, ◌≤◌, ◌<◌, IfOk, OnOk, MatchOption, length, false, true, not, nat_le, slice_get, ℕ, Option, None, Some};
ghost use Rattle.std.specs.Str.{encode_utf8_all};
ghost use Rattle.pj_markup.specs.Elements.{with_attribute};
ghost use Rattle.pj_markup.specs.Depth.{greatest_depth};
ghost use Rattle.pj_markup.specs.Seen.{state_of, frame_of, ground_of, target_of, word_of, long_of, name_of, meant_by, Went};
ghost use Rattle.pj_markup.specs.States as s;
ghost use Rattle.pj_markup.specs.declared.reader.Reader.{Reader};

use crate::around::Around;
use crate::attributes::Attributes;
use crate::characters::{
    base, continues_name, digit, is_quote, is_scalar, is_space, starts_name, text_of,
};
use crate::element::{Element, Row, row_of};
use crate::reader::{Reader, nothing};
use crate::state::{Entity, Ground, Long, Mode, Target, Word};
use pj_base::{ListOf, NoMemory, Text};
use std::mem::replace;

/// How deep an element may stand; the root has depth 1.
pub const GREATEST_DEPTH: usize = 64;

static DASHES: [char; 2] = ['-', '-'];

static OPEN_SECTION: [char; 7] = ['[', 'C', 'D', 'A', 'T', 'A', '['];

static EMPTY: [char; 2] = ['/', '>'];

static LESS: [char; 3] = ['l', 't', ';'];

static GREATER: [char; 3] = ['g', 't', ';'];

static AMPERSAND: [char; 4] = ['a', 'm', 'p', ';'];

static QUOTE: [char; 5] = ['q', 'u', 'o', 't', ';'];

static APOSTROPHE: [char; 5] = ['a', 'p', 'o', 's', ';'];

/// The name of an entity and `;`.
fn name_of(entity: Entity) -> &'static [char]
    ensures { result.now ≡ name_of entity }
{
    match entity {
        Entity::Less => &LESS,
        Entity::Greater => &GREATER,
        Entity::Ampersand => &AMPERSAND,
        Entity::Quote => &QUOTE,
        Entity::Apostrophe => &APOSTROPHE,
    }
}

/// The character that an entity stands for.
fn meant_by(entity: Entity) -> char
    ensures { result ≡ meant_by entity }
{
    match entity {
        Entity::Less => '<',
        Entity::Greater => '>',
        Entity::Ampersand => '&',
        Entity::Quote => '"',
        Entity::Apostrophe => '\'',
    }
}

/// The character that repeats before the last one of the closing sign.
fn repeated(long: Long) -> char
    ensures { (r : Reader) → result ≡ s.repeated (long_of long r) }
{
    match long {
        Long::Comment(_) => '-',
        Long::Instruction(_) => '?',
        Long::Section => ']',
    }
}

/// How often it repeats there.
fn times(long: Long) -> u8
    ensures { (r : Reader) → result ≡ s.times (long_of long r) }
{
    match long {
        Long::Comment(_) => 2,
        Long::Instruction(_) => 1,
        Long::Section => 2,
    }
}

/// Where what went up to a closing sign stands.
fn behind_long(long: Long) -> Ground
    ensures { (r : Reader) → ground_of result r ≡ s.behind_long (long_of long r) }
{
    match long {
        Long::Comment(ground) => ground,
        Long::Instruction(ground) => ground,
        Long::Section => Ground::Inside,
    }
}

impl Reader {
    /// The element has ended.
    fn close(&mut self) -> Result<(), NoMemory>
        ensures { OnOk result (state_of self.new ≡ s.close (frame_of self.old)) }
    {
        let Ok(number) = u32::try_from(self.rows.len()) else {
            return Err(NoMemory);
        };
        let element = replace(&mut self.element, nothing(self.alloc, 0));
        self.rows.push(row_of(self.alloc, element)?)?;
        match self.outer.pop() {
            None => {
                self.mode = Mode::On(Ground::Outside);
            }
            Some(around) => {
                self.element = around;
                self.element.children.push(Element { number })?;
                self.mode = Mode::On(Ground::Inside);
            }
        }
        Ok(())
    }

    /// A reference stands for the character.
    fn put(&mut self, target: Target, c: char) -> Result<(), NoMemory>
        ensures { OnOk result (state_of self.new ≡ s.put (target_of target self.old) c) }
    {
        match target {
            Target::Content => {
                self.element.text.push(c)?;
                self.mode = Mode::On(Ground::Inside);
            }
            Target::Value => {
                self.value.push(c)?;
                self.mode = Mode::Value;
            }
        }
        Ok(())
    }

    /// A character is of what goes up to a closing sign.
    fn take_in(&mut self, long: Long, c: char) -> Result<(), NoMemory>
        ensures { OnOk result (long_of long self.new ≡ s.take_in (long_of long self.old) c) }
    {
        match long {
            Long::Comment(_) | Long::Instruction(_) => Ok(()),
            Long::Section => {
                self.element.text.push(c)?;
                Ok(())
            }
        }
    }

    /// So many of the characters that repeat in a closing sign are of what goes up to it.
    fn take_back(&mut self, long: Long, count: u8) -> Result<(), NoMemory>
        ensures { OnOk result (long_of long self.new ≡ s.take_back (long_of long self.old) count) }
    {
        if count == 0 {
            return Ok(());
        }
        self.take_in(long, repeated(long))?;
        self.take_back(long, count - 1)
    }

    /// The letters of a word.
    fn letters(&self, word: Word) -> &[char]
        ensures { result.now ≡ s.letters (word_of word self.now) }
    {
        match word {
            Word::Dashes(_) => &DASHES,
            Word::OpenSection => &OPEN_SECTION,
            Word::Empty => &EMPTY,
            Word::EndName => self.element.name.as_slice(),
            Word::Entity(_, entity) => name_of(entity),
        }
    }

    /// The letter of a word at a place, counted from 0.
    fn letter(&self, word: Word, place: usize) -> Option<char>
        ensures { result ≡ slice_get (s.letters (word_of word self.now)) place }
    {
        self.letters(word).get(place).copied()
    }

    /// A word is whole.
    fn end_word(&mut self, word: Word) -> Result<(), NoMemory>
        ensures { OnOk result (state_of self.new ≡ s.behind_word (word_of word self.old)) }
    {
        match word {
            Word::Dashes(ground) => {
                self.mode = Mode::Until(Long::Comment(ground), 0);
                Ok(())
            }
            Word::OpenSection => {
                self.mode = Mode::Until(Long::Section, 0);
                Ok(())
            }
            Word::Empty => self.close(),
            Word::EndName => {
                self.mode = Mode::EndSpace;
                Ok(())
            }
            Word::Entity(target, entity) => self.put(target, meant_by(entity)),
        }
    }

    /// So many letters of a word are read.
    fn spell(&mut self, word: Word, count: usize) -> Result<(), NoMemory>
        ensures { OnOk result (state_of self.new ≡ s.spelled (word_of word self.old) count) }
    {
        if count == self.letters(word).len() {
            return self.end_word(word);
        }
        self.mode = Mode::Letters(word, count);
        Ok(())
    }

    /// Whether a start tag may stand here: there is one root.
    fn may_start(&self, ground: Ground) -> bool
        ensures { result ≡ s.may_start (ground_of ground self.now) }
    {
        match ground {
            Ground::Outside => self.rows.is_empty(),
            Ground::Inside => true,
        }
    }

    /// Whether an element that starts here would stand deeper than may be.
    fn is_full(&self, ground: Ground) -> bool
        ensures { result ≡ not (nat_le (s.depth (ground_of ground self.now)) greatest_depth) }
    {
        match ground {
            Ground::Outside => false,
            Ground::Inside => self.outer.len() >= GREATEST_DEPTH - 1,
        }
    }

    /// The offset of the start tag that the character begins, where that stands too deep.
    pub fn deep(&self, c: char) -> Option<u32>
        ensures { MatchOption result (s.is_deep greatest_depth (state_of self.now) c ≡ false) (λ less. (s.is_deep greatest_depth (state_of self.now) c ≡ true) × (less ≡ s.less_of (state_of self.now))) }
    {
        match self.mode {
            Mode::Less(ground) => {
                if starts_name(c) && self.may_start(ground) && self.is_full(ground) {
                    Some(self.less)
                } else {
                    None
                }
            }
            _ => None,
        }
    }

    /// A start tag begins.
    fn start_tag(&mut self, ground: Ground, c: char) -> Result<(), NoMemory>
        ensures { OnOk result (state_of self.new ≡ s.start_tag (ground_of ground self.old) self.old.less c) }
    {
        let mut element = nothing(self.alloc, self.less);
        element.name.push(c)?;
        let around = replace(&mut self.element, element);
        match ground {
            Ground::Outside => {
                self.outer = Around::new(self.alloc);
            }
            Ground::Inside => {
                self.outer.push(around)?;
            }
        }
        self.mode = Mode::TagName;
        Ok(())
    }

    /// Behind something whole.
    fn on_ground(&mut self, ground: Ground, at: u32, c: char) -> Result<bool, NoMemory>
        ensures { IfOk result (λ on. Went on (s.on_ground (ground_of ground self.old) at c) (state_of self.new)) }
    {
        match ground {
            Ground::Outside => {
                if is_space(c) {
                    self.mode = Mode::On(Ground::Outside);
                    return Ok(true);
                }
                if c == '<' {
                    self.less = at;
                    self.mode = Mode::Less(Ground::Outside);
                    return Ok(true);
                }
                Ok(false)
            }
            Ground::Inside => {
                if c == '<' {
                    self.less = at;
                    self.mode = Mode::Less(Ground::Inside);
                    return Ok(true);
                }
                if c == '&' {
                    self.mode = Mode::Reference(Target::Content);
                    return Ok(true);
                }
                self.element.text.push(c)?;
                self.mode = Mode::On(Ground::Inside);
                Ok(true)
            }
        }
    }

    /// Behind `<`, where no start tag begins.
    fn on_slash(&mut self, ground: Ground, c: char) -> Result<bool, NoMemory>
        ensures { IfOk result (λ on. Went on (s.on_slash (ground_of ground self.old) c) (state_of self.new)) }
    {
        match ground {
            Ground::Outside => Ok(false),
            Ground::Inside => {
                if c == '/' {
                    self.spell(Word::EndName, 0)?;
                    return Ok(true);
                }
                Ok(false)
            }
        }
    }

    /// Behind `<`.
    fn on_less(&mut self, ground: Ground, c: char) -> Result<bool, NoMemory>
        ensures { IfOk result (λ on. Went on (s.on_less (ground_of ground self.old) self.old.less c) (state_of self.new)) }
    {
        if c == '!' {
            self.mode = Mode::Bang(ground);
            return Ok(true);
        }
        if c == '?' {
            self.mode = Mode::Until(Long::Instruction(ground), 0);
            return Ok(true);
        }
        let starts = starts_name(c) && self.may_start(ground);
        if starts {
            self.start_tag(ground, c)?;
            return Ok(true);
        }
        self.on_slash(ground, c)
    }

    /// Behind `<!`.
    fn on_bang(&mut self, ground: Ground, c: char) -> bool
        ensures { Went result (s.on_bang (ground_of ground self.old) c) (state_of self.new) }
    {
        match ground {
            Ground::Outside => {
                if c == '-' {
                    self.mode = Mode::Letters(Word::Dashes(Ground::Outside), 1);
                    return true;
                }
                false
            }
            Ground::Inside => {
                if c == '-' {
                    self.mode = Mode::Letters(Word::Dashes(Ground::Inside), 1);
                    return true;
                }
                if c == '[' {
                    self.mode = Mode::Letters(Word::OpenSection, 1);
                    return true;
                }
                false
            }
        }
    }

    /// Behind some letters of a word.
    fn on_letter(&mut self, word: Word, count: usize, c: char) -> Result<bool, NoMemory>
        ensures { IfOk result (λ on. Went on (s.on_letter (word_of word self.old) count c (slice_get (s.letters (word_of word self.old)) count)) (state_of self.new)) }
    {
        match self.letter(word, count) {
            None => Ok(false),
            Some(letter) => {
                if c == letter {
                    let Some(next) = count.checked_add(1) else {
                        return Err(NoMemory);
                    };
                    self.spell(word, next)?;
                    return Ok(true);
                }
                Ok(false)
            }
        }
    }

    /// Within what goes up to a closing sign.
    fn on_long(&mut self, long: Long, count: u8, c: char) -> Result<bool, NoMemory>
        ensures { IfOk result (λ on. Went on (s.on_long (long_of long self.old) count c) (state_of self.new)) }
    {
        if c == repeated(long) {
            if count == times(long) {
                self.take_in(long, c)?;
                self.mode = Mode::Until(long, count);
                return Ok(true);
            }
            let Some(next) = count.checked_add(1) else {
                return Err(NoMemory);
            };
            self.mode = Mode::Until(long, next);
            return Ok(true);
        }
        let closes = c == '>' && count == times(long);
        if closes {
            self.mode = Mode::On(behind_long(long));
            return Ok(true);
        }
        self.take_back(long, count)?;
        self.take_in(long, c)?;
        self.mode = Mode::Until(long, 0);
        Ok(true)
    }

    /// Behind the name of a start tag or an attribute.
    fn on_tag(&mut self, c: char) -> bool
        ensures { Went result (s.on_tag (frame_of self.old) c) (state_of self.new) }
    {
        if is_space(c) {
            self.mode = Mode::TagSpace;
            return true;
        }
        if c == '/' {
            self.mode = Mode::Letters(Word::Empty, 1);
            return true;
        }
        if c == '>' {
            self.mode = Mode::On(Ground::Inside);
            return true;
        }
        false
    }

    /// Behind the name of an attribute.
    fn on_equals(&mut self, c: char) -> bool
        ensures { Went result (s.on_equals (frame_of self.old) self.old.name c) (state_of self.new) }
    {
        if is_space(c) {
            self.mode = Mode::Equals;
            return true;
        }
        if c == '=' {
            self.mode = Mode::Quote;
            return true;
        }
        false
    }

    /// Behind `&`.
    fn on_reference(&mut self, target: Target, c: char) -> bool
        ensures { Went result (s.on_reference (target_of target self.old) c) (state_of self.new) }
    {
        if c == 'l' {
            self.mode = Mode::Letters(Word::Entity(target, Entity::Less), 1);
            return true;
        }
        if c == 'g' {
            self.mode = Mode::Letters(Word::Entity(target, Entity::Greater), 1);
            return true;
        }
        if c == 'q' {
            self.mode = Mode::Letters(Word::Entity(target, Entity::Quote), 1);
            return true;
        }
        if c == 'a' {
            self.mode = Mode::ReferenceA(target);
            return true;
        }
        if c == '#' {
            self.mode = Mode::Hash(target);
            return true;
        }
        false
    }

    /// Behind `&a`.
    fn on_reference_a(&mut self, target: Target, c: char) -> bool
        ensures { Went result (s.on_reference_a (target_of target self.old) c) (state_of self.new) }
    {
        if c == 'm' {
            self.mode = Mode::Letters(Word::Entity(target, Entity::Ampersand), 2);
            return true;
        }
        if c == 'p' {
            self.mode = Mode::Letters(Word::Entity(target, Entity::Apostrophe), 2);
            return true;
        }
        false
    }

    /// The first digit of a number, if it is one.
    fn first_digit(&mut self, target: Target, hexadecimal: bool, found: Option<u32>) -> bool
        ensures { Went result (s.first_digit (target_of target self.old) hexadecimal found) (state_of self.new) }
    {
        match found {
            None => false,
            Some(value) => {
                self.number = value;
                self.mode = Mode::Digits(target, hexadecimal);
                true
            }
        }
    }

    /// A further digit of a number, if it is one.
    fn next_digit(&mut self, target: Target, hexadecimal: bool, found: Option<u32>) -> bool
        ensures { Went result (s.next_digit (target_of target self.old) hexadecimal self.old.number found) (state_of self.new) }
    {
        match found {
            None => false,
            Some(value) => {
                let number = u64::from(self.number) * u64::from(base(hexadecimal))
                    + u64::from(value);
                if number <= 1_114_111 {
                    self.number = number as u32;
                    self.mode = Mode::Digits(target, hexadecimal);
                    return true;
                }
                false
            }
        }
    }

    /// Behind digits.
    fn on_digits(&mut self, target: Target, hexadecimal: bool, c: char) -> Result<bool, NoMemory>
        ensures { IfOk result (λ on. Went on (s.step 0 (s.Digits (target_of target self.old) hexadecimal self.old.number) c) (state_of self.new)) }
    {
        if c == ';' {
            if is_scalar(self.number) {
                let Some(meant) = char::from_u32(self.number) else {
                    return Err(NoMemory);
                };
                self.put(target, meant)?;
                return Ok(true);
            }
            return Ok(false);
        }
        Ok(self.next_digit(target, hexadecimal, digit(hexadecimal, c)))
    }

    /// In the name of an attribute.
    fn on_attribute_name(&mut self, c: char) -> Result<bool, NoMemory>
        ensures { IfOk result (λ on. Went on (s.step 0 (s.AttributeName (frame_of self.old) self.old.name) c) (state_of self.new)) }
    {
        if continues_name(c) {
            self.name.push(c)?;
            self.mode = Mode::AttributeName;
            return Ok(true);
        }
        let name = text_of(self.alloc, self.name.as_slice())?;
        if self.element.attributes.contains(&name) {
            return Ok(false);
        }
        Ok(self.on_equals(c))
    }

    /// The value of an attribute is whole.
    fn end_value(&mut self) -> Result<(), NoMemory>
        ensures { OnOk result (state_of self.new ≡ s.Tag (s.in_element (frame_of self.old) (with_attribute self.old.element (encode_utf8_all self.old.name) self.old.value))) }
    {
        let name = text_of(self.alloc, self.name.as_slice())?;
        let value = replace(&mut self.value, Text::new(self.alloc));
        let attributes = replace(&mut self.element.attributes, Attributes::new(self.alloc));
        self.element.attributes = attributes.with(name, value)?;
        self.mode = Mode::Tag;
        Ok(())
    }

    /// In the value of an attribute.
    fn on_value(&mut self, c: char) -> Result<bool, NoMemory>
        ensures { IfOk result (λ on. Went on (s.step 0 (s.InValue (frame_of self.old) self.old.name self.old.quote self.old.value) c) (state_of self.new)) }
    {
        if c == self.quote {
            self.end_value()?;
            return Ok(true);
        }
        if c == '<' {
            return Ok(false);
        }
        if c == '&' {
            self.mode = Mode::Reference(Target::Value);
            return Ok(true);
        }
        self.value.push(c)?;
        self.mode = Mode::Value;
        Ok(true)
    }

    /// Behind `=`.
    fn on_quote(&mut self, c: char) -> bool
        ensures { Went result (s.step 0 (s.Quote (frame_of self.old) self.old.name) c) (state_of self.new) }
    {
        if is_space(c) {
            self.mode = Mode::Quote;
            return true;
        }
        if is_quote(c) {
            self.quote = c;
            self.value = Text::new(self.alloc);
            self.mode = Mode::Value;
            return true;
        }
        false
    }

    /// Behind white space in a start tag.
    fn on_tag_space(&mut self, c: char) -> Result<bool, NoMemory>
        ensures { IfOk result (λ on. Went on (s.step 0 (s.TagSpace (frame_of self.old)) c) (state_of self.new)) }
    {
        if starts_name(c) {
            self.name = ListOf::new(self.alloc);
            self.name.push(c)?;
            self.mode = Mode::AttributeName;
            return Ok(true);
        }
        Ok(self.on_tag(c))
    }

    /// In the name of a start tag.
    fn on_tag_name(&mut self, c: char) -> Result<bool, NoMemory>
        ensures { IfOk result (λ on. Went on (s.step 0 (s.TagName (frame_of self.old)) c) (state_of self.new)) }
    {
        if continues_name(c) {
            self.element.name.push(c)?;
            self.mode = Mode::TagName;
            return Ok(true);
        }
        Ok(self.on_tag(c))
    }

    /// Behind the name in an end tag.
    fn on_end_space(&mut self, c: char) -> Result<bool, NoMemory>
        ensures { IfOk result (λ on. Went on (s.step 0 (s.EndSpace (frame_of self.old)) c) (state_of self.new)) }
    {
        if is_space(c) {
            self.mode = Mode::EndSpace;
            return Ok(true);
        }
        if c == '>' {
            self.close()?;
            return Ok(true);
        }
        Ok(false)
    }

    /// At the front of the text.
    fn on_front(&mut self, at: u32, c: char) -> Result<bool, NoMemory>
        ensures { IfOk result (λ on. Went on (s.step at s.Begin c) (state_of self.new)) }
    {
        self.rows = ListOf::new(self.alloc);
        if c == '\u{FEFF}' {
            self.mode = Mode::On(Ground::Outside);
            return Ok(true);
        }
        self.on_ground(Ground::Outside, at, c)
    }

    /// Behind `&#`.
    fn on_hash(&mut self, target: Target, c: char) -> bool
        ensures { Went result (s.step 0 (s.Hash (target_of target self.old)) c) (state_of self.new) }
    {
        if c == 'x' {
            self.mode = Mode::Digit(target, true);
            return true;
        }
        self.first_digit(target, false, digit(false, c))
    }

    /// Goes on with the character at an offset. `false` says that no document goes on so; then the reader is of no more use.
    pub fn step(&mut self, at: u32, c: char) -> Result<bool, NoMemory>
        ensures { IfOk result (λ on. Went on (s.step at (state_of self.old) c) (state_of self.new)) }
    {
        match self.mode {
            Mode::Begin => self.on_front(at, c),
            Mode::On(ground) => self.on_ground(ground, at, c),
            Mode::Less(ground) => self.on_less(ground, c),
            Mode::Bang(ground) => Ok(self.on_bang(ground, c)),
            Mode::Letters(word, count) => self.on_letter(word, count, c),
            Mode::Until(long, count) => self.on_long(long, count, c),
            Mode::TagName => self.on_tag_name(c),
            Mode::Tag => Ok(self.on_tag(c)),
            Mode::TagSpace => self.on_tag_space(c),
            Mode::AttributeName => self.on_attribute_name(c),
            Mode::Equals => Ok(self.on_equals(c)),
            Mode::Quote => Ok(self.on_quote(c)),
            Mode::Value => self.on_value(c),
            Mode::EndSpace => self.on_end_space(c),
            Mode::Reference(target) => Ok(self.on_reference(target, c)),
            Mode::ReferenceA(target) => Ok(self.on_reference_a(target, c)),
            Mode::Hash(target) => Ok(self.on_hash(target, c)),
            Mode::Digit(target, hexadecimal) => {
                Ok(self.first_digit(target, hexadecimal, digit(hexadecimal, c)))
            }
            Mode::Digits(target, hexadecimal) => self.on_digits(target, hexadecimal, c),
        }
    }

    /// The elements, where the text is a document.
    pub fn finish(self) -> Option<ListOf<Row>>
        ensures { (end : ℕ) → MatchOption result (s.at_end end (state_of self) ≡ s.Stops end) (λ rows. s.at_end end (state_of self) ≡ s.Whole rows) }
    {
        match self.mode {
            Mode::On(Ground::Outside) => {
                if self.rows.is_empty() {
                    return None;
                }
                let Reader { rows, .. } = self;
                Some(rows)
            }
            _ => None,
        }
    }
}
