//! Oracles that note the names that they are asked.
use crate::classes::Classes;
use pj_base::{NoMemory, Text};
use pj_names::{Answer, AskFault, ClassName, Oracle};
use std::alloc::Global;
use std::sync::Arc;

/// The names that were asked, in their order, with a space before each. That of a class without a name is noted without its number.
#[derive(Drop)]
pub struct Noted {
    alloc: Global,
    names: Text,
    /// Whether a name is noted as often as it is asked, and not just once.
    is_each_time: bool,
}

impl Noted {
    /// None.
    pub fn new(alloc: Global, is_each_time: bool) -> Noted {
        Noted {
            alloc,
            names: Text::new(alloc),
            is_each_time,
        }
    }

    /// The names.
    pub fn as_str(&self) -> &str {
        self.names.as_str()
    }

    /// Forgets them.
    pub fn forget(&mut self) {
        self.names = Text::new(self.alloc);
    }

    /// Notes a name.
    pub fn note(&mut self, name: &str) -> Result<(), NoMemory> {
        let name = without_number(name);
        if !self.is_each_time && is_among(self.names.as_str(), name) {
            return Ok(());
        }
        self.names.push_str(" ")?;
        self.names.push_str(name)
    }
}

/// The name of a local or anonymous class up to its number, as `A$$`, and every other name.
pub fn without_number(name: &str) -> &str {
    match name.rsplit_once("$$") {
        Some((_, number)) => name.strip_suffix(number).unwrap_or(name),
        None => name,
    }
}

/// Whether the name is among some, with spaces between.
fn is_among(names: &str, name: &str) -> bool {
    for other in names.split(' ') {
        if other == name {
            return true;
        }
    }
    false
}

/// The classes that a row writes out, and what is asked of them.
#[derive(Drop)]
pub struct Beneath {
    classes: Classes,
    pub noted: Noted,
}

impl Beneath {
    /// The classes of these lines, of which none was asked.
    pub fn of(alloc: Global, lines: &str) -> Result<Beneath, NoMemory> {
        let classes = Classes::of(alloc, lines)?;
        Ok(Beneath {
            classes,
            noted: Noted::new(alloc, false),
        })
    }

    /// Forgets what was asked.
    pub fn forget(&mut self) {
        self.noted.forget();
    }
}

impl Oracle for Beneath {
    ghost use Rattle.std.specs.Prelude.{[], false};
    ghost use Rattle.std.specs.FinSet as set;
    ghost use Rattle.pj_names.specs.AnswerList.{list_world};

    ghost Kept = { Unit {0} };

    ghost tells = { λ world. record { is_told = false; world = λ depth. list_world []; kept = tt; asked = set.empty; faults = 0 } };

    fn ask(&mut self, name: &ClassName) -> Result<Arc<Answer>, AskFault> {
        self.noted.note(name.as_str())?;
        let answer = self.classes.answer(name)?;
        Ok(answer)
    }
}

/// An oracle, and what is asked of it. Where a row writes a class out, that answer counts, and not the oracle's.
#[derive(Drop)]
pub struct Over<'a, O> {
    pub inner: &'a mut O,
    pub classes: Classes,
    pub noted: Noted,
}

impl<'a, O: Oracle> Over<'a, O> {
    /// The answer for a name, which is not noted.
    pub fn answer(&mut self, name: &ClassName) -> Result<Arc<Answer>, NoMemory> {
        if self.classes.has(name) {
            return self.classes.answer(name);
        }
        match self.inner.ask(name) {
            Ok(answer) => Ok(answer),
            Err(_) => Err(NoMemory),
        }
    }
}

impl<'a, O: Oracle> Oracle for Over<'a, O> {
    ghost use Rattle.std.specs.Prelude.{[], false};
    ghost use Rattle.std.specs.FinSet as set;
    ghost use Rattle.pj_names.specs.AnswerList.{list_world};

    ghost Kept = { Unit {0} };

    ghost tells = { λ world. record { is_told = false; world = λ depth. list_world []; kept = tt; asked = set.empty; faults = 0 } };

    fn ask(&mut self, name: &ClassName) -> Result<Arc<Answer>, AskFault> {
        self.noted.note(name.as_str())?;
        let answer = self.answer(name)?;
        Ok(answer)
    }
}
