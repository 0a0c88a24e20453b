//! A long chain of classes.
use crate::fixtures::{class, name};
use pj_base::{Names, NoMemory, Text};
use pj_names::{Answer, AskFault, ClassName, Oracle};
use pj_types::supertypes;
use std::alloc::Global;
use std::sync::Arc;
use std::test::Fail;

/// The classes `c.0` to `c.20000`, each the superclass of the one before it. It does not tell its world.
#[derive(Drop)]
struct Chain {
    alloc: Global,
    asked: u64,
}

impl Oracle for Chain {
    ghost use Rattle.std.specs.Prelude.{[], false};
    ghost use Rattle.std.specs.FinSet as set;
    ghost use Rattle.pj_names.specs.AnswerList.{list_world};

    ghost Kept = { Unit {0} };

    ghost tells = { λ chain. record { is_told = false; world = λ depth. list_world []; kept = tt; asked = set.empty; faults = 0 } };

    fn ask(&mut self, name: &ClassName) -> Result<Arc<Answer>, AskFault> {
        self.asked = self.asked.saturating_add(1);
        let answer = linked(self.alloc, name)?;
        Ok(Arc::new(self.alloc, answer)?)
    }
}

/// The number of the superclass of a class of the chain, where it has one.
fn next_number(name: &ClassName) -> Option<u32> {
    let digits = name.as_str().strip_prefix("c.")?;
    let number = digits.parse::<u32>().ok()?;
    if number < 20000 {
        Some(number + 1)
    } else {
        None
    }
}

/// The class of the chain of a name, where it is one.
fn linked(alloc: Global, name: &ClassName) -> Result<Answer, NoMemory> {
    match next_number(name) {
        Some(number) => {
            let signature = Text::from_string(format!(in alloc; "Lc/{number};")?);
            Ok(Answer::Found(class(alloc, name, signature)?))
        }
        None => Ok(Answer::Absent),
    }
}

/// The names of the supertypes of a class.
fn all_supertypes(alloc: Global, chain: &mut Chain, text: &str) -> Result<Names, Fail> {
    let name = name(alloc, text)?;
    Ok(supertypes(alloc, chain, &name)?)
}

/// Whether the name of a place is this.
fn is_name_at(names: &Names, place: usize, wanted: &str) -> bool {
    match names.get(place) {
        Some(name) => name.as_str() == wanted,
        None => false,
    }
}

#[test]
fn a_long_chain(rt: HostRuntime) -> Result<(), Fail> {
    let mut chain = Chain {
        alloc: rt.alloc(),
        asked: 0,
    };
    let names = all_supertypes(rt.alloc(), &mut chain, "c.0")?;
    assert!(rt; names.len() == 20001 && chain.asked == 20001);
    assert!(rt; is_name_at(&names, 20000, "c.20000"));
    Ok(())
}
