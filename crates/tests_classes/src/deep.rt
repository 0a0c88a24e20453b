//! Types that nest as deep as a hostile class path wants.
use crate::fixtures::{class, name};
use pj_base::{NoMemory, Text};
use pj_names::{Answer, AskFault, ClassName, Oracle};
use pj_signatures::{class_signature, field_signature};
use pj_types::{Walk, supertypes};
use std::alloc::Global;
use std::sync::Arc;
use std::test::Fail;

/// A text some times, one behind the other.
fn push_often(text: &mut Text, part: &str, times: u32) -> Result<(), NoMemory> {
    for _time in 0..times {
        text.push_str(part)?;
    }
    Ok(())
}

/// A type of so many classes inside one another, each but the innermost with so many wildcards in front of the next one.
fn nested(alloc: Global, depth: u32, wildcards: u32, innermost: &str) -> Result<Text, NoMemory> {
    let mut text = Text::new(alloc);
    for _level in 0..depth {
        text.push_str("LL<")?;
        push_often(&mut text, "*", wildcards)?;
    }
    text.push_str(innermost)?;
    push_often(&mut text, ">;", depth)?;
    Ok(text)
}

/// The generic classes `d.0`, `d.1` and on: each one's superclass is the next one, with its own type parameter so deep inside
/// its type argument. It does not tell its world.
#[derive(Drop)]
struct Nests {
    alloc: Global,
    classes: u32,
    depth: u32,
}

impl Oracle for Nests {
    ghost use Rattle.std.specs.Prelude.{[], false};
    ghost use Rattle.std.specs.FinSet as set;
    ghost use Rattle.pj_names.specs.AnswerList.{list_world};

    ghost Kept = { Unit {0} };

    ghost tells = { λ nests. record { is_told = false; world = λ depth. list_world []; kept = tt; asked = set.empty; faults = 0 } };

    fn ask(&mut self, name: &ClassName) -> Result<Arc<Answer>, AskFault> {
        let answer = nest(self.alloc, self.classes, self.depth, name)?;
        Ok(Arc::new(self.alloc, answer)?)
    }
}

/// The class of a name among these.
fn nest(alloc: Global, classes: u32, depth: u32, name: &ClassName) -> Result<Answer, NoMemory> {
    let Some(digits) = name.as_str().strip_prefix("d.") else {
        return Ok(Answer::Absent);
    };
    match digits.parse::<u32>() {
        Ok(number) if number < classes => {
            let signature = generic(alloc, number.saturating_add(1), depth)?;
            Ok(Answer::Found(class(alloc, name, signature)?))
        }
        _ => Ok(Answer::Absent),
    }
}

/// The signature of a generic class whose superclass is `d.NUMBER`.
fn generic(alloc: Global, number: u32, depth: u32) -> Result<Text, NoMemory> {
    let mut text = Text::from_string(format!(in alloc; "<T:Ljava/lang/Object;>Ld/{}<", number)?);
    text.push_str(nested(alloc, depth, 0, "TT;")?.as_str())?;
    text.push_str(">;")?;
    Ok(text)
}

/// How many names a list of supertypes has, or 0 where memory is wanted. Names are given without type arguments, so nothing adds up.
fn listed(alloc: Global, classes: u32, depth: u32) -> Result<usize, Fail> {
    let mut oracle = Nests {
        alloc,
        classes,
        depth,
    };
    match supertypes(alloc, &mut oracle, &name(alloc, "d.0")?) {
        Ok(names) => Ok(names.len()),
        Err(AskFault::Memory) => Ok(0),
        Err(AskFault::Failed) => Err(Fail::from("failed")),
    }
}

#[test]
fn names_of_nests_that_add_up(rt: HostRuntime) -> Result<(), Fail> {
    for (classes, depth, wanted) in [
        (60, 20, 61),
        (200, 0, 201),
        (50, 10, 51),
        (3, 250, 4),
        (20, 250, 21),
        (1000, 250, 1001),
    ] {
        let names = listed(rt.alloc(), classes, depth)?;
        assert_eq!(rt; names, wanted, "{classes} {depth}");
    }
    Ok(())
}

/// How many steps a walk along such classes takes before memory is wanted.
fn steps(alloc: Global, depth: u32) -> Result<u32, Fail> {
    let mut oracle = Nests {
        alloc,
        classes: 1000,
        depth,
    };
    let mut walk = Walk::of(alloc, &name(alloc, "d.0")?)?;
    for step in 0..1002u32 {
        if walk.next_class(&mut oracle).is_err() {
            return Ok(step);
        }
    }
    Ok(1002)
}

#[test]
fn a_walk_stops_where_types_are_deepest(rt: HostRuntime) -> Result<(), Fail> {
    for (depth, wanted) in [(0, 1002), (250, 4), (100, 10)] {
        assert_eq!(rt; steps(rt.alloc(), depth)?, wanted, "{depth}");
    }
    Ok(())
}

#[test]
fn signatures_of_many_arguments(rt: HostRuntime) -> Result<(), Fail> {
    let alloc = rt.alloc();
    for (depth, wildcards) in [(250, 0), (8, 254), (255, 254)] {
        let text = nested(alloc, depth, wildcards, "Lp/X;")?;
        let Some(ty) = field_signature(alloc, text.as_str())? else {
            return Err(Fail::from("not read"));
        };
        let copy = ty.copied()?;
        assert!(rt; ty.is(&copy), "{depth} {wildcards}");
    }
    let text = nested(alloc, 255, 0, "Lp/X;")?;
    assert!(rt; field_signature(alloc, text.as_str())?.is_some());
    let text = nested(alloc, 256, 0, "Lp/X;")?;
    assert!(rt; field_signature(alloc, text.as_str())?.is_none());
    assert!(rt; class_signature(alloc, generic(alloc, 1, 254)?.as_str())?.is_some());
    Ok(())
}
