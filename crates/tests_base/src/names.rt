//! Names of classes, answers and oracles.

ghost use Rattle.std.specs.Prelude.{◌≡◌, OnOk, Some};
ghost use Rattle.std.specs.BTreeMap.{get};
ghost use Rattle.std.specs.Cmp.Lexicographic.{slice_cmp};
ghost use Rattle.std.specs.Ordering.{nat_cmp};

use crate::fixtures::{expect, name, text};
use pj_base::{Copied, Exact, NoMemory};
use pj_names::{
    Answer, Answers, AskFault, Broken, ClassFault, ClassInfo, ClassName, ClassNameSet, ClassNames,
    MapOracle, Member, Members, Oracle, Recorder, look_up,
};
use std::alloc::{AllocFailed, Global};
use std::cmp::Ordering;
use std::collections::BTreeMap;
use std::sync::Arc;
use std::test::Fail;

/// Texts, and whether they are names of classes.
static NAMES: [(&str, bool); 17] = [
    ("A", true),
    ("a.B", true),
    ("java.util.Map$Entry", true),
    ("p.A$$7", true),
    ("ä.ß", true),
    ("?", true),
    ("a.b c", true),
    ("", false),
    (".", false),
    (".a", false),
    ("a.", false),
    ("a..b", false),
    ("a/b", false),
    ("a.b;", false),
    ("[a", false),
    ("a.[.b", false),
    ("java/util.List", false),
];

/// Whether a text is the name of a class.
fn is_name(alloc: Global, text: &str) -> Result<bool, NoMemory> {
    Ok(ClassName::of(alloc, text)?.is_some())
}

#[test]
fn names_of_classes(rt: HostRuntime) -> Result<(), Fail> {
    for (text, wanted) in &NAMES {
        expect(is_name(rt.alloc(), text)? == *wanted, text)?;
    }
    Ok(())
}

/// Whether a name is the same as its copy.
fn is_name_copy(name: &ClassName) -> Result<bool, Fail> {
    Ok(name.copied()?.is(name))
}

/// Whether the name of this text has it, and is the same as its copy.
fn is_kept(alloc: Global, text: &str) -> Result<bool, Fail> {
    let name = name(alloc, text)?;
    if name.as_str() != text {
        return Ok(false);
    }
    is_name_copy(&name)
}

/// Whether the name of this text becomes it.
fn becomes_text(alloc: Global, text: &str) -> Result<bool, Fail> {
    let made = name(alloc, text)?.into_text();
    Ok(made.as_str() == text)
}

/// Whether a name comes behind another one.
fn is_behind(alloc: Global, later: &str, earlier: &str) -> Result<bool, Fail> {
    let later = name(alloc, later)?;
    Ok(later.cmp(&name(alloc, earlier)?) == Ordering::Greater)
}

/// Whether a name is that of the class that all others have as a superclass.
fn is_object(alloc: Global, text: &str) -> Result<bool, Fail> {
    Ok(name(alloc, text)?.is_object())
}

#[test]
fn a_name_of_a_class(rt: HostRuntime) -> Result<(), Fail> {
    assert!(rt; is_kept(rt.alloc(), "java.util.Map$Entry")?);
    assert!(rt; becomes_text(rt.alloc(), "java.util.Map$Entry")?);
    assert!(rt; is_behind(rt.alloc(), "java.util.Map$Entry", "java.util.Map")?);
    assert!(rt; is_object(rt.alloc(), "java.lang.Object")?);
    assert!(rt; !is_object(rt.alloc(), "java.lang.Objects")?);
    Ok(())
}

/// Answers.
#[derive(Clone, Copy)]
enum Known {
    /// A class with a method.
    Found,
    Absent,
    Broken(Broken),
}

/// Answers of which no two are the same.
static KNOWN: [(&str, Known); 6] = [
    ("found", Known::Found),
    ("absent", Known::Absent),
    ("too long", Known::Broken(Broken::TooLong)),
    ("other name", Known::Broken(Broken::OtherName)),
    (
        "fault",
        Known::Broken(Broken::Class(ClassFault {
            kind: 1,
            offset: 12,
        })),
    ),
    (
        "later fault",
        Known::Broken(Broken::Class(ClassFault {
            kind: 1,
            offset: 13,
        })),
    ),
];

/// A method without parameters.
fn method(alloc: Global) -> Result<Member, NoMemory> {
    let name = text(alloc, "run")?;
    Ok(Member {
        flags: 1,
        name,
        signature: text(alloc, "()V")?,
    })
}

/// The one method.
fn one_method(alloc: Global) -> Result<Members, NoMemory> {
    let mut methods = Members::new(alloc);
    methods.push(method(alloc)?)?;
    Ok(methods)
}

/// A class with these methods.
fn class(alloc: Global, of: &str, signature: &str, methods: Members) -> Result<Answer, Fail> {
    let name = name(alloc, of)?;
    Ok(Answer::Found(ClassInfo {
        name,
        flags: 33,
        signature: text(alloc, signature)?,
        fields: Members::new(alloc),
        methods,
    }))
}

/// The answer that is known.
fn answer_of(alloc: Global, known: Known) -> Result<Answer, Fail> {
    match known {
        Known::Found => class(alloc, "p.A", "Ljava/lang/Object;", one_method(alloc)?),
        Known::Absent => Ok(Answer::Absent),
        Known::Broken(broken) => Ok(Answer::Broken(broken)),
    }
}

/// Whether this is the answer that is known.
fn is_answer(alloc: Global, answer: &Answer, known: Known) -> Result<bool, Fail> {
    Ok(answer.is(&answer_of(alloc, known)?))
}

/// Whether an answer is the same as each answer exactly where the places are.
fn is_at(alloc: Global, place: usize, answer: &Answer) -> Result<bool, Fail> {
    for (other, (_, known)) in KNOWN.iter().enumerate() {
        if is_answer(alloc, answer, *known)? != (place == other) {
            return Ok(false);
        }
    }
    Ok(true)
}

/// Whether the answer that is known is at this place alone.
fn is_apart(alloc: Global, place: usize, known: Known) -> Result<bool, Fail> {
    let answer = answer_of(alloc, known)?;
    is_at(alloc, place, &answer)
}

/// Whether an answer is the same as its copy.
fn is_copy(answer: &Answer) -> Result<bool, Fail> {
    Ok(answer.copied()?.is(answer))
}

/// Whether the answer that is known is the same as its copy.
fn is_copied(alloc: Global, known: Known) -> Result<bool, Fail> {
    let answer = answer_of(alloc, known)?;
    is_copy(&answer)
}

#[test]
fn answers(rt: HostRuntime) -> Result<(), Fail> {
    for (place, (row, known)) in KNOWN.iter().enumerate() {
        expect(is_apart(rt.alloc(), place, *known)?, row)?;
        expect(is_copied(rt.alloc(), *known)?, row)?;
    }
    Ok(())
}

/// A class without methods, to be shared.
fn shared_class(alloc: Global, of: &str, signature: &str) -> Result<Arc<Answer>, Fail> {
    let class = class(alloc, of, signature, Members::new(alloc))?;
    Ok(Arc::new(alloc, class)?)
}

/// Puts a class behind the others.
fn put_class(alloc: Global, answers: &mut Answers, of: &str, signature: &str) -> Result<(), Fail> {
    let name = name(alloc, of)?;
    answers.push(name, shared_class(alloc, of, signature)?)?;
    Ok(())
}

/// Classes with the names that they lead to in place of signatures.
fn oracle(alloc: Global, all: &[(&str, &str)]) -> Result<MapOracle, Fail> {
    let mut answers = Answers::new(alloc);
    for (of, signature) in all {
        put_class(alloc, &mut answers, of, signature)?;
    }
    Ok(MapOracle::new(alloc, answers))
}

/// Whether a name was asked.
fn is_asked(alloc: Global, oracle: &MapOracle, text: &str) -> Result<bool, Fail> {
    Ok(oracle.asked().contains(&name(alloc, text)?))
}

/// Names, and whether they are asked by now.
fn are_asked(alloc: Global, oracle: &MapOracle, rows: &[(&str, bool)]) -> Result<bool, Fail> {
    for (text, wanted) in rows {
        if is_asked(alloc, oracle, text)? != *wanted {
            return Ok(false);
        }
    }
    Ok(true)
}

/// The answer for a name.
fn asked(alloc: Global, oracle: &mut MapOracle, text: &str) -> Result<Arc<Answer>, Fail> {
    Ok(oracle.ask(&name(alloc, text)?)?)
}

/// Whether the class `p.X` has this signature.
fn has_signature(alloc: Global, answer: &Answer, signature: &str) -> Result<bool, Fail> {
    Ok(answer.is(&*shared_class(alloc, "p.X", signature)?))
}

/// Whether the answer is the first of two classes of one name.
fn is_first(alloc: Global, oracle: &mut MapOracle) -> Result<bool, Fail> {
    let answer = asked(alloc, oracle, "p.X")?;
    has_signature(alloc, &answer, "one")
}

/// Whether there is no class of a name.
fn is_absent(alloc: Global, oracle: &mut MapOracle, text: &str) -> Result<bool, Fail> {
    Ok(matches!(*asked(alloc, oracle, text)?, Answer::Absent))
}

#[test]
fn map_oracle(rt: HostRuntime) -> Result<(), Fail> {
    let alloc = rt.alloc();
    let mut oracle = oracle(alloc, &[("p.X", "one"), ("p.X", "two")])?;
    assert!(rt; is_first(alloc, &mut oracle)?);
    assert!(rt; are_asked(alloc, &oracle, &[("p.X", true), ("p.Y", false)])?);
    assert!(rt; is_absent(alloc, &mut oracle, "p.Y")?);
    assert!(rt; are_asked(alloc, &oracle, &[("p.X", true), ("p.Y", true)])?);
    Ok(())
}

/// Whether the class of a name is found.
fn is_looked_up(alloc: Global, oracle: &mut MapOracle, text: &str) -> Result<bool, Fail> {
    Ok(look_up(oracle, &name(alloc, text)?)?.is_some())
}

#[test]
fn looking_up(rt: HostRuntime) -> Result<(), Fail> {
    let alloc = rt.alloc();
    let mut oracle = oracle(alloc, &[("p.A", "one")])?;
    assert!(rt; !is_looked_up(alloc, &mut oracle, "java.lang.Object")?);
    assert!(rt; is_looked_up(alloc, &mut oracle, "p.A")?);
    let wanted = [("p.A", true), ("java.lang.Object", false), ("p.B", false)];
    assert!(rt; are_asked(alloc, &oracle, &wanted)?);
    Ok(())
}

/// Asks all these names.
fn ask_all<O: Oracle>(alloc: Global, oracle: &mut O, all: &[&str]) -> Result<(), Fail> {
    for text in all {
        oracle.ask(&name(alloc, text)?)?;
    }
    Ok(())
}

/// The names that are noted of these.
fn noted(alloc: Global, oracle: &mut MapOracle, all: &[&str]) -> Result<ClassNames, Fail> {
    let mut noted = ClassNameSet::new(alloc);
    let mut recorder = Recorder {
        inner: oracle,
        noted: &mut noted,
    };
    ask_all(alloc, &mut recorder, all)?;
    Ok(noted.names(alloc)?)
}

/// Whether these are the names.
fn are(names: &ClassNames, wanted: &[&str]) -> bool {
    for (name, wanted) in names.as_slice().iter().zip(wanted) {
        if name.as_str() != *wanted {
            return false;
        }
    }
    names.len() == wanted.len()
}

#[test]
fn recording(rt: HostRuntime) -> Result<(), Fail> {
    let alloc = rt.alloc();
    let mut oracle = oracle(alloc, &[("p.A", "one")])?;
    let noted = noted(alloc, &mut oracle, &["p.B", "p.A", "p.B", "a.Z"])?;
    assert!(rt; are(&noted, &["a.Z", "p.A", "p.B"]));
    let wanted = [("p.A", true), ("p.B", true), ("a.Z", true), ("p.C", false)];
    assert!(rt; are_asked(alloc, &oracle, &wanted)?);
    Ok(())
}

/// A map keyed by class names needs no proof.
fn put(
    map: &mut BTreeMap<ClassName, u32>,
    key: ClassName,
    value: u32,
) -> Result<(), AllocFailed<(ClassName, u32)>>
    ensures { OnOk result (get (slice_cmp nat_cmp) map.new key ≡ Some value) }
{
    map.insert(key, value)?;
    Ok(())
}

/// Puts 1 for `p.A` and 2 for `p.B`.
fn fill(alloc: Global, map: &mut BTreeMap<ClassName, u32>) -> Result<(), Fail> {
    put(map, name(alloc, "p.A")?, 1)?;
    put(map, name(alloc, "p.B")?, 2)?;
    Ok(())
}

/// The value of a name in a map of these.
fn mapped(alloc: Global, text: &str) -> Result<Option<u32>, Fail> {
    let mut map = BTreeMap::new(alloc);
    fill(alloc, &mut map)?;
    Ok(map.get(&name(alloc, text)?).copied())
}

#[test]
fn map_by_names(rt: HostRuntime) -> Result<(), Fail> {
    assert!(rt; mapped(rt.alloc(), "p.A")? == Some(1));
    assert!(rt; mapped(rt.alloc(), "p.C")? == None);
    Ok(())
}

/// What can be shared between threads.
fn shared<T: Send + Sync>(_: &T) {}

#[test]
fn answers_cross_threads(rt: HostRuntime) -> Result<(), Fail> {
    shared(&shared_class(rt.alloc(), "p.A", "")?);
    Ok(())
}
