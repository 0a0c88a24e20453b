//! What is known of a class.
use crate::class_name::ClassName;
use pj_base::{Copied, Exact, ListOf, NoMemory, Text};

/// The first fault of the bytes of a class file (JVMS 4).
#[derive(Clone, Copy, Debug, PartialEq, Eq)]
pub struct ClassFault {
    /// The kind of fault, from 1 to 10, as the reader of class files numbers them.
    pub kind: u8,
    /// The byte where it stands, counted from 0.
    pub offset: u32,
}

/// Why a class that is there is not readable.
#[derive(Clone, Copy, Debug, PartialEq, Eq)]
pub enum Broken {
    /// Its bytes are no class file.
    Class(ClassFault),
    /// Its class file has a class of another name.
    OtherName,
    /// Its class file is longer than what is read.
    TooLong,
}

/// A field or a method, JVMS 4.5 and 4.6.
#[derive(Debug, PartialEq, Eq, Drop)]
pub struct Member {
    /// The access flags.
    pub flags: u16,
    /// The name: `<init>` of a constructor.
    pub name: Text,
    /// The signature, JVMS 4.7.9.1, made from the descriptor where the class file has none.
    pub signature: Text,
}

/// Fields or methods, in the order of the class file.
pub type Members = ListOf<Member>;

/// A class that was found, JVMS 4.1.
#[derive(Debug, PartialEq, Eq, Drop)]
pub struct ClassInfo {
    /// The binary name.
    pub name: ClassName,
    /// The access flags.
    pub flags: u16,
    /// The signature, JVMS 4.7.9.1, made from superclass and interfaces where the class file has none.
    pub signature: Text,
    /// The fields.
    pub fields: Members,
    /// The methods.
    pub methods: Members,
}

/// The answer for the name of a class.
#[derive(Debug, PartialEq, Eq, Drop)]
pub enum Answer {
    /// The class.
    Found(ClassInfo),
    /// There is no class of the name.
    Absent,
    /// There is one, and it is not readable.
    Broken(Broken),
}

impl Exact for Member {
    fn is(&self, other: &Member) -> bool {
        self.flags == other.flags
            && self.name.is(&other.name)
            && self.signature.is(&other.signature)
    }
}

impl Exact for ClassInfo {
    fn is(&self, other: &ClassInfo) -> bool {
        self.name.is(&other.name)
            && self.flags == other.flags
            && self.signature.is(&other.signature)
            && self.fields.is(&other.fields)
            && self.methods.is(&other.methods)
    }
}

impl Exact for Answer {
    fn is(&self, other: &Answer) -> bool {
        match (self, other) {
            (Answer::Found(ours), Answer::Found(theirs)) => ours.is(theirs),
            (Answer::Absent, Answer::Absent) => true,
            (Answer::Broken(ours), Answer::Broken(theirs)) => ours == theirs,
            _ => false,
        }
    }
}

impl Copied for Member {
    fn copied(&self) -> Result<Member, NoMemory> {
        Ok(Member {
            flags: self.flags,
            name: self.name.copied()?,
            signature: self.signature.copied()?,
        })
    }
}

impl Copied for ClassInfo {
    fn copied(&self) -> Result<ClassInfo, NoMemory> {
        Ok(ClassInfo {
            name: self.name.copied()?,
            flags: self.flags,
            signature: self.signature.copied()?,
            fields: self.fields.copied()?,
            methods: self.methods.copied()?,
        })
    }
}

impl Copied for Answer {
    fn copied(&self) -> Result<Answer, NoMemory> {
        Ok(match self {
            Answer::Found(class) => Answer::Found(class.copied()?),
            Answer::Absent => Answer::Absent,
            Answer::Broken(broken) => Answer::Broken(*broken),
        })
    }
}
