//! Where the reader stands.

/// Where a comment or an instruction stands.
#[derive(Clone, Copy)]
pub enum Ground {
    /// outside the root
    Outside,
    /// in the content of an element
    Inside,
}

/// What a reference goes into.
#[derive(Clone, Copy)]
pub enum Target {
    /// the text of an element
    Content,
    /// the value of an attribute
    Value,
}

/// What is referred to by name.
#[derive(Clone, Copy)]
pub enum Entity {
    Less,
    Greater,
    Ampersand,
    Quote,
    Apostrophe,
}

/// Words whose letters are fixed.
#[derive(Clone, Copy)]
pub enum Word {
    /// `--` behind `<!`
    Dashes(Ground),
    /// `[CDATA[` behind `<!`
    OpenSection,
    /// `/>`
    Empty,
    /// the name in an end tag
    EndName,
    /// the name of an entity and `;`
    Entity(Target, Entity),
}

/// What goes up to a closing sign.
#[derive(Clone, Copy)]
pub enum Long {
    Comment(Ground),
    Instruction(Ground),
    Section,
}

/// What was read last.
#[derive(Clone, Copy)]
pub enum Mode {
    /// nothing
    Begin,
    /// something whole
    On(Ground),
    /// `<`
    Less(Ground),
    /// `<!`
    Bang(Ground),
    /// so many letters of a word
    Letters(Word, usize),
    /// so many of the characters that repeat in a closing sign
    Until(Long, u8),
    /// the name of a start tag, or a part of it
    TagName,
    /// the name of a start tag or an attribute
    Tag,
    /// the same and white space
    TagSpace,
    /// the name of an attribute, or a part of it
    AttributeName,
    /// the same and white space
    Equals,
    /// `=`
    Quote,
    /// a quote and a part of a value
    Value,
    /// the name in an end tag
    EndSpace,
    /// `&`
    Reference(Target),
    /// `&a`
    ReferenceA(Target),
    /// `&#`
    Hash(Target),
    /// `&#x`
    Digit(Target, bool),
    /// digits
    Digits(Target, bool),
}
