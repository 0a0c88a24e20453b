//! The functions of XPath.
ghost use Rattle.std.specs.Prelude.{◌≡◌};
ghost use Rattle.pj_xexpressions.specs.Functions.{takes};

/// A function of XPath, with its section in XQuery 1.0 and XPath 2.0 Functions and Operators. None takes a collation.
#[derive(Clone, Copy, Debug, PartialEq, Eq)]
pub enum Function {
    /// `position()`, 16.1.
    Position,
    /// `last()`, 16.2.
    Last,
    /// `count(items)`, 15.4.1.
    Count,
    /// `exists(items)`, 15.1.5.
    Exists,
    /// `empty(items)`, 15.1.4.
    Empty,
    /// `not(items)`, 9.3.1.
    Not,
    /// `true()`, 9.1.1.
    True,
    /// `false()`, 9.1.2.
    False,
    /// `boolean(items)`, 15.1.1.
    Boolean,
    /// `string()` of the context item, `string(item)`, 2.3.
    String,
    /// `data(items)`, 2.4.
    Data,
    /// `concat(item, item, ..)`, 7.4.1.
    Concat,
    /// `string-join(items, separator)`, 7.4.2, with the items of 3.1.
    StringJoin,
    /// `contains(text, part)`, 7.5.1.
    Contains,
    /// `starts-with(text, part)`, 7.5.2.
    StartsWith,
    /// `ends-with(text, part)`, 7.5.3.
    EndsWith,
    /// `substring(text, start)`, `substring(text, start, length)`, 7.4.3.
    Substring,
    /// `substring-before(text, part)`, 7.5.4.
    SubstringBefore,
    /// `substring-after(text, part)`, 7.5.5.
    SubstringAfter,
    /// `string-length()` of the context item, `string-length(text)`, 7.4.4.
    StringLength,
    /// `normalize-space()` of the context item, `normalize-space(text)`, 7.4.5.
    NormalizeSpace,
    /// `upper-case(text)`, 7.4.7.
    UpperCase,
    /// `lower-case(text)`, 7.4.8.
    LowerCase,
    /// `translate(text, characters, others)`, 7.4.9.
    Translate,
    /// `matches(text, pattern)`, `matches(text, pattern, flags)`, 7.6.2.
    Matches,
    /// `replace(text, pattern, replacement)`, `replace(text, pattern, replacement, flags)`, 7.6.3.
    Replace,
    /// `tokenize(text, pattern)`, `tokenize(text, pattern, flags)`, 7.6.4.
    Tokenize,
    /// `name()` of the context item, `name(node)`, 14.1.
    Name,
    /// `local-name()` of the context item, `local-name(node)`, 14.2.
    LocalName,
    /// `distinct-values(items)`, 15.1.6.
    DistinctValues,
    /// `sum(items)`, `sum(items, zero)`, 15.4.5.
    Sum,
    /// `min(items)`, 15.4.4.
    Min,
    /// `max(items)`, 15.4.3.
    Max,
    /// `abs(number)`, 6.4.1.
    Abs,
    /// `reverse(items)`, 15.1.9.
    Reverse,
    /// `index-of(items, sought)`, 15.1.3.
    IndexOf,
    /// `subsequence(items, start)`, `subsequence(items, start, length)`, 15.1.10.
    Subsequence,
    /// `root()` of the context item, `root(node)`, 14.9.
    Root,
}

impl Function {
    /// Whether the function takes so many arguments.
    pub fn takes(self, count: usize) -> bool
        ensures { result ≡ takes self count }
    {
        match self {
            Function::Position | Function::Last | Function::True | Function::False => count == 0,
            Function::String | Function::StringLength | Function::NormalizeSpace => count <= 1,
            Function::Name | Function::LocalName | Function::Root => count <= 1,
            Function::Concat => count >= 2,
            Function::Sum => count == 1 || count == 2,
            Function::StringJoin | Function::Contains | Function::StartsWith | Function::EndsWith =>
                count == 2,
            Function::SubstringBefore | Function::SubstringAfter | Function::IndexOf => count == 2,
            Function::Substring | Function::Subsequence => count == 2 || count == 3,
            Function::Matches | Function::Tokenize => count == 2 || count == 3,
            Function::Translate => count == 3,
            Function::Replace => count == 3 || count == 4,
            _ => count == 1,
        }
    }
}
