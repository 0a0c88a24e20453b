//! Types of properties.
ghost use Rattle.std.specs.Prelude.{◌≡◌};
ghost use Rattle.pj_rule_texts.specs.Values.{type_named};

/// The type of a property.
#[derive(Clone, Copy, Debug, PartialEq, Eq)]
pub enum PropertyType {
    /// `String`: any text.
    String,
    /// `Boolean`: `true` or `false`.
    Boolean,
    /// `Integer`: a signed number of 32 bits.
    Integer,
    /// `Long`: a signed number of 64 bits.
    Long,
    /// `Character`: one character.
    Character,
    /// `Regex`: a regular expression.
    Regex,
    /// `List[String]`: texts with commas between.
    StringList,
    /// `List[Integer]`: signed numbers of 32 bits with commas between.
    IntegerList,
}

/// The type of a name, or `None` where there is none.
pub fn type_named(kind: &str) -> Option<PropertyType>
    ensures { result ≡ type_named kind.now }
{
    match kind {
        "String" => Some(PropertyType::String),
        "Boolean" => Some(PropertyType::Boolean),
        "Integer" => Some(PropertyType::Integer),
        "Long" => Some(PropertyType::Long),
        "Character" => Some(PropertyType::Character),
        "Regex" => Some(PropertyType::Regex),
        "List[String]" => Some(PropertyType::StringList),
        "List[Integer]" => Some(PropertyType::IntegerList),
        _ => None,
    }
}
