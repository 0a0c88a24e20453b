//! Why a text is no expression.
ghost use Rattle.std.specs.Prelude.{◌≡◌};

use pj_base::{NoMemory, Text};
use std::fmt;
use std::fmt::{Display, Formatter, Write};

/// Why a text is no expression. An offset is one into the text, in bytes from 0.
#[derive(Debug, Drop)]
pub enum XSyntax {
    /// No token begins at the offset.
    Token(u32),
    /// What stands at the offset, a token or the end of the text, cannot follow the tokens before it; or an argument begins there that
    /// is no pattern, no replacement or no flags, where the function wants that.
    Expected(u32),
    /// There is no function of this name with so many arguments; the name stands at the offset.
    UnknownFunction(Text, u32),
    /// Neither the rule set nor anything around the place binds the variable.
    UnknownVariable(Text),
    /// A construct of XPath that is left out begins at the offset.
    Outside(u32),
    /// A place nests this deep, one deeper than may be.
    Deep(u32),
    /// There was no memory.
    Memory,
}

impl Display for XSyntax {
    fn fmt<W: Write>(&self, f: &mut Formatter<W>) -> fmt::Result {
        match self {
            XSyntax::Token(offset) => write!(f, "no token begins at offset {offset}"),
            XSyntax::Expected(offset) => write!(
                f,
                "what stands at offset {offset} is not expected there"
            ),
            XSyntax::UnknownFunction(name, offset) => {
                let name = name.as_str();
                write!(
                    f,
                    "no function {name} takes so many arguments, at offset {offset}"
                )
            }
            XSyntax::UnknownVariable(name) => {
                let name = name.as_str();
                write!(f, "no variable ${name} is bound")
            }
            XSyntax::Outside(offset) => {
                write!(f, "a construct that is left out begins at offset {offset}")
            }
            XSyntax::Deep(nesting) => write!(f, "nested {nesting} deep, one deeper than may be"),
            XSyntax::Memory => f.write_str("out of memory"),
        }
    }
}

impl From<NoMemory> for XSyntax {
    ghost use Rattle.pj_xparse.specs.declared.fault.XSyntax.TheVariants.{Memory};

    ghost from_gives = { λ _ fault. fault ≡ Memory };

    fn from(_: NoMemory) -> Self {
        XSyntax::Memory
    }
}
