//! Messages of rules that could not be evaluated.
ghost use Rattle.std.specs.Prelude.{◌≡◌, IfOk};
ghost use Rattle.pj_findings.specs.Messages.{code_name, rule_message};

use pj_base::{NoMemory, Text};
use pj_xvalue::XCode;
use std::alloc::Global;

/// The name of the code.
pub fn code_name(code: XCode) -> &'static str
    ensures { result.now ≡ code_name code }
{
    match code {
        XCode::FORG0006 => "FORG0006",
        XCode::XPTY0004 => "XPTY0004",
        XCode::XPTY0018 => "XPTY0018",
        XCode::XPTY0019 => "XPTY0019",
        XCode::XPTY0020 => "XPTY0020",
        XCode::FOAR0001 => "FOAR0001",
        XCode::FOAR0002 => "FOAR0002",
        XCode::FOTY0012 => "FOTY0012",
        XCode::FORX0003 => "FORX0003",
    }
}

/// The message of a rule of this name that met the code: the name, a colon, a space and the code.
pub fn rule_message(alloc: Global, name: &Text, code: XCode) -> Result<Text, NoMemory>
    ensures { IfOk result (λ message. message ≡ rule_message name.now code) }
{
    let mut message = Text::from_str(alloc, name.as_str())?;
    message.push_str(": ")?;
    message.push_str(code_name(code))?;
    Ok(message)
}
