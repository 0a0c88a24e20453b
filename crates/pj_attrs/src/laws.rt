//! What holds of every parsed file.

ghost use Rattle.std.specs.Prelude.{Ok};
ghost use Rattle.std.specs.List.Sorted.{IsNonDecreasingBy};
ghost use Rattle.pj_lex.specs.declared.token.Token.{Token};
ghost use Rattle.pj_parse.specs.Parses.{Parses, file_parsed};

use pj_parse::Parsed;

/// The tokens of a file that was parsed stand in the order of the text. The call does nothing: its contract is the law.
pub fn tokens_are_in_order(text: &str, parsed: &Parsed<'_>)
    requires { Parses text.now (Ok (file_parsed parsed.now)) }
    ensures { IsNonDecreasingBy (λ (t : Token). t.span.from) parsed.now.tokens }
{
    let _ = text;
    let _ = parsed;
}
