//! The values of tokens.

ghost use Rattle.std.specs.Prelude.{◌≡◌, map, IfOk};
ghost use Rattle.pj_xtokens.specs.Answer.{lexed_of};
ghost use Rattle.pj_xmeaning.specs.Seen.{seen_part};
ghost use Rattle.pj_xmeaning.specs.Values.{leaf_value};

use crate::action::Leaf;
use crate::part::Part;
use pj_base::NoMemory;
use pj_xexpressions::NodeTest;
use pj_xreadings::{Front, Given, Reading, integer, name_test, root, string};
use pj_xtokens::{Token, first_text};
use std::alloc::Global;

/// What a production without rules makes of the tokens at which it begins.
pub fn leaf<'t>(alloc: Global, leaf: Leaf, tokens: &[Token<'t>]) -> Result<Part<'t>, NoMemory>
    ensures { IfOk result (λ made. seen_part made ≡ leaf_value leaf (map lexed_of tokens.now)) }
{
    match leaf {
        Leaf::NoOperands => Ok(Part::Many(Front::new(alloc))),
        Leaf::NoBindings => Ok(Part::Bound(Front::new(alloc))),
        Leaf::NoComparison => Ok(Part::Compared(None)),
        Leaf::NoRange => Ok(Part::UpTo(None)),
        Leaf::NoSums => Ok(Part::Sums(Front::new(alloc))),
        Leaf::NoProducts => Ok(Part::Products(Front::new(alloc))),
        Leaf::NoSets => Ok(Part::Sets(Front::new(alloc))),
        Leaf::NoArguments => Ok(Part::Given(Given {
            list: Front::new(alloc),
            closed: true,
        })),
        Leaf::NoParentheses => Ok(Part::Parentheses(false)),
        Leaf::Parentheses => Ok(Part::Parentheses(true)),
        Leaf::LeftOut => Ok(Part::Nothing),
        Leaf::Word => Ok(Part::Word(first_text(tokens))),
        Leaf::Integer => Part::of_reading(alloc, integer(alloc, tokens)),
        Leaf::String => Part::of_reading(alloc, string(alloc, tokens)?),
        Leaf::EmptySequence => Part::of_reading(alloc, Reading::nothing(alloc)),
        Leaf::Root => Part::of_reading(alloc, root(alloc)),
        Leaf::NameTest => Ok(Part::Test(name_test(alloc, tokens)?)),
        Leaf::AnyNameTest => Ok(Part::Test(NodeTest::AnyName)),
    }
}
