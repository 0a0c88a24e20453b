//! The values of rules.

ghost use Rattle.std.specs.Prelude.{◌≡◌, map, IfOk};
ghost use Rattle.std.specs.Option.{option_map};
ghost use Rattle.pj_xreadings.specs.Seen.{seen_reading, seen_behind, seen_second, seen_last, seen_bound, seen_arguments};
ghost use Rattle.pj_xmeaning.specs.Parts.{One, operand, operands, bindings, comparison, range, sums, products, sets, arguments, test, parentheses, word};
ghost use Rattle.pj_xmeaning.specs.Seen.{seen_part};
ghost use Rattle.pj_xmeaning.specs.Values.{is_end, is_one};

use pj_base::NoMemory;
use pj_xexpressions::{Additive, Compare, Multiplicative, NodeTest, SetOperator};
use pj_xreadings::{Bound, Front, Given, Reading};
use std::alloc::Global;

/// The value of a rule: what its tokens say.
#[derive(Drop)]
pub enum Part<'t> {
    /// None: the tokens are cut off before the rule.
    Missing,
    /// None: what could be left out is not there.
    Nothing,
    /// An expression.
    One(Box<Reading<'t>>),
    /// Expressions in a row: operands, steps or predicates.
    Many(Front<Reading<'t>>),
    /// Variables with their expressions.
    Bound(Front<Bound<'t>>),
    /// The second operand of a comparison with the operator before it, if there is one.
    Compared(Option<(Compare, Box<Reading<'t>>)>),
    /// The operand up to which another one ranges, if there is one.
    UpTo(Option<Box<Reading<'t>>>),
    /// Operands of a sum, each with the operator before it.
    Sums(Front<(Additive, Reading<'t>)>),
    /// Operands of a product, each with the operator before it.
    Products(Front<(Multiplicative, Reading<'t>)>),
    /// Operands of `intersect` and `except`, each with the operator before it.
    Sets(Front<(SetOperator, Reading<'t>)>),
    /// Arguments of a call.
    Given(Given<'t>),
    /// A node test.
    Test(NodeTest),
    /// Whether parentheses of a kind test are there.
    Parentheses(bool),
    /// A name.
    Word(&'t str),
    /// A test of the axis before it, with predicates.
    AxisTest(NodeTest, Front<Reading<'t>>),
    /// The arguments of a call, with the predicates behind them.
    Called(Given<'t>, Front<Reading<'t>>),
    /// Predicates behind a name.
    Predicates(Front<Reading<'t>>),
}

impl<'t> Part<'t> {
    /// The value of an expression.
    pub fn of_reading(alloc: Global, reading: Reading<'t>) -> Result<Part<'t>, NoMemory>
        ensures { IfOk result (λ made. seen_part made ≡ One (seen_reading reading.entry)) }
    {
        Ok(Part::One(Box::new(alloc, reading)?))
    }

    /// Whether it is an expression.
    pub fn is_one(&self) -> bool
        ensures { result ≡ is_one (seen_part self.now) }
    {
        match self {
            Part::One(_) => true,
            _ => false,
        }
    }

    /// Whether it says that nothing stands behind an operand.
    pub fn is_end(&self) -> bool
        ensures { result ≡ is_end (seen_part self.now) }
    {
        match self {
            Part::Many(list) => list.is_empty(),
            Part::Compared(second) => second.is_none(),
            Part::UpTo(last) => last.is_none(),
            Part::Sums(list) => list.is_empty(),
            Part::Products(list) => list.is_empty(),
            Part::Sets(list) => list.is_empty(),
            Part::Nothing => true,
            _ => false,
        }
    }

    /// Frees what it holds.
    pub fn let_go(self) {}

    /// The expression; where it is none, nothing.
    pub fn into_reading(self, alloc: Global) -> Reading<'t>
        ensures { seen_reading result ≡ operand (seen_part self.entry) }
    {
        match self {
            Part::One(reading) => Box::into_inner(reading),
            other => {
                other.let_go();
                Reading::nothing(alloc)
            }
        }
    }

    /// The expressions; where it has none, no expressions.
    pub fn into_readings(self, alloc: Global) -> Front<Reading<'t>>
        ensures { map seen_reading result ≡ operands (seen_part self.entry) }
    {
        match self {
            Part::Many(readings) => readings,
            other => {
                other.let_go();
                Front::new(alloc)
            }
        }
    }

    /// The variables with their expressions; where it has none, no variables.
    pub fn into_bound(self, alloc: Global) -> Front<Bound<'t>>
        ensures { map seen_bound result ≡ bindings (seen_part self.entry) }
    {
        match self {
            Part::Bound(bindings) => bindings,
            other => {
                other.let_go();
                Front::new(alloc)
            }
        }
    }

    /// The second operand of a comparison with the operator before it, if there is one.
    pub fn into_compared(self) -> Option<(Compare, Box<Reading<'t>>)>
        ensures { option_map seen_second result ≡ comparison (seen_part self.entry) }
    {
        match self {
            Part::Compared(second) => second,
            other => {
                other.let_go();
                None
            }
        }
    }

    /// The operand up to which another one ranges, if there is one.
    pub fn into_range(self) -> Option<Box<Reading<'t>>>
        ensures { option_map seen_last result ≡ range (seen_part self.entry) }
    {
        match self {
            Part::UpTo(last) => last,
            other => {
                other.let_go();
                None
            }
        }
    }

    /// The operands of a sum; where it has none, no operands.
    pub fn into_sums(self, alloc: Global) -> Front<(Additive, Reading<'t>)>
        ensures { map seen_behind result ≡ sums (seen_part self.entry) }
    {
        match self {
            Part::Sums(operands) => operands,
            other => {
                other.let_go();
                Front::new(alloc)
            }
        }
    }

    /// The operands of a product; where it has none, no operands.
    pub fn into_products(self, alloc: Global) -> Front<(Multiplicative, Reading<'t>)>
        ensures { map seen_behind result ≡ products (seen_part self.entry) }
    {
        match self {
            Part::Products(operands) => operands,
            other => {
                other.let_go();
                Front::new(alloc)
            }
        }
    }

    /// The operands of `intersect` and `except`; where it has none, no operands.
    pub fn into_sets(self, alloc: Global) -> Front<(SetOperator, Reading<'t>)>
        ensures { map seen_behind result ≡ sets (seen_part self.entry) }
    {
        match self {
            Part::Sets(operands) => operands,
            other => {
                other.let_go();
                Front::new(alloc)
            }
        }
    }

    /// The arguments of a call; where it has none, no arguments, which are cut off.
    pub fn into_given(self, alloc: Global) -> Given<'t>
        ensures { seen_arguments result ≡ arguments (seen_part self.entry) }
    {
        match self {
            Part::Given(given) => given,
            other => {
                other.let_go();
                Given {
                    list: Front::new(alloc),
                    closed: false,
                }
            }
        }
    }

    /// The node test; where it is none, `*`.
    pub fn into_test(self) -> NodeTest
        ensures { result ≡ test (seen_part self.entry) }
    {
        match self {
            Part::Test(test) => test,
            other => {
                other.let_go();
                NodeTest::AnyName
            }
        }
    }

    /// Whether parentheses of a kind test are there.
    pub fn into_parentheses(self) -> bool
        ensures { result ≡ parentheses (seen_part self.entry) }
    {
        match self {
            Part::Parentheses(there) => there,
            other => {
                other.let_go();
                false
            }
        }
    }

    /// The name; where it is none, no characters.
    pub fn into_word(self) -> &'t str
        ensures { result.now ≡ word (seen_part self.entry) }
    {
        match self {
            Part::Word(name) => name,
            other => {
                other.let_go();
                ""
            }
        }
    }
}
