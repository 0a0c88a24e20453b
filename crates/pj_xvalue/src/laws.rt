//! Laws of the definitions, each the contract of a call that does nothing.
ghost use Rattle.std.specs.Prelude.{◌≡◌, ◌↔◌, true, false, Ok, Err, List};
ghost use Rattle.pj_xexpressions.specs.declared.operator.Compare.{Compare};
ghost use Rattle.pj_xvalue.specs.declared.fault.XCode.{XCode};
ghost use Rattle.pj_xvalue.specs.Items.{ItemValue};
ghost use Rattle.pj_xvalue.specs.Comparison.{general_comparison};
ghost use Rattle.pj_xvalue.specs.Deciding.{SomeCompares, SomeFails, NoneCompares};

/// When a general comparison is true, an error or false (XPath 2.0, 3.5.2), told by its pairs: it is true exactly where
/// some pair compares and no pair before it is an error, an error exactly where some pair is that error and no pair
/// before it compares or is one, and false exactly where no pair compares and none is an error.
pub fn pairs_decide()
    ensures compares { (op : Compare) (left right : List ItemValue) → (general_comparison op left right ≡ Ok true) ↔ SomeCompares op left right }
    ensures fails { (op : Compare) (left right : List ItemValue) (code : XCode) → (general_comparison op left right ≡ Err code) ↔ SomeFails op left right code }
    ensures neither { (op : Compare) (left right : List ItemValue) → (general_comparison op left right ≡ Ok false) ↔ NoneCompares op left right }
{}
