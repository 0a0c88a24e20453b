//! Numbers.
ghost use Rattle.std.specs.Prelude.{◌≡◌, FitsSigned, IfSome};
ghost use Rattle.std.specs.Int.{w32};
ghost use Rattle.pj_rule_texts.specs.Values.{integer_of};

/// The number of 32 bits that a text writes: an optional sign and digits.
pub fn integer_of(text: &str) -> Option<i32>
    ensures value { result ≡ integer_of 31 text.now }
    ensures fits { IfSome result (FitsSigned w32) }
{
    match text.parse::<i32>() {
        Ok(number) => Some(number),
        Err(_) => None,
    }
}

/// The number of 64 bits that a text writes: an optional sign and digits.
pub fn long_of(text: &str) -> Option<i64>
    ensures { result ≡ integer_of 63 text.now }
{
    match text.parse::<i64>() {
        Ok(number) => Some(number),
        Err(_) => None,
    }
}
