//! How a row fails.
use std::test::Fail;

/// Fails with the name of a row where what it says does not hold.
pub fn expect(holds: bool, row: &'static str) -> Result<(), Fail> {
    if holds { Ok(()) } else { Err(Fail::new(row)) }
}
