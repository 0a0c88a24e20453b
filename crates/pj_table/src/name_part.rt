//! Where a name lies.
ghost use Rattle.std.specs.Prelude.{◌≡◌};
ghost use Rattle.pj_table.specs.Names.{part_of};

use pj_names::ClassName;

/// The part in which the name lies: the sum of its bytes modulo 64.
pub(crate) fn part_of(name: &ClassName) -> usize
    ensures { result ≡ part_of name.now }
{
    let mut sum = 0u8;
    let bytes = name.as_str().as_bytes();
    for byte in bytes {
        sum = (sum + byte % 64) % 64;
    }
    sum as usize
}
