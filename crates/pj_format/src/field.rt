//! Numbers and runs of bytes at a place. The place behind what was read comes with it.
ghost use Rattle.std.specs.Prelude.{◌≡◌, ◌≤◌, length};
ghost use Rattle.pj_format.specs.declared.fault.Refused.TheVariants as refusals;
ghost use Rattle.pj_format.specs.Format.{fault, first};
ghost use Rattle.pj_format.specs.Fields.{Gives, u8, u16, u32, run, sized};

use crate::fault::{BYTES_END, Fault, Refused};

/// The refusal of a fault.
pub fn refused(kind: u8, offset: u32) -> Refused
    ensures { result ≡ refusals.Fault (fault kind offset) }
{
    Refused::Fault(Fault { kind, offset })
}

/// A number of one byte.
#[tactic(auto, using(std::proofs::lemmas::Grind::common_steps), unfolding(crate::specs::Format::first, crate::specs::Fields::u8, crate::specs::Fields::u8_as))]
pub fn u8_of(bytes: &[u8], at: u32) -> Result<(u8, u32), Refused>
    requires { length bytes.now ≤ 4294967294 }
    ensures { Gives (λ x. x) result (first u8 bytes.now at) }
{
    let from = at as usize;
    if bytes.len() < from + 1 {
        return Err(refused(BYTES_END, at));
    }
    Ok((bytes[from], at + 1))
}

/// A number of two bytes, the higher one first.
#[tactic(auto, unfolding(crate::specs::Format::first, crate::specs::Fields::u16, crate::specs::Fields::u16_as))]
pub fn u16_of(bytes: &[u8], at: u32) -> Result<(u16, u32), Refused>
    requires { length bytes.now ≤ 4294967294 }
    ensures { Gives (λ x. x) result (first u16 bytes.now at) }
{
    let from = at as usize;
    if bytes.len() < from + 2 {
        return Err(refused(BYTES_END, at));
    }
    Ok((u16::from_be_bytes([bytes[from], bytes[from + 1]]), at + 2))
}

/// A number of four bytes, the highest one first.
#[tactic(auto, using(std::proofs::lemmas::Grind::common_steps), unfolding(crate::specs::Format::first, crate::specs::Fields::u32, crate::specs::Fields::u32_as))]
pub fn u32_of(bytes: &[u8], at: u32) -> Result<(u32, u32), Refused>
    requires { length bytes.now ≤ 4294967294 }
    ensures { Gives (λ x. x) result (first u32 bytes.now at) }
{
    let from = at as usize;
    if bytes.len() < from + 4 {
        return Err(refused(BYTES_END, at));
    }
    let number = u32::from_be_bytes([
        bytes[from],
        bytes[from + 1],
        bytes[from + 2],
        bytes[from + 3],
    ]);
    Ok((number, at + 4))
}

/// So many bytes, borrowed.
#[tactic(auto, unfolding(crate::specs::Format::first, crate::specs::Fields::run))]
pub fn run_of(bytes: &[u8], count: u32, at: u32) -> Result<(&[u8], u32), Refused>
    requires { length bytes.now ≤ 4294967294 }
    ensures { Gives (λ x. (x.0.now, x.1)) result (first (run count) bytes.now at) }
{
    let from = at as usize;
    let to = from + count as usize;
    if bytes.len() < to {
        return Err(refused(BYTES_END, at));
    }
    Ok((&bytes[from..to], at + count))
}

/// The bytes behind their number, borrowed.
#[tactic(auto, using(crate::proofs::Laws::reads), unfolding(crate::specs::Format::first, crate::specs::Fields::sized, crate::specs::Fields::sized_as, crate::specs::Fields::u32, crate::specs::Fields::u32_as))]
pub fn sized_of(bytes: &[u8], at: u32) -> Result<(&[u8], u32), Refused>
    requires { length bytes.now ≤ 4294967294 }
    ensures { Gives (λ x. (x.0.now, x.1)) result (first sized bytes.now at) }
{
    let (count, behind) = u32_of(bytes, at)?;
    let from = behind as usize;
    let to = from + count as usize;
    if bytes.len() < to {
        return Err(refused(BYTES_END, at));
    }
    Ok((&bytes[from..to], to as u32))
}
