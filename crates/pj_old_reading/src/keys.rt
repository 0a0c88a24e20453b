//! Reading the key of a list of rules. Each call puts what it reads at the end of a copy, and gives the place behind.
ghost use Rattle.std.specs.Prelude.{◌≡◌, ◌<◌, ◌≤◌, ◌^◌, ◌++◌, ◌==◌, ◌&&◌, ◌||◌, not, true, length, map, nat_lt, slice_index, IfErr, IfSome, MatchOption, MatchResult, OnOk};
ghost use Rattle.std.specs.Str.{all_ascii_digits};
ghost use Rattle.pj_format.specs.Format.{first};
ghost use Rattle.pj_format.specs.Fields.{Fails, Gives};
ghost use Rattle.pj_format.specs.declared.fault.Refused.TheVariants as refusals;
ghost use Rattle.pj_cache_format.specs.Texts.{string};
ghost use Rattle.pj_old_format.specs.ListKeys.{is_number, value_of, is_top, is_priority, tested, all_tested, members, listed, rule, rule_tests, list_key};
ghost use Rattle.pj_old_reading.specs.Copied.{Copies, lists, patterns, test_of};

use crate::fields::{is_text, or_memory, wrong};
use pj_base::Bytes;
use pj_cache_format::put_bytes;
use pj_format::{Refused, sized_of};
use std::alloc::Global;

/// What a text of a key is to be.
#[derive(Clone, Copy, Debug)]
pub(crate) enum Test {
    /// A text.
    Word,
    /// The number of a top ruleset.
    Top,
    /// A priority.
    Priority,
}

/// Whether each byte is a decimal digit.
fn are_digits(bytes: &[u8]) -> bool
    ensures { result ≡ all_ascii_digits bytes.now }
{
    for byte in bytes {
        if !byte.is_ascii_digit() {
            return false;
        }
    }
    true
}

/// Whether there are bytes, of which the first one is no `0` before others.
fn has_no_zero(bytes: &[u8]) -> bool
    ensures { result ≡ (nat_lt 0 (length bytes.now) && (length bytes.now == 1 || not (slice_index bytes.now 0 == 48))) }
{
    0 < bytes.len() && (bytes.len() == 1 || bytes[0] != b'0')
}

/// Whether bytes are decimal digits without leading zeros.
fn is_number(bytes: &[u8]) -> bool
    ensures { result ≡ is_number bytes.now }
{
    is_text(bytes) && (are_digits(bytes) && has_no_zero(bytes))
}

/// The number that digits write, or `None` where it is not below 2^32.
fn number_of(text: &str) -> Option<u32>
    requires { is_number text.now ≡ true }
    ensures value { MatchOption result (2 ^ 32 ≤ value_of text.now) (λ n. n ≡ value_of text.now) }
    ensures small { IfSome result (λ n. n < 2 ^ 32) }
{
    match text.parse::<u32>() {
        Ok(number) => Some(number),
        Err(_) => None,
    }
}

/// The number that digits write, or `None` where it is not below 2^32.
fn value_of(bytes: &[u8]) -> Option<u32>
    requires { is_number bytes.now ≡ true }
    ensures value { MatchOption result (2 ^ 32 ≤ value_of bytes.now) (λ n. n ≡ value_of bytes.now) }
    ensures small { IfSome result (λ n. n < 2 ^ 32) }
{
    match str::from_utf8(bytes) {
        Ok(text) => number_of(text),
        Err(_) => None,
    }
}

/// Whether bytes are the number of a top ruleset.
fn is_top(bytes: &[u8]) -> bool
    ensures { result ≡ is_top bytes.now }
{
    let is_right = is_number(bytes);
    if !is_right {
        return false;
    }
    match value_of(bytes) {
        Some(_) => true,
        None => false,
    }
}

/// Whether bytes are a priority.
fn is_priority(bytes: &[u8]) -> bool
    ensures { result ≡ is_priority bytes.now }
{
    bytes.len() == 1 && (b'0' < bytes[0] && bytes[0] < b'6')
}

/// Whether bytes pass a test.
fn passes(test: Test, bytes: &[u8]) -> bool
    ensures { result ≡ test_of test bytes.now }
{
    match test {
        Test::Word => is_text(bytes),
        Test::Top => is_top(bytes),
        Test::Priority => is_priority(bytes),
    }
}

/// Puts bytes at the end, behind their number.
fn put(copy: &mut Vec<u8>, bytes: &[u8]) -> Result<(), Refused>
    ensures put { OnOk result (copy.new.items ≡ copy.old.items ++ string bytes.now) }
    ensures memory { IfErr result (λ e. e ≡ refusals.Memory) }
{
    or_memory(put_bytes(copy, bytes))
}

/// A text that passes a test.
fn copy_tested(copy: &mut Vec<u8>, bytes: &[u8], at: u32, test: Test) -> Result<u32, Refused>
    requires { length bytes.now ≤ 4294967294 }
    ensures { Copies (tested (test_of test)) bytes.now at copy.old.items copy.new.items result }
{
    let (found, behind) = sized_of(bytes, at)?;
    let is_right = passes(test, found);
    if !is_right {
        return Err(wrong(at));
    }
    put(copy, found)?;
    Ok(behind)
}

/// Texts that pass tests, one behind another.
fn copy_all(copy: &mut Vec<u8>, bytes: &[u8], at: u32, tests: &[Test]) -> Result<u32, Refused>
    requires { length bytes.now ≤ 4294967294 }
    ensures { Copies (all_tested (map test_of tests.now)) bytes.now at copy.old.items copy.new.items result }
{
    let mut place = at;
    for word in tests {
        let behind = copy_tested(copy, bytes, place, *word)?;
        place = behind;
    }
    Ok(place)
}

/// So many members, each of texts that pass tests.
fn copy_members(
    copy: &mut Vec<u8>,
    bytes: &[u8],
    at: u32,
    count: u32,
    tests: &[Test],
) -> Result<u32, Refused>
    requires { length bytes.now ≤ 4294967294 }
    ensures { Copies (members (all_tested (map test_of tests.now)) count) bytes.now at copy.old.items copy.new.items result }
{
    let mut place = at;
    for _ in 0..count {
        let behind = copy_all(copy, bytes, place, tests)?;
        place = behind;
    }
    Ok(place)
}

/// More members than 32 bits tell: the bytes end before all of them are read.
fn copy_too_many(copy: &mut Vec<u8>, bytes: &[u8], at: u32, tests: &[Test]) -> Result<u32, Refused>
    requires { length bytes.now ≤ 4294967294 }
    ensures { MatchResult result (λ _. ⊥) (λ e. Fails e (first (members (all_tested (map test_of tests.now)) 4294967295) bytes.now at)) }
{
    copy_members(copy, bytes, at, u32::MAX, tests)?;
    Err(Refused::Memory)
}

/// As many members as digits tell.
fn copy_counted(
    copy: &mut Vec<u8>,
    bytes: &[u8],
    at: u32,
    digits: &[u8],
    tests: &[Test],
) -> Result<u32, Refused>
    requires small { length bytes.now ≤ 4294967294 }
    requires number { is_number digits.now ≡ true }
    ensures { Copies (members (all_tested (map test_of tests.now)) (value_of digits.now)) bytes.now at copy.old.items copy.new.items result }
{
    match value_of(digits) {
        Some(count) => copy_members(copy, bytes, at, count, tests),
        None => copy_too_many(copy, bytes, at, tests),
    }
}

/// As many members as a number tells, behind it.
fn copy_list(copy: &mut Vec<u8>, bytes: &[u8], at: u32, tests: &[Test]) -> Result<u32, Refused>
    requires { length bytes.now ≤ 4294967294 }
    ensures { Copies (listed (all_tested (map test_of tests.now))) bytes.now at copy.old.items copy.new.items result }
{
    let (digits, from) = sized_of(bytes, at)?;
    let is_right = is_number(digits);
    if !is_right {
        return Err(wrong(at));
    }
    put(copy, digits)?;
    copy_counted(copy, bytes, from, digits, tests)
}

/// Exclude patterns, and include patterns.
fn copy_patterns(copy: &mut Vec<u8>, bytes: &[u8], at: u32) -> Result<u32, Refused>
    requires { length bytes.now ≤ 4294967294 }
    ensures { Copies patterns bytes.now at copy.old.items copy.new.items result }
{
    let behind = copy_list(copy, bytes, at, &[Test::Word])?;
    copy_list(copy, bytes, behind, &[Test::Word])
}

/// Properties and patterns.
fn copy_lists(copy: &mut Vec<u8>, bytes: &[u8], at: u32) -> Result<u32, Refused>
    requires { length bytes.now ≤ 4294967294 }
    ensures { Copies lists bytes.now at copy.old.items copy.new.items result }
{
    let behind = copy_list(copy, bytes, at, &[Test::Word, Test::Word, Test::Word])?;
    copy_patterns(copy, bytes, behind)
}

/// The number of a top ruleset, name, ruleset, message, priority and query.
fn copy_words(copy: &mut Vec<u8>, bytes: &[u8], at: u32) -> Result<u32, Refused>
    requires { length bytes.now ≤ 4294967294 }
    ensures { Copies (all_tested rule_tests) bytes.now at copy.old.items copy.new.items result }
{
    let words = [
        Test::Top,
        Test::Word,
        Test::Word,
        Test::Word,
        Test::Priority,
        Test::Word,
    ];
    copy_all(copy, bytes, at, &words)
}

/// A rule.
fn copy_rule(copy: &mut Vec<u8>, bytes: &[u8], at: u32) -> Result<u32, Refused>
    requires { length bytes.now ≤ 4294967294 }
    ensures { Copies rule bytes.now at copy.old.items copy.new.items result }
{
    let behind = copy_words(copy, bytes, at)?;
    copy_lists(copy, bytes, behind)
}

/// So many rules.
fn copy_rules(copy: &mut Vec<u8>, bytes: &[u8], at: u32, count: u32) -> Result<u32, Refused>
    requires { length bytes.now ≤ 4294967294 }
    ensures { Copies (members rule count) bytes.now at copy.old.items copy.new.items result }
{
    let mut place = at;
    for _ in 0..count {
        let behind = copy_rule(copy, bytes, place)?;
        place = behind;
    }
    Ok(place)
}

/// More rules than 32 bits tell: the bytes end before all of them are read.
fn copy_too_many_rules(copy: &mut Vec<u8>, bytes: &[u8], at: u32) -> Result<u32, Refused>
    requires { length bytes.now ≤ 4294967294 }
    ensures { MatchResult result (λ _. ⊥) (λ e. Fails e (first (members rule 4294967295) bytes.now at)) }
{
    copy_rules(copy, bytes, at, u32::MAX)?;
    Err(Refused::Memory)
}

/// As many rules as digits tell.
fn copy_counted_rules(
    copy: &mut Vec<u8>,
    bytes: &[u8],
    at: u32,
    digits: &[u8],
) -> Result<u32, Refused>
    requires small { length bytes.now ≤ 4294967294 }
    requires number { is_number digits.now ≡ true }
    ensures { Copies (members rule (value_of digits.now)) bytes.now at copy.old.items copy.new.items result }
{
    match value_of(digits) {
        Some(count) => copy_rules(copy, bytes, at, count),
        None => copy_too_many_rules(copy, bytes, at),
    }
}

/// As many rules as a number tells, behind it.
fn copy_rule_list(copy: &mut Vec<u8>, bytes: &[u8], at: u32) -> Result<u32, Refused>
    requires { length bytes.now ≤ 4294967294 }
    ensures { Copies (listed rule) bytes.now at copy.old.items copy.new.items result }
{
    let (digits, from) = sized_of(bytes, at)?;
    let is_right = is_number(digits);
    if !is_right {
        return Err(wrong(at));
    }
    put(copy, digits)?;
    copy_counted_rules(copy, bytes, from, digits)
}

/// The marker, and the rules.
fn copy_key(copy: &mut Vec<u8>, bytes: &[u8], at: u32) -> Result<u32, Refused>
    requires { length bytes.now ≤ 4294967294 }
    ensures { Copies list_key bytes.now at copy.old.items copy.new.items result }
{
    let behind = copy_all(copy, bytes, at, &[Test::Word])?;
    copy_rule_list(copy, bytes, behind)
}

/// The key of a list of rules.
pub(crate) fn list_key_of(alloc: Global, bytes: &[u8], at: u32) -> Result<(Bytes, u32), Refused>
    requires { length bytes.now ≤ 4294967294 }
    ensures { Gives (λ x. x) result (first list_key bytes.now at) }
{
    let mut copy = Vec::new(alloc);
    let behind = copy_key(&mut copy, bytes, at)?;
    Ok((Bytes::from_vec(copy), behind))
}
