//! Numbers with units, as values of options.

use varisat::line::parse_number;

/// What the units of bytes are powers of.
pub const BYTES: u64 = 1024;

/// What the units of what is counted are powers of.
pub const COUNTS: u64 = 1000;

/// The number that a text tells in decimal, without a leading zero: alone, or in front of `k`, `M` or `G`, times the first,
/// second or third power of the base. None is for another text, and for a number from 2^64 on.
pub fn parse_amount(text: &str, base: u64) -> Option<u64> {
    let (digits, power) = split_unit(text);
    let mut amount = parse_number(digits.as_bytes())?;
    for _ in 0..power {
        amount = amount.checked_mul(base)?;
    }
    Some(amount)
}

/// The text without its unit, and which power that is; 0 where there is none.
fn split_unit(text: &str) -> (&str, u32) {
    if let Some(digits) = text.strip_suffix('k') {
        (digits, 1)
    } else if let Some(digits) = text.strip_suffix('M') {
        (digits, 2)
    } else if let Some(digits) = text.strip_suffix('G') {
        (digits, 3)
    } else {
        (text, 0)
    }
}
