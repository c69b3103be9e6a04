//! Timestamps and durations.
ghost use Rattle.std.specs.Prelude.{◌≡◌, ◌++◌, ◌<◌, ◌^◌, ◌≤ℤ◌, length, IfOk, MatchResult, None, OnErr, OnOk, Some, pos, true};
ghost use Rattle.std.specs.Option.{SomeIff};
ghost use Rattle.std.specs.Str.{all_ascii_digits};
ghost use Rattle.std.specs.Str.Parse.{digits_value};
ghost use Rattle.value_text.specs.Numbers.{millis, number, seconds3, three_digits};

use crate::grammar::{is_digits, without_sign};
use label_set::NoMemory;
use std::alloc::{AllocError, Global};
use std::str;

/// The bytes are no timestamp.
#[derive(Clone, Copy, PartialEq, Eq, Debug)]
pub struct BadNumber;

/// Reads the milliseconds of a timestamp: a sign or none and digits, from -2^63 to 2^63 - 1.
pub fn read_millis(bytes: &[u8]) -> Result<i64, BadNumber>
    ensures { MatchResult result (λ ms. millis bytes.now ≡ Some ms) (λ _. millis bytes.now ≡ None) }
{
    if !is_digits(without_sign(bytes)) {
        return Err(BadNumber);
    }
    match str::from_utf8(bytes) {
        Ok(text) => parsed(text),
        Err(_) => Err(BadNumber),
    }
}

fn parsed(text: &str) -> Result<i64, BadNumber>
    ensures { MatchResult result (λ ms. millis text.now ≡ Some ms) (λ _. millis text.now ≡ None) }
{
    match text.parse::<i64>() {
        Ok(ms) => Ok(ms),
        Err(_) => Err(BadNumber),
    }
}

/// Appends milliseconds as seconds with three decimals. Where memory runs out the text is as before.
pub fn write_seconds3(alloc: Global, ms: i64, text: &mut Vec<u8>) -> Result<(), NoMemory>
    requires { pos 0 ≤ℤ ms }
    ensures appended { OnOk result (text.new.items ≡ text.old.items ++ seconds3 (number ms)) }
    ensures kept { OnErr result (text.new.items ≡ text.old.items) }
{
    let seconds = seconds_text(alloc, ms)?;
    text.extend_from_slice(&seconds)?;
    Ok(())
}

/// Milliseconds as seconds with three decimals.
#[tactic(auto, unfolding(crate::specs::Numbers::seconds3))]
pub fn seconds_text(alloc: Global, ms: i64) -> Result<Vec<u8>, AllocError>
    requires { pos 0 ≤ℤ ms }
    ensures { IfOk result (λ v. v.items ≡ seconds3 (number ms)) }
{
    let count = to_number(ms);
    let mut text = (count / 1000).to_string(alloc)?.into_bytes();
    text.push(b'.')?;
    text.extend_from_slice(&decimals(count))?;
    Ok(text)
}

/// Milliseconds as a number, 0 for what is negative.
pub fn to_number(ms: i64) -> u64
    ensures { result ≡ number ms }
{
    if ms < 0 { 0 } else { ms as u64 }
}

/// The number that digits spell; `None` exactly where it has more than 64 bits.
pub fn number_of(digits: &[u8]) -> Option<u64>
    requires some { 0 < length digits.now }
    requires digits { all_ascii_digits digits.now ≡ true }
    ensures { SomeIff result (digits_value 10 digits.now < 2 ^ 64) (digits_value 10 digits.now) }
{
    match str::from_utf8(digits) {
        Ok(text) => text.parse::<u64>().ok(),
        Err(_) => None,
    }
}

/// The last three digits.
fn decimals(count: u64) -> [u8; 3]
    ensures { result ≡ three_digits count }
{
    [
        b'0' + (count / 100 % 10) as u8,
        b'0' + (count / 10 % 10) as u8,
        b'0' + (count % 10) as u8,
    ]
}
