//! Timestamps in seconds, as milliseconds. No number is made of more digits than 64 bits hold, whatever the exponent.
ghost use Rattle.std.specs.Prelude.{◌≡◌, ◌≤◌, ◌<◌, ◌+◌, ◌-◌, ◌++◌, ◌*◌, ◌^◌, length, take, min, OnOk, Some, None, true, option_map, if◌then◌else◌};
ghost use Rattle.std.specs.List.{list_all};
ghost use Rattle.std.specs.Char.{is_ascii_digit};
ghost use Rattle.std.specs.Fmt.{signed_decimal};
ghost use Rattle.std.specs.Option.{SomeIff};
ghost use Rattle.std.specs.Str.Parse.{digits_value, digits_value_after};
ghost use Rattle.value_text.specs.Numbers.{is_in_range};
ghost use Rattle.value_text.specs.Values.{is_exponent, is_number};
ghost use Rattle.om_reader.specs.Timestamps as spec;

use expo_reader::parts::{Part, cut};
use itoa::Buffer;
use label_set::NoMemory;
use value_text::{digit_count, is_number, number_of, without_sign};

/// Milliseconds: their number, and whether they are below zero.
#[derive(Clone, Copy)]
pub struct Millis {
    minus: bool,
    count: u64,
}

/// The most bytes of a timestamp.
const LONGEST: usize = 128;

/// The greatest power of ten whose exact number matters: no timestamp has so many digits.
const FAR: u64 = 1000;

/// The least number of milliseconds that is out of range.
const END: u64 = 1 << 63;

/// The milliseconds of a timestamp: a number as a value has it, in seconds. Its point is moved three places to the right, and what stands behind it
/// then is dropped.
#[tactic(auto, unfolding(crate::specs::Timestamps::stamp_millis))]
pub fn read_stamp(bytes: &[u8]) -> Option<Millis>
    ensures { option_map spec.millis_of result ≡ spec.stamp_millis bytes.now }
{
    let number = without_sign(bytes);
    if bytes.len() > LONGEST || !is_number(number) {
        return None;
    }
    match thousands(number) {
        Some(count) => in_range(bytes[0] == b'-', count),
        None => None,
    }
}

/// The milliseconds, where they are in range.
fn in_range(minus: bool, count: u64) -> Option<Millis>
    ensures { option_map spec.millis_of result ≡ (if is_in_range (spec.signed minus count) then Some (spec.signed minus count) else None) }
{
    if count < END || minus && count == END {
        Some(Millis { minus, count })
    } else {
        None
    }
}

/// The parts of a number with no sign: the digits before its point and behind it, and its exponent.
#[derive(Clone, Copy)]
struct Parts<'a> {
    whole: &'a [u8],
    part: &'a [u8],
    exponent: &'a [u8],
}

/// The digits in front, and what follows them.
fn digits_of(bytes: &[u8]) -> Part<'_>
    ensures bytes { result.bytes.now ≡ spec.whole bytes.now }
    ensures rest { result.rest.now ≡ spec.behind_whole bytes.now }
{
    cut(bytes, digit_count(bytes))
}

fn parts_of(number: &[u8]) -> Parts<'_>
    ensures whole { result.whole.now ≡ spec.whole number.now }
    ensures part { result.part.now ≡ spec.part number.now }
    ensures exponent { result.exponent.now ≡ spec.exponent number.now }
{
    let whole = digits_of(number);
    if whole.rest.is_empty() || whole.rest[0] != b'.' {
        return Parts {
            whole: whole.bytes,
            part: &[],
            exponent: whole.rest,
        };
    }
    let part = digits_of(&whole.rest[1..]);
    Parts {
        whole: whole.bytes,
        part: part.bytes,
        exponent: part.rest,
    }
}

/// By how many places an exponent moves the point, or `FAR` where it is more.
fn power_of(exponent: &[u8]) -> u64
    requires { is_exponent exponent.now ≡ true }
    ensures { result ≡ min (spec.power exponent.now) 1000 }
{
    if exponent.is_empty() {
        return 0;
    }
    match number_of(without_sign(&exponent[1..])) {
        Some(power) => power.min(FAR),
        None => FAR,
    }
}

/// Before how many digits the point stands once it is moved.
#[tactic(auto, unfolding(crate::specs::Timestamps::near_place))]
fn place_of(count: usize, exponent: &[u8]) -> usize
    requires count { count ≤ 128 }
    requires exponent { is_exponent exponent.now ≡ true }
    ensures { result ≡ spec.near_place count exponent.now }
{
    let power = power_of(exponent) as usize;
    if exponent.len() > 1 && exponent[1] == b'-' {
        (count + 3).saturating_sub(power)
    } else {
        count + 3 + power
    }
}

/// So many bytes in front, or all.
fn front(bytes: &[u8], count: usize) -> &[u8]
    ensures { result.now ≡ take count bytes.now }
{
    &bytes[..count.min(bytes.len())]
}

/// The number with its point moved three places to the right, without what stands behind it, where it has 64 bits.
fn thousands(number: &[u8]) -> Option<u64>
    requires number { is_number number.now ≡ true }
    requires short { length number.now ≤ 128 }
    ensures { SomeIff result (spec.thousands number.now < 2 ^ 64) (spec.thousands number.now) }
{
    let parts = parts_of(number);
    let place = place_of(parts.whole.len(), parts.exponent);
    count_before(place, parts.whole, parts.part)
}

/// The number that the digits before a place spell, zeros behind those that are there, where it has 64 bits.
fn count_before(place: usize, whole: &[u8], part: &[u8]) -> Option<u64>
    requires whole { list_all is_ascii_digit whole.now ≡ true }
    requires part { list_all is_ascii_digit part.now ≡ true }
    ensures { let count = digits_value 10 (spec.digits_before place (whole.now ++ part.now)) in SomeIff result (count < 2 ^ 64) count }
{
    let whole = front(whole, place);
    let part = front(part, place - whole.len());
    let Some(count) = with_digits(0, whole) else {
        return None;
    };
    let Some(count) = with_digits(count, part) else {
        return None;
    };
    with_zeros(count, place - whole.len() - part.len())
}

/// A number with digits behind it, where it has 64 bits.
fn with_digits(number: u64, digits: &[u8]) -> Option<u64>
    requires { list_all is_ascii_digit digits.now ≡ true }
    ensures { let count = digits_value_after 10 number digits.now in SomeIff result (count < 2 ^ 64) count }
{
    let mut count = number;
    for digit in digits {
        count = match with_digit(count, *digit) {
            Some(longer) => longer,
            None => return None,
        };
    }
    Some(count)
}

/// A number with one more digit, where it has 64 bits.
fn with_digit(number: u64, digit: u8) -> Option<u64>
    requires { (48 ≤ digit) × (digit ≤ 57) }
    ensures { SomeIff result (number * 10 + (digit - 48) < 2 ^ 64) (number * 10 + (digit - 48)) }
{
    let longer = number as u128 * 10 + (digit - b'0') as u128;
    if longer < 1 << 64 {
        Some(longer as u64)
    } else {
        None
    }
}

/// A number with zeros behind it, where it has 64 bits.
fn with_zeros(number: u64, zeros: usize) -> Option<u64>
    ensures { SomeIff result (number * 10 ^ zeros < 2 ^ 64) (number * 10 ^ zeros) }
{
    let mut count = number;
    for done in 0..zeros {
        count = match count.checked_mul(10) {
            Some(longer) => longer,
            None => return None,
        };
    }
    Some(count)
}

/// Adds milliseconds to a text.
pub fn push_millis(text: &mut Vec<u8>, millis: Millis) -> Result<(), NoMemory>
    ensures { OnOk result (text.new.items ≡ text.old.items ++ signed_decimal (spec.millis_of millis)) }
{
    let mut buffer = Buffer::new();
    if millis.minus && millis.count > 0 {
        text.push(b'-')?;
    }
    text.extend_from_slice(buffer.format(millis.count).as_bytes())?;
    Ok(())
}
