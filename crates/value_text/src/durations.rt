//! Durations, as a configuration writes them.
ghost use Rattle.std.specs.Prelude.{◌≡◌, ◌≤◌, ◌+◌, ◌*◌, ◌^◌, ◌<◌, length, take_while, true, not};
ghost use Rattle.std.specs.Char.{is_ascii_digit};
ghost use Rattle.std.specs.Option.{SomeIff};
ghost use Rattle.std.specs.Str.{all_ascii_digits};
ghost use Rattle.std.specs.Str.Parse.{digits_value};
ghost use Rattle.value_text.specs.Durations as spec;

use crate::grammar::digit_count;
use crate::numbers::number_of;

/// The text is no duration, or it is one of more than 2^40 milliseconds.
#[derive(Clone, Copy, PartialEq, Eq, Debug)]
pub struct BadDuration;

/// A unit of time.
#[derive(Clone, Copy)]
enum Unit {
    Year,
    Week,
    Day,
    Hour,
    Minute,
    Second,
    Millisecond,
}

/// The units in the order in which their numbers may stand.
const UNITS: [Unit; 7] = [
    Unit::Year,
    Unit::Week,
    Unit::Day,
    Unit::Hour,
    Unit::Minute,
    Unit::Second,
    Unit::Millisecond,
];

/// The longest duration, in milliseconds.
const LONGEST: u64 = 1_099_511_627_776;

const DAY: u64 = 86_400_000;

impl Unit {
    /// How the unit is written.
    #[tactic(auto, unfolding(crate::specs::Durations::unit_text))]
    fn text(self) -> &'static [u8]
        ensures { result.now ≡ spec.unit_text self }
    {
        match self {
            Unit::Year => b"y",
            Unit::Week => b"w",
            Unit::Day => b"d",
            Unit::Hour => b"h",
            Unit::Minute => b"m",
            Unit::Second => b"s",
            Unit::Millisecond => b"ms",
        }
    }

    /// How many milliseconds it has.
    #[tactic(auto, unfolding(crate::specs::Durations::unit_millis))]
    fn millis(self) -> u64
        ensures { result ≡ spec.unit_millis self }
    {
        match self {
            Unit::Year => 365 * DAY,
            Unit::Week => 7 * DAY,
            Unit::Day => DAY,
            Unit::Hour => 3_600_000,
            Unit::Minute => 60_000,
            Unit::Second => 1_000,
            Unit::Millisecond => 1,
        }
    }
}

/// Reads a duration, in milliseconds: `0`, or numbers in `y`, `w`, `d`, `h`, `m`, `s` and `ms`, one of them at least, each at most once and in
/// this order, as `1h30m`. A year has 365 days. `BadDuration` comes exactly where the text is none, or more than 2^40 milliseconds.
/// (Prometheus documentation, "Configuration", `<duration>`.)
#[tactic(auto, unfolding(crate::specs::Durations::duration))]
pub fn read_duration(text: &str) -> Result<i64, BadDuration>
    ensures { result ≡ spec.within_limit (spec.duration text.now) }
{
    let bytes = text.as_bytes();
    if bytes.is_empty() {
        return Err(BadDuration);
    }
    if bytes == b"0".as_slice() {
        return Ok(0);
    }
    in_units(&UNITS, bytes)
}

/// The milliseconds of a text that is, for each of the units in turn, a number in it or nothing.
fn in_units(units: &[Unit], bytes: &[u8]) -> Result<i64, BadDuration>
    ensures { result ≡ spec.within_limit (spec.in_units units.now bytes.now) }
{
    let mut rest = bytes;
    let mut total = 0;
    for unit in units {
        if begins_with(rest, *unit) {
            let Some(sum) = longer(total, front_digits(rest), *unit) else {
                return Err(BadDuration);
            };
            total = sum;
            rest = behind(rest);
        }
    }
    if rest.is_empty() {
        Ok(total as i64)
    } else {
        Err(BadDuration)
    }
}

/// A total and a number in a unit, in milliseconds; `None` exactly where they are more than 2^40.
fn longer(total: u64, digits: &[u8], unit: Unit) -> Option<u64>
    requires within { total ≤ 2 ^ 40 }
    requires some { 0 < length digits.now }
    requires digits { all_ascii_digits digits.now ≡ true }
    ensures { SomeIff result (total + digits_value 10 digits.now * spec.unit_millis unit ≤ 2 ^ 40)
        (total + digits_value 10 digits.now * spec.unit_millis unit) }
{
    let part = number_of(digits)?.checked_mul(unit.millis())?;
    if part <= LONGEST - total {
        Some(total + part)
    } else {
        None
    }
}

/// The digits in front.
fn front_digits(bytes: &[u8]) -> &[u8]
    ensures front { result.now ≡ take_while is_ascii_digit bytes.now }
    ensures digits { all_ascii_digits result.now ≡ true }
{
    &bytes[..digit_count(bytes)]
}

/// Whether a number in this unit stands in front.
#[tactic(auto, unfolding(crate::specs::Durations::begins_with))]
fn begins_with(bytes: &[u8], unit: Unit) -> bool
    ensures { result ≡ spec.begins_with unit bytes.now }
{
    let count = digit_count(bytes);
    let word = &bytes[count..];
    count > 0 && &word[..word_length(word)] == unit.text()
}

/// How many bytes stand before the first digit.
fn word_length(bytes: &[u8]) -> usize
    ensures value { result ≡ length (take_while (λ b. not (is_ascii_digit b)) bytes.now) }
    ensures within { result ≤ length bytes.now }
{
    bytes.iter().take_while(|b| !b.is_ascii_digit()).count()
}

/// What follows the digits in front and the word behind them.
fn behind(bytes: &[u8]) -> &[u8]
    ensures { result.now ≡ spec.behind bytes.now }
{
    let word = &bytes[digit_count(bytes)..];
    &word[word_length(word)..]
}
