//! Numbers of a line.
ghost use Rattle.std.specs.Prelude.{◌≡◌, ◌<◌, ◌≤◌, ℕ, ℤ, List, true, option_map, IfSome};
ghost use Rattle.std.specs.Str.{all_ascii_digits};
ghost use Rattle.journal_text.specs.NumberReadings as spec;
ghost use Rattle.journal_text.specs.NumberReadings.{is_plain, number_in, moment_field};

use value_text::{digit_count, number_of};

/// The last moment, and the longest time, in milliseconds.
pub(crate) const LAST_MOMENT: u64 = 4_503_599_627_370_495;

/// Whether there is a digit, and no leading zero.
fn is_plain_number(digits: &[u8]) -> bool
    ensures { result ≡ is_plain digits.now }
{
    !digits.is_empty() && (digits.len() == 1 || digits[0] != b'0')
}

/// The number that digits spell, where it has no leading zero and is in range.
#[tactic(auto, unfolding(crate::specs::NumberReadings::number_in))]
fn number_between(digits: &[u8], low: u64, high: u64) -> Option<u64>
    requires { all_ascii_digits digits.now ≡ true }
    ensures value { result ≡ number_in low high digits.now }
    ensures range { IfSome result (λ n. n ≤ high) }
{
    if !is_plain_number(digits) {
        return None;
    }
    let value = number_of(digits)?;
    if low <= value && value <= high {
        Some(value)
    } else {
        None
    }
}

/// A number in range that a given byte ends, and what follows that byte.
#[tactic(auto, unfolding(crate::specs::NumberReadings::field))]
pub(crate) fn field(bytes: &[u8], low: u64, high: u64, stop: u8) -> Option<(u64, &[u8])>
    requires { 0 < stop }
    ensures value { option_map {U = ℕ × List ℕ} (λ p. (p.0, p.1.now)) result ≡ spec.field low high stop bytes.now }
    ensures range { IfSome result (λ p. p.0 ≤ high) }
{
    let end = digit_count(bytes);
    if end == bytes.len() || bytes[end] != stop {
        return None;
    }
    let value = number_between(&bytes[..end], low, high)?;
    Some((value, &bytes[end + 1..]))
}

/// A moment that a given byte ends, and what follows that byte.
#[tactic(auto, unfolding(crate::specs::NumberReadings::moment_field))]
pub(crate) fn moment(bytes: &[u8], stop: u8) -> Option<(i64, &[u8])>
    requires { 0 < stop }
    ensures { option_map {U = ℤ × List ℕ} (λ p. (p.0, p.1.now)) result ≡ moment_field stop bytes.now }
{
    let (value, rest) = field(bytes, 0, LAST_MOMENT, stop)?;
    Some((value as i64, rest))
}
