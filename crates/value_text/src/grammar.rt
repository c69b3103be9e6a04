//! The grammar of values, one function for each of its parts.
ghost use Rattle.std.specs.Prelude.{◌≡◌, ◌≤◌, length};
ghost use Rattle.std.specs.List.{list_all};
ghost use Rattle.std.specs.Char.{is_ascii_digit};
ghost use Rattle.value_text.specs.Values as spec;

/// Whether the bytes are a value.
#[tactic(auto, unfolding(crate::specs::Values::is_value))]
pub fn is_value(bytes: &[u8]) -> bool
    ensures { result ≡ spec.is_value bytes.now }
{
    bytes.len() <= 128
        && (is_number(without_sign(bytes))
            || is_infinity(without_sign(bytes))
            || bytes.eq_ignore_ascii_case(b"nan"))
}

/// The bytes behind a sign, if there is one.
#[tactic(auto, unfolding(crate::specs::Values::is_sign))]
pub fn without_sign(bytes: &[u8]) -> &[u8]
    ensures { result.now ≡ spec.unsigned bytes.now }
{
    match bytes.first() {
        Some(b'+' | b'-') => &bytes[1..],
        _ => bytes,
    }
}

/// Whether the bytes are digits and nothing else, one at least.
pub fn is_digits(bytes: &[u8]) -> bool
    ensures { result ≡ spec.is_digits bytes.now }
{
    !bytes.is_empty() && all_digits(bytes)
}

fn all_digits(bytes: &[u8]) -> bool
    ensures { result ≡ list_all is_ascii_digit bytes.now }
{
    bytes.iter().all(|b| b.is_ascii_digit())
}

/// How many digits stand in front.
pub fn digit_count(bytes: &[u8]) -> usize
    ensures value { result ≡ spec.digits bytes.now }
    ensures within { result ≤ length bytes.now }
{
    bytes.iter().take_while(|b| b.is_ascii_digit()).count()
}

#[tactic(auto, unfolding(crate::specs::Values::is_exponent))]
fn is_exponent(bytes: &[u8]) -> bool
    ensures { result ≡ spec.is_exponent bytes.now }
{
    if bytes.is_empty() {
        return true;
    }
    (bytes[0] == b'e' || bytes[0] == b'E') && is_digits(without_sign(&bytes[1..]))
}

fn is_tail(count: usize, rest: &[u8]) -> bool
    ensures { result ≡ spec.is_tail count rest.now }
{
    if !rest.is_empty() && rest[0] == b'.' {
        is_fraction(count, &rest[1..])
    } else {
        count > 0 && is_exponent(rest)
    }
}

fn is_fraction(count: usize, rest: &[u8]) -> bool
    ensures { result ≡ spec.is_fraction count rest.now }
{
    let more = digit_count(rest);
    (count > 0 || more > 0) && is_exponent(&rest[more..])
}

/// Whether the bytes are a number with no sign.
pub fn is_number(bytes: &[u8]) -> bool
    ensures { result ≡ spec.is_number bytes.now }
{
    let count = digit_count(bytes);
    is_tail(count, &bytes[count..])
}

fn is_infinity(bytes: &[u8]) -> bool
    ensures { result ≡ spec.is_infinity bytes.now }
{
    bytes.eq_ignore_ascii_case(b"inf") || bytes.eq_ignore_ascii_case(b"infinity")
}
