//! What the fields of a head say of the body.
ghost use Rattle.std.specs.Prelude.{◌≡◌, ℕ, ◌<◌, ◌≤◌, ◌^◌, ◌==◌, not, length, take, drop, map, All};
ghost use Rattle.std.specs.List.{list_all, prefix_len};
ghost use Rattle.httparse.specs.Spans.{IsHeaderWithin, header_bytes};
ghost use Rattle.http_fetch.specs.Fields as spec;

use httparse::spans::HeaderSpan;

/// How the body goes that follows a head.
#[derive(Clone, Copy, PartialEq, Eq, Debug)]
pub enum Framing {
    /// The fields of the head are refused.
    Refused,
    /// So many bytes.
    Length(u64),
    /// In chunks.
    Chunks,
    /// To the end of the link.
    ToEnd,
}

/// Whether the texts are the same but for the case of their letters.
fn same_word(one: &[u8], other: &[u8]) -> bool
    ensures { result ≡ spec.same_word one.now other.now }
{
    one.eq_ignore_ascii_case(other)
}

/// Whether a field has the name.
fn is_named(text: &[u8], field: HeaderSpan, name: &[u8]) -> bool
    requires { IsHeaderWithin (length text.now) field }
    ensures { result ≡ spec.is_named name.now (header_bytes text.now field) }
{
    same_word(field.name.of(text), name)
}

/// Whether a `Content-Encoding` is none that is taken.
fn is_encoded(text: &[u8], fields: &[HeaderSpan]) -> bool
    requires { All (IsHeaderWithin (length text.now)) fields.now }
    ensures { result ≡ spec.is_encoded (map (header_bytes text.now) fields.now) }
{
    for field in fields {
        if is_named(text, *field, b"content-encoding")
            && !same_word(field.value.of(text), b"identity")
        {
            return true;
        }
    }
    false
}

/// What the fields `Transfer-Encoding` say.
#[derive(Clone, Copy, PartialEq, Eq, Debug)]
pub enum Coding {
    Absent,
    Chunked,
    Other,
}

/// The coding, after one more field.
fn coding_with(coding: Coding, value: &[u8]) -> Coding
    ensures { result ≡ spec.coding_with coding value.now }
{
    match coding {
        Coding::Absent => {
            if same_word(value, b"chunked") {
                Coding::Chunked
            } else {
                Coding::Other
            }
        }
        _ => Coding::Other,
    }
}

/// What the fields `Transfer-Encoding` say.
fn coding_of(text: &[u8], fields: &[HeaderSpan]) -> Coding
    requires { All (IsHeaderWithin (length text.now)) fields.now }
    ensures { result ≡ spec.coding (spec.values spec.transfer_encoding (map (header_bytes text.now) fields.now)) }
{
    let mut coding = Coding::Absent;
    for field in fields {
        if is_named(text, *field, b"transfer-encoding") {
            coding = coding_with(coding, field.value.of(text));
        }
    }
    coding
}

/// The decimal number that the text is, below 2^63.
fn number(text: &[u8]) -> Option<u64>
    ensures { result ≡ spec.number text.now }
{
    if text.is_empty() {
        return None;
    }
    let mut number: u64 = 0;
    for digit in text {
        let digit = *digit;
        if !digit.is_ascii_digit() {
            return None;
        }
        number = match number_with(number, digit) {
            Some(longer) => longer,
            None => return None,
        };
    }
    Some(number)
}

/// The number with one more digit, below 2^63.
fn number_with(number: u64, digit: u8) -> Option<u64>
    requires few { number < 2 ^ 63 }
    requires digit { (48 ≤ digit) × (digit ≤ 57) }
    ensures { result ≡ spec.number_with number digit }
{
    let longer = number as u128 * 10 + (digit - b'0') as u128;
    if longer < 1 << 63 {
        Some(longer as u64)
    } else {
        None
    }
}

/// The number with one more value of a `Content-Length`.
fn length_with(length: Framing, value: &[u8]) -> Framing
    ensures { result ≡ spec.length_with length value.now }
{
    match (length, number(value)) {
        (Framing::ToEnd, Some(number)) => Framing::Length(number),
        (Framing::Length(number), Some(other)) => {
            if number == other {
                length
            } else {
                Framing::Refused
            }
        }
        _ => Framing::Refused,
    }
}

/// What the fields `Content-Length` say.
fn length_of(text: &[u8], fields: &[HeaderSpan]) -> Framing
    requires { All (IsHeaderWithin (length text.now)) fields.now }
    ensures { result ≡ spec.by_length (spec.values spec.content_length (map (header_bytes text.now) fields.now)) }
{
    let mut framing = Framing::ToEnd;
    for field in fields {
        if is_named(text, *field, b"content-length") {
            framing = length_with(framing, field.value.of(text));
        }
    }
    framing
}

/// How the body goes, by the fields of its head.
pub fn framing_of(text: &[u8], fields: &[HeaderSpan]) -> Framing
    requires { All (IsHeaderWithin (length text.now)) fields.now }
    ensures { result ≡ spec.framing (map (header_bytes text.now) fields.now) }
{
    if is_encoded(text, fields) {
        return Framing::Refused;
    }
    match coding_of(text, fields) {
        Coding::Chunked => Framing::Chunks,
        Coding::Other => Framing::Refused,
        Coding::Absent => length_of(text, fields),
    }
}

/// Whether a byte is a space or a tab.
#[tactic(auto, unfolding(crate::specs::Fields::is_space))]
fn is_space(byte: u8) -> bool
    ensures { result ≡ spec.is_space byte }
{
    byte == b' ' || byte == b'\t'
}

/// Whether all bytes are spaces and tabs.
fn are_spaces(bytes: &[u8]) -> bool
    ensures { result ≡ list_all spec.is_space bytes.now }
{
    bytes.iter().all(|b| is_space(*b))
}

/// How many bytes stand before the first `;`.
fn front_len(value: &[u8]) -> usize
    ensures value { result ≡ prefix_len (λ b. not (b == 59)) value.now }
    ensures within { result ≤ length value.now }
{
    value.iter().take_while(|b| **b != b';').count()
}

/// How many spaces and tabs stand in front.
fn space_len(bytes: &[u8]) -> usize
    ensures value { result ≡ prefix_len spec.is_space bytes.now }
    ensures within { result ≤ length bytes.now }
{
    bytes.iter().take_while(|b| is_space(**b)).count()
}

/// What stands before the first `;` of a value, without blanks in front.
fn media(value: &[u8]) -> &[u8]
    ensures { result.now ≡ spec.media value.now }
{
    let front = &value[..front_len(value)];
    &front[space_len(front)..]
}

/// So many bytes in front, or all.
fn front_of(bytes: &[u8], count: usize) -> &[u8]
    ensures { result.now ≡ take count bytes.now }
{
    &bytes[..count.min(bytes.len())]
}

/// What follows so many bytes.
fn behind(bytes: &[u8], count: usize) -> &[u8]
    ensures { result.now ≡ drop count bytes.now }
{
    &bytes[count.min(bytes.len())..]
}

/// Whether a value of `Content-Type` names OpenMetrics.
#[tactic(auto, unfolding(crate::specs::Fields::is_named_openmetrics))]
fn is_named_openmetrics(value: &[u8]) -> bool
    ensures { result ≡ spec.is_named_openmetrics value.now }
{
    let media = media(value);
    same_word(front_of(media, 28), b"application/openmetrics-text") && are_spaces(behind(media, 28))
}

/// What a body is of, as its head says.
#[derive(Clone, Copy, PartialEq, Eq, Debug)]
pub enum Kind {
    /// The text exposition format, or nothing that is known here.
    Plain,
    /// The same, with names in quotes.
    Quoted,
    /// OpenMetrics.
    OpenMetrics,
}

/// Whether a part of a value of `Content-Type` says that names stand in quotes.
#[tactic(auto, unfolding(crate::specs::Fields::is_escaping))]
fn is_escaping(part: &[u8]) -> bool
    ensures { result ≡ spec.is_escaping part.now }
{
    let word = behind(part, space_len(part));
    same_word(front_of(word, 20), b"escaping=allow-utf-8") && are_spaces(behind(word, 20))
}

/// Whether some part of a value of `Content-Type` does.
fn says_quoted(value: &[u8]) -> bool
    ensures { result ≡ spec.says_quoted value.now }
{
    value.split(|b| *b == b';').any(|part| is_escaping(part))
}

/// What the body is of, by a value of `Content-Type`.
#[tactic(auto, unfolding(crate::specs::Fields::kind_by))]
fn kind_by(value: &[u8]) -> Kind
    ensures { result ≡ spec.kind_by value.now }
{
    if is_named_openmetrics(value) {
        return Kind::OpenMetrics;
    }
    if says_quoted(value) {
        Kind::Quoted
    } else {
        Kind::Plain
    }
}

/// What the body is of, by the fields of its head.
#[tactic(auto, unfolding(crate::specs::Fields::kind))]
pub fn kind_of(text: &[u8], fields: &[HeaderSpan]) -> Kind
    requires { All (IsHeaderWithin (length text.now)) fields.now }
    ensures { result ≡ spec.kind (map (header_bytes text.now) fields.now) }
{
    for field in fields {
        if is_named(text, *field, b"content-type") {
            return kind_by(field.value.of(text));
        }
    }
    Kind::Plain
}
