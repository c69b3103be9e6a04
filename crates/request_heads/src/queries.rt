//! The selectors of a query.
ghost use Rattle.std.specs.Prelude.{◌≡◌, ◌≤◌, not, ◌==◌, length, map, option_map, IfOk, Some};
ghost use Rattle.std.specs.List.{prefix_len};
ghost use Rattle.std.specs.String.{string_bytes};
ghost use Rattle.request_heads.specs.Queries as spec;

use crate::pages::same;
use percent_encoding::percent_decode;
use std::alloc::{AllocError, Global};

/// What a part of a query gives.
#[derive(Drop)]
enum Part {
    /// Nothing: it has another name, or no value.
    Passed,
    /// Its name doesn't decode, or the selector's text doesn't.
    Refused,
    /// The text of a selector.
    Selector(String),
}

/// Whether two hexadecimal digits stand in front.
fn has_digits(text: &[u8]) -> bool
    ensures { result ≡ spec.has_digits text.now }
{
    match text {
        [one, two, ..] => one.is_ascii_hexdigit() && two.is_ascii_hexdigit(),
        _ => false,
    }
}

/// Whether each `%` begins an escape.
fn are_whole(text: &[u8]) -> bool
    ensures { result ≡ spec.are_whole text.now }
{
    for index in 0..text.len() {
        if text[index] == b'%' && !has_digits(&text[index + 1..]) {
            return false;
        }
    }
    true
}

/// A text with a space for each `+`.
fn spaced(alloc: Global, text: &[u8]) -> Result<Vec<u8>, AllocError>
    ensures { IfOk result (λ v. v.items ≡ map spec.plus_to_space text.now) }
{
    let mut bytes = Vec::with_capacity(alloc, text.len())?;
    for byte in text {
        bytes.push(if *byte == b'+' { b' ' } else { *byte })?;
    }
    Ok(bytes)
}

/// The bytes that a name or a value stands for.
fn decoded(alloc: Global, text: &[u8]) -> Result<Vec<u8>, AllocError>
    ensures { IfOk result (λ v. v.items ≡ spec.decoded text.now) }
{
    let text = spaced(alloc, text)?;
    let mut bytes = Vec::new(alloc);
    percent_decode(text.as_slice()).append_to(&mut bytes)?;
    Ok(bytes)
}

/// The text that a name or a value stands for; none where a `%` begins no escape, or where the bytes aren't UTF-8.
#[tactic(auto, unfolding(crate::specs::Queries::text_of))]
fn text_of(alloc: Global, text: &[u8]) -> Result<Option<String>, AllocError>
    ensures { IfOk result (λ o. option_map string_bytes o ≡ spec.text_of text.now) }
{
    if !are_whole(text) {
        return Ok(None);
    }
    match String::from_utf8(decoded(alloc, text)?) {
        Ok(text) => Ok(Some(text)),
        Err(_) => Ok(None),
    }
}

/// How many bytes stand before the first one of a kind.
fn front_len(text: &[u8], byte: u8) -> usize
    ensures value { result ≡ prefix_len (λ b. not (b == byte)) text.now }
    ensures within { result ≤ length text.now }
{
    text.iter().take_while(|b| **b != byte).count()
}

/// Whether a name is that of a selector; none where it doesn't decode.
fn names_selector(alloc: Global, name: &[u8]) -> Result<Option<bool>, AllocError>
    ensures { IfOk result (λ o. o ≡ spec.names_selector name.now) }
{
    match text_of(alloc, name)? {
        None => Ok(None),
        Some(name) => Ok(Some(same(name.as_bytes(), b"match[]"))),
    }
}

/// The selector of a value.
fn selector_of(alloc: Global, value: &[u8]) -> Result<Part, AllocError>
    ensures { IfOk result (λ p. spec.gives p ≡ spec.value_gives (spec.text_of value.now)) }
{
    match text_of(alloc, value)? {
        None => Ok(Part::Refused),
        Some(text) => Ok(Part::Selector(text)),
    }
}

/// What a part gives, by its name and its value.
#[tactic(auto, unfolding(crate::specs::Queries::pair_gives))]
fn pair_gives(alloc: Global, name: &[u8], value: &[u8]) -> Result<Part, AllocError>
    ensures { IfOk result (λ p. spec.gives p ≡ spec.pair_gives name.now value.now) }
{
    match names_selector(alloc, name)? {
        None => Ok(Part::Refused),
        Some(false) => Ok(Part::Passed),
        Some(true) => selector_of(alloc, value),
    }
}

/// What a part gives.
#[tactic(auto, unfolding(crate::specs::Queries::part_gives))]
fn part_gives(alloc: Global, part: &[u8]) -> Result<Part, AllocError>
    ensures { IfOk result (λ p. spec.gives p ≡ spec.part_gives part.now) }
{
    let end = front_len(part, b'=');
    if end < part.len() {
        pair_gives(alloc, &part[..end], &part[end + 1..])
    } else {
        Ok(Part::Passed)
    }
}

/// The texts of selectors, with what a part gives behind them; none where it is refused.
fn with_part(
    alloc: Global,
    texts: Vec<String>,
    part: &[u8],
) -> Result<Option<Vec<String>>, AllocError>
    ensures { IfOk result (λ o. option_map spec.texts_of o ≡ spec.joined (Some (spec.texts_of texts)) (spec.part_gives part.now)) }
{
    let mut texts = texts;
    match part_gives(alloc, part)? {
        Part::Passed => Ok(Some(texts)),
        Part::Refused => Ok(None),
        Part::Selector(text) => {
            texts.push(text)?;
            Ok(Some(texts))
        }
    }
}

/// The texts of the selectors of a query, in its order, decoded; none where one, or the name of a part, doesn't decode.
///
/// # Errors
///
/// The only error is out of memory.
pub fn selectors_of(alloc: Global, query: &[u8]) -> Result<Option<Vec<String>>, AllocError>
    ensures { IfOk result (λ o. option_map spec.texts_of o ≡ spec.selectors query.now) }
{
    let mut selectors = Vec::new(alloc);
    let mut left = query;
    loop {
        let end = front_len(left, b'&');
        selectors = match with_part(alloc, selectors, &left[..end])? {
            None => return Ok(None),
            Some(more) => more,
        };
        if end >= left.len() {
            return Ok(Some(selectors));
        }
        left = &left[end + 1..];
    }
}
