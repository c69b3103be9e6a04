//! Places as JSON Pointers (RFC 6901).
ghost use Rattle.std.specs.Prelude.{◌≡◌, IfOk, OnOk, ◌++◌, string_bytes};
ghost use Rattle.std.specs.Str.{encode_utf8_all};
ghost use Rattle.config_fields.specs.Places.{field_place, item_place, escaped, escaped_char};

use label_set::{Name, NoMemory};
use std::alloc::Global;

/// The place of a field of the object at a place. In the key `~` is written `~0`, and `/` is written `~1`. An error is out of memory.
#[tactic(auto, unfolding(crate::specs::Places::field_place))]
pub fn at_field(alloc: Global, place: &str, key: &str) -> Result<Name, NoMemory>
    ensures { IfOk result (λ n. n ≡ field_place place.now key.now) }
{
    let mut text = String::from_str(alloc, place)?;
    text.push('/')?;
    push_escaped(&mut text, key)?;
    Ok(Name { text })
}

/// Appends a character, `~` as `~0` and `/` as `~1`.
fn push_escaped_char(text: &mut String, c: char) -> Result<(), NoMemory>
    ensures { OnOk result (string_bytes text.new ≡ string_bytes text.old ++ encode_utf8_all (escaped_char c)) }
{
    if c == '~' {
        text.push_str("~0")?;
    } else if c == '/' {
        text.push_str("~1")?;
    } else {
        text.push(c)?;
    }
    Ok(())
}

/// Appends a key with its characters escaped.
fn push_escaped(text: &mut String, key: &str) -> Result<(), NoMemory>
    ensures { OnOk result (string_bytes text.new ≡ string_bytes text.old ++ escaped key.now) }
{
    let mut rest = key.chars();
    while let Some(c) = rest.next() {
        push_escaped_char(text, c)?;
    }
    Ok(())
}

/// The place of an item of the list at a place, counted from 0. An error is out of memory.
#[tactic(auto, unfolding(crate::specs::Places::item_place))]
pub fn at_item(alloc: Global, place: &str, index: usize) -> Result<Name, NoMemory>
    ensures { IfOk result (λ n. n ≡ item_place place.now index) }
{
    let mut text = String::from_str(alloc, place)?;
    text.push('/')?;
    text.push_str(index.to_string(alloc)?.as_str())?;
    Ok(Name { text })
}
