//! The texts in quotes.
ghost use Rattle.std.specs.Prelude.{◌≡◌, IfOk, OnOk, is_some};
ghost use Rattle.std.specs.Str.{is_utf8};
ghost use Rattle.expo_reader.specs.Texts as spec;

use expo_reader::texts::{is_ascii_plain, is_plain, push_resolved};
use label_set::NoMemory;
use std::str;

/// Whether a text in quotes writes a value: with its escapes resolved it is UTF-8. The room is used again. Most are of ASCII with no escape.
pub fn is_written(text: &[u8], room: &mut Vec<u8>) -> Result<bool, NoMemory>
    ensures { IfOk result (λ b. b ≡ is_some (spec.text_value text.now)) }
{
    if is_ascii_plain(text) {
        return Ok(true);
    }
    if is_plain(text) {
        return Ok(is_utf8(text));
    }
    resolve(text, room)?;
    Ok(is_utf8(room.as_slice()))
}

/// Whether bytes are UTF-8.
fn is_utf8(bytes: &[u8]) -> bool
    ensures { result ≡ is_utf8 bytes.now }
{
    match str::from_utf8(bytes) {
        Ok(_) => true,
        Err(_) => false,
    }
}

/// Puts a text with its escapes resolved in the place of what was there.
fn resolve(text: &[u8], room: &mut Vec<u8>) -> Result<(), NoMemory>
    ensures { OnOk result (room.new.items ≡ spec.resolved text.now) }
{
    room.clear();
    let mut escaped = false;
    for byte in text {
        escaped = push_resolved(room, escaped, *byte)?;
    }
    Ok(())
}
