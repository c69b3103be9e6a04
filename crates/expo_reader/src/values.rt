//! The timestamp of a line.
ghost use Rattle.std.specs.Prelude.{◌≡◌};
ghost use Rattle.expo_reader.specs.Forms as spec;
ghost use Rattle.expo_reader.specs.Texts.{is_end};

use crate::parts::{start_of, word_in};
use value_text::read_millis;

/// The timestamp, where anything but blanks is left.
#[tactic(auto, unfolding(crate::specs::Forms::stamp_in))]
pub fn stamp_in(text: &[u8]) -> Option<Option<i64>>
    ensures { result ≡ spec.stamp_in text.now }
{
    if ends(text) {
        return Some(None);
    }
    let Some(word) = word_in(text) else {
        return None;
    };
    if !ends(word.rest) {
        return None;
    }
    match read_millis(word.bytes) {
        Ok(ms) => Some(Some(ms)),
        Err(_) => None,
    }
}

/// Whether nothing but blanks is left.
fn ends(text: &[u8]) -> bool
    ensures { result ≡ is_end text.now }
{
    start_of(text).is_none()
}
