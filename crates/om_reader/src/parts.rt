//! What stands in front of some bytes.
ghost use Rattle.std.specs.Prelude.{◌≡◌, ◌≤◌, ◌==◌, length, MatchOption, None, Some, not};
ghost use Rattle.std.specs.List.{prefix_len};
ghost use Rattle.om_reader.specs.Forms as spec;

use expo_reader::parts::{Part, cut, mark_at};

/// How many bytes stand before the first space.
#[inline]
fn field_len(text: &[u8]) -> usize
    ensures value { result ≡ spec.field_len text.now }
    ensures within { result ≤ length text.now }
{
    text.iter().take_while(|b| **b != b' ').count()
}

/// Behind one space the bytes before the next one, and what follows them.
#[inline]
#[tactic(auto, unfolding(crate::specs::Forms::field_at))]
pub fn field_at(text: &[u8]) -> Option<Part<'_>>
    ensures part { MatchOption result (spec.field_at text.now ≡ None) (λ p. spec.field_at text.now ≡ Some (p.bytes.now, p.rest.now)) }
{
    match mark_at(b' ', text) {
        Some(field) => Some(cut(field, field_len(field))),
        None => None,
    }
}
