//! What the fields of a request's head say of the connection.
ghost use Rattle.std.specs.Prelude.{◌≡◌, length, map, All};
ghost use Rattle.std.specs.List.{list_any};
ghost use Rattle.httparse.specs.Spans.{IsHeaderWithin, header_bytes};
ghost use Rattle.request_heads.specs.Requests as spec;

use crate::pages::same;
use httparse::spans::HeaderSpan;

/// Whether two texts are the same but for the case of their letters.
fn same_word(one: &[u8], other: &[u8]) -> bool
    ensures { result ≡ spec.same_word one.now other.now }
{
    one.eq_ignore_ascii_case(other)
}

/// Whether a field says that a body follows, or may follow.
#[tactic(auto, unfolding(crate::specs::Requests::tells_body))]
fn tells_body(text: &[u8], field: HeaderSpan) -> bool
    requires { IsHeaderWithin (length text.now) field }
    ensures { result ≡ spec.tells_body (header_bytes text.now field) }
{
    let name = field.name.of(text);
    same_word(name, b"transfer-encoding")
        || (same_word(name, b"content-length") && !same(field.value.of(text), b"0"))
}

/// Whether a field says that the connection ends behind the reply.
#[tactic(auto, unfolding(crate::specs::Requests::tells_close))]
fn tells_close(text: &[u8], field: HeaderSpan) -> bool
    requires { IsHeaderWithin (length text.now) field }
    ensures { result ≡ spec.tells_close (header_bytes text.now field) }
{
    same_word(field.name.of(text), b"connection") && same_word(field.value.of(text), b"close")
}

/// Whether some field says that a body follows, or may follow.
pub fn has_body(text: &[u8], fields: &[HeaderSpan]) -> bool
    requires { All (IsHeaderWithin (length text.now)) fields.now }
    ensures { result ≡ list_any spec.tells_body (map (header_bytes text.now) fields.now) }
{
    for field in fields {
        if tells_body(text, *field) {
            return true;
        }
    }
    false
}

/// Whether some field says that the connection ends behind the reply.
pub fn closes(text: &[u8], fields: &[HeaderSpan]) -> bool
    requires { All (IsHeaderWithin (length text.now)) fields.now }
    ensures { result ≡ list_any spec.tells_close (map (header_bytes text.now) fields.now) }
{
    for field in fields {
        if tells_close(text, *field) {
            return true;
        }
    }
    false
}
