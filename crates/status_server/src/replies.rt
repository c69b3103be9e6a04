//! The text of a reply.
ghost use Rattle.std.specs.Prelude.{◌≡◌, ◌++◌, OnOk};
ghost use Rattle.status_server.specs.Replies as spec;

use itoa::Buffer;
use label_set::NoMemory;

/// The status of a reply.
#[derive(Clone, Copy, PartialEq, Eq, Debug)]
pub enum Status {
    /// 200.
    Done,
    /// 400.
    BadRequest,
    /// 404.
    NotFound,
    /// 405.
    OtherMethod,
    /// 500.
    Failed,
}

/// The number of a status, and the reason behind it.
fn words(status: Status) -> &'static [u8]
    ensures { result.now ≡ spec.words status }
{
    match status {
        Status::Done => b"200 OK",
        Status::BadRequest => b"400 Bad Request",
        Status::NotFound => b"404 Not Found",
        Status::OtherMethod => b"405 Method Not Allowed",
        Status::Failed => b"500 Internal Server Error",
    }
}

/// Appends the first line of a reply, and its kind.
fn push_front(text: &mut Vec<u8>, status: Status) -> Result<(), NoMemory>
    ensures added { OnOk result (text.new.items ≡ text.old.items ++ spec.front status) }
{
    text.extend_from_slice(b"HTTP/1.1 ")?;
    text.extend_from_slice(words(status))?;
    text.extend_from_slice(
        b"\r\nContent-Type: text/plain; version=1.0.0; escaping=allow-utf-8\r\n",
    )?;
    Ok(())
}

/// Appends the length of a body.
fn push_length(text: &mut Vec<u8>, length: usize) -> Result<(), NoMemory>
    ensures added { OnOk result (text.new.items ≡ text.old.items ++ spec.length_line length) }
{
    let mut buffer = Buffer::new();
    text.extend_from_slice(b"Content-Length: ")?;
    text.extend_from_slice(buffer.format(length).as_bytes())?;
    text.extend_from_slice(b"\r\n")?;
    Ok(())
}

/// Appends the end of a head, which says whether the connection ends behind the reply.
fn push_end(text: &mut Vec<u8>, closes: bool) -> Result<(), NoMemory>
    ensures added { OnOk result (text.new.items ≡ text.old.items ++ spec.end closes) }
{
    let end: &[u8] = if closes {
        b"Connection: close\r\n\r\n"
    } else {
        b"\r\n"
    };
    text.extend_from_slice(end)?;
    Ok(())
}

/// Appends a reply with this status and body; `closes` says whether the connection ends behind it.
///
/// # Errors
///
/// The only error is out of memory; a front of the reply may stand in the text then.
pub fn push_reply(
    text: &mut Vec<u8>,
    status: Status,
    closes: bool,
    body: &[u8],
) -> Result<(), NoMemory>
    ensures added { OnOk result (text.new.items ≡ text.old.items ++ spec.reply status closes body.now) }
{
    push_front(text, status)?;
    push_length(text, body.len())?;
    push_end(text, closes)?;
    text.extend_from_slice(body)?;
    Ok(())
}
