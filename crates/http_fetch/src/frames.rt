//! What stands between the bytes of chunks: their lines, their ends and the trailers.
ghost use Rattle.std.specs.Prelude.{◌≡◌, ℕ, List, ◌<◌, ◌≤◌, length};
ghost use Rattle.std.specs.List.{prefix_len};
ghost use Rattle.http_fetch.specs.Reading.{IsLine, IsEnd, IsTrailerAt};
ghost use Rattle.http_fetch.specs.Chunks as spec;
ghost use Rattle.http_fetch.specs.Chunks.{is_text};

use httparse::{Status, parse_chunk_size};

/// The most bytes of a chunk line.
const MOST_LINE: usize = 256;

/// What is at the front of some bytes, where a chunk line is wanted.
#[derive(Clone, Copy, PartialEq, Eq, Debug)]
pub enum Line {
    /// A line of this length, before a chunk of this size.
    Found { len: usize, size: u64 },
    /// None yet.
    Waiting,
    /// None, whatever follows.
    Never,
}

/// The chunk line at the front.
pub fn line_at(bytes: &[u8]) -> Line
    ensures { IsLine bytes.now result }
{
    match parse_chunk_size(bytes) {
        Ok(Status::Complete((len, size))) => {
            if len > MOST_LINE {
                Line::Never
            } else {
                Line::Found { len, size }
            }
        }
        Ok(Status::Partial) => {
            if bytes.len() < MOST_LINE {
                Line::Waiting
            } else {
                Line::Never
            }
        }
        Err(_) => Line::Never,
    }
}

/// What is at the front of some bytes, where the end of a chunk is wanted.
#[derive(Clone, Copy, PartialEq, Eq, Debug)]
pub enum End {
    Found,
    Waiting,
    Never,
}

/// The end of a chunk at the front.
pub fn end_at(bytes: &[u8]) -> End
    ensures { IsEnd bytes.now result }
{
    match bytes {
        [] => End::Waiting,
        [b'\r'] => End::Waiting,
        [b'\r', b'\n', ..] => End::Found,
        _ => End::Never,
    }
}

/// What is at the front of some bytes, where a trailer line or the empty line is wanted.
#[derive(Clone, Copy, PartialEq, Eq, Debug)]
pub enum Trailer {
    /// A line whose text has this length, before its line feed.
    Found { len: usize },
    /// The empty line, whose text has this length.
    Last { len: usize },
    /// None yet.
    Waiting,
    /// None in the room, whatever follows.
    Never,
}

/// The trailer line at the front, in so much room.
pub fn trailer_at(bytes: &[u8], room: usize) -> Trailer
    ensures { IsTrailerAt bytes.now room result }
{
    let len = text_len(bytes);
    if len == bytes.len() {
        if len < room || is_blank(bytes) {
            return Trailer::Waiting;
        }
        return Trailer::Never;
    }
    if is_blank(&bytes[..len]) {
        return Trailer::Last { len };
    }
    if len < room {
        Trailer::Found { len }
    } else {
        Trailer::Never
    }
}

/// How many bytes stand before the first line feed.
fn text_len(bytes: &[u8]) -> usize
    ensures value { result ≡ prefix_len is_text bytes.now }
    ensures within { result ≤ length bytes.now }
{
    bytes.iter().take_while(|b| **b != b'\n').count()
}

/// Whether the text of a line is that of the empty line.
fn is_blank(text: &[u8]) -> bool
    ensures { result ≡ spec.is_blank text.now }
{
    matches!(text, [] | [b'\r'])
}
