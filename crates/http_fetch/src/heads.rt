//! The head at the front.
ghost use Rattle.std.specs.Prelude.{◌≡◌, ℕ, List, ◌<◌, ◌≤◌, length};
ghost use Rattle.http_fetch.specs.Reading.{IsHead};

use crate::fields::{Framing, Kind, framing_of, kind_of};
use httparse::Status;
use httparse::spans::{EMPTY_HEADER_SPAN, parse_response};

/// The most bytes of a head.
const MOST_HEAD: usize = 65536;

/// What is at the front of some bytes, where a head is wanted.
#[derive(Clone, Copy, PartialEq, Eq, Debug)]
pub enum Head {
    /// A head of this status and length, behind which the body goes so, and what it is of.
    Found {
        status: u16,
        len: usize,
        framing: Framing,
        kind: Kind,
    },
    /// None yet.
    Waiting,
    /// None, whatever follows.
    Never,
}

/// The head at the front.
pub fn head_at(bytes: &[u8]) -> Head
    ensures { IsHead bytes.now result }
{
    let mut headers = [EMPTY_HEADER_SPAN; 64];
    match parse_response(bytes, &mut headers) {
        Ok(Status::Complete(head)) => {
            if head.len > MOST_HEAD {
                return Head::Never;
            }
            Head::Found {
                status: head.code,
                len: head.len,
                framing: framing_of(bytes, &headers[..head.headers]),
                kind: kind_of(bytes, &headers[..head.headers]),
            }
        }
        Ok(Status::Partial) => {
            if bytes.len() < MOST_HEAD {
                Head::Waiting
            } else {
                Head::Never
            }
        }
        Err(_) => Head::Never,
    }
}
