//! What stands at the front of a connection's bytes.
ghost use Rattle.std.specs.Prelude.{◌≡◌, ◌≤◌, length, map, All};
ghost use Rattle.httparse.specs.Spans.{IsHeaderWithin, header_bytes};
ghost use Rattle.request_heads.specs.Fronts.{IsFront};
ghost use Rattle.request_heads.specs.Requests as spec;

use crate::fields::{closes, has_body};
use crate::pages::{Page, page_by, path_of, query_of};
use httparse::Status;
use httparse::spans::{EMPTY_HEADER_SPAN, HeaderSpan, parse_request};

/// The most bytes of a head.
const MOST_HEAD: usize = 65536;

/// A request whose head was read.
#[derive(Clone, Copy, Debug)]
pub struct Request<'a> {
    /// What it asks for.
    pub page: Page,
    /// What stands behind the first `?` of its target.
    pub query: &'a [u8],
    /// Whether the connection ends behind its reply.
    pub closes: bool,
}

/// What stands at the front of some bytes.
#[derive(Clone, Copy, Debug)]
pub enum Front<'a> {
    /// A request, whose head has so many bytes.
    Whole { request: Request<'a>, len: usize },
    /// None yet: its head may go on.
    Waiting,
    /// None, whatever follows.
    Never,
}

/// The page that a request asks for, by the parts of its head.
fn asked(text: &[u8], method: &[u8], target: &[u8], fields: &[HeaderSpan]) -> Page
    requires { All (IsHeaderWithin (length text.now)) fields.now }
    ensures { result ≡ spec.asked method.now target.now (map (header_bytes text.now) fields.now) }
{
    if has_body(text, fields) {
        Page::Body
    } else {
        page_by(method, path_of(target))
    }
}

/// The request at the front.
pub fn front_at(bytes: &[u8]) -> Front<'_>
    ensures { IsFront bytes.now result }
{
    let mut headers = [EMPTY_HEADER_SPAN; 64];
    match parse_request(bytes, &mut headers) {
        Ok(Status::Complete(head)) => {
            if head.len > MOST_HEAD {
                return Front::Never;
            }
            let target = head.path.of(bytes);
            let fields = &headers[..head.headers];
            let request = Request {
                page: asked(bytes, head.method.of(bytes), target, fields),
                query: query_of(target),
                closes: closes(bytes, fields),
            };
            Front::Whole {
                request,
                len: head.len,
            }
        }
        Ok(Status::Partial) => {
            if bytes.len() < MOST_HEAD {
                Front::Waiting
            } else {
                Front::Never
            }
        }
        Err(_) => Front::Never,
    }
}
